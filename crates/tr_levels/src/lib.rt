//! The levels of the locks, the levels that a thread holds, and the token of a thread.
//!
//! A thread takes locks in one order: the tree's lock, then the share of a leaf, then the lock of a
//! window. The levels that it holds are a strictly rising list.
#![tactic(auto)]

mod held_levels;
mod ladders;
mod levels;
mod spent;

pub use held_levels::Held;
pub use ladders::Ladder;
pub use levels::Level;
