//! A run on one thread: a stage on which steps and reports are made one after another, and their text.
#![tactic(auto)]

mod modes;
mod reports;
mod runs;
mod sums;

pub use modes::Mode;
pub use runs::{Finished, Paused, Run};
