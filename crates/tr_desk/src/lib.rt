//! The input devices of the whole screen (cursor, mouse buttons, time), the leaves that get their
//! events, and the owner of each selection.
#![tactic(auto)]

mod desks;

pub use desks::{Desk, DeskFault, LeafState};
