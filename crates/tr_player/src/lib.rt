//! The top call: it takes words, and a script from a source, and writes the text of the answer.
#![tactic(auto)]

mod calls;
mod checks;
mod errors;
mod responses;
mod statuses;
mod streams;

pub use calls::{Outcome, serial_call, trestle_call};
pub use statuses::Status;
pub use tr_play::{Gate, OpenGate};
