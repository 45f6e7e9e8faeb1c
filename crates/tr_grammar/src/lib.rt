//! The grammar of scripts: for each form of a line its words, values, names and meaning, the faults that
//! it can have, in their order, and for a whole text its script, or the place of its first fault. The
//! definitions are in `specs/`, for a reader of scripts; this crate has only their types.
#![tactic(auto)]

mod codes;
mod limits;
mod meanings;
mod places;

pub use codes::{Code, LineRefused, ReadRefused};
pub use limits::LONGEST_SCRIPT;
pub use meanings::Meaning;
pub use places::Place;
