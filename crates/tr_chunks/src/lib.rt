//! The reading of a whole script by threads: a part's lines are cut into chunks, and each chunk is read in a
//! thread of its own.
#![tactic(auto)]

mod chunks;
mod scripts;

pub use scripts::read_script_in_chunks;
