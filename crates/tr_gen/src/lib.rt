//! The text of a script from a number: a screen with four windows, and 2,000 rounds of pseudorandom
//! commands.
#![tactic(auto)]

mod draws;
mod lines;
mod scripts;
mod writers;

pub use scripts::script_of;
