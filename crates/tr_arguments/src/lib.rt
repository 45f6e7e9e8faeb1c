//! The words of the command line, and the command that they give. `clap` reads them.
#![tactic(auto)]

mod commands;
mod parsers;

pub use commands::{Command, command_of};
