//! A window with the last lines of a typescript: a command adds a line below the others, and if there
//! is no room the lines move upwards.
#![tactic(auto)]

mod commands;
mod typescripts;

pub use commands::LinesCmd;
pub use typescripts::Lines;
