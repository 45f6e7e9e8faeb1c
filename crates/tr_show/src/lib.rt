//! The screens of a stream of updates, as the texts of dumps.
#![tactic(auto)]

mod errors;
mod shows;

pub use errors::ShowRefused;
pub use shows::show;
