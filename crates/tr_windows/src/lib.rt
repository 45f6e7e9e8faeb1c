//! The windows as the program holds them: each has its present content, and the paint commands that wait
//! for it.
#![tactic(auto)]

mod areas;
mod costs;
mod exposures;
mod keepers;
mod present;
mod windows;

pub use exposures::Exposure;
pub use windows::Windows;
