//! A window with a row of bars, each eight columns wide and of a height that a command sets.
#![tactic(auto)]

mod bars;
mod meters;

pub use bars::BarNumber;
pub use meters::{Meter, MeterCmd};
