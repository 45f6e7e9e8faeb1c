//! Parts of a script that threads play. Each leaf's client and the desk work side by side, if they have
//! steps in the part, on about as many threads as there are processors. The painter has a thread if the
//! part is long: it brings the screen up to date meanwhile.
#![tactic(auto)]

mod contexts;
mod counters;
mod gates;
mod lanes;
mod lists;
mod orders;
mod painters;
mod places;
mod plays;
mod sessions;
mod steps;
mod threads;

pub use gates::{Gate, OpenGate};
pub use plays::play;
pub use threads::Workers;
