//! Scripts on one thread: their texts, and the stage at their end.
#![tactic(auto)]

mod drawn;
mod mirrors;
mod plays;
mod streams;
mod values;

pub use drawn::summary;
pub use mirrors::mirror;
pub use plays::{Played, check, serial};
