//! An audit: whether a journal has the entries that were kept of it, and after them each actor's steps,
//! as a separate record has them.
#![tactic(auto)]

mod audits;
mod progress;

pub use audits::{first_apart, own_difference};
