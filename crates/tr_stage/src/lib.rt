//! The stage: a tree of windows with their contents, the screen that shows them, and the input devices.
//! The machine's replay of the stage's journal over its opening gives the stage's state; the screen agrees
//! with that state.
#![tactic(auto)]

mod acts;
mod alters;
mod audits;
mod counts;
mod devices;
mod handing;
mod lines;
mod paints;
mod peeks;
mod reads;
mod settles;
mod shared;
mod sharing;
mod sketching;
mod stages;

pub use sharing::Painted;
pub use stages::{Stage, is_reservable};
pub use tr_journal::Peek3 as Peek;
