//! Executes batches of paint commands on a screen, within the points of a window that are visible.
#![tactic(auto)]

mod brushes;
mod effects;
mod execs;
mod paintings;
mod plans;
mod sites;
mod strokes;
mod texts;
mod tints;
mod walks;

pub use execs::{execute, execute_known};
pub use walks::{Brush, paint_within};
