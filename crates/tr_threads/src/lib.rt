//! Scripts that threads play: the text, and the stage at the end. If a session finds a stage that differs
//! from its passes, all is played again on one thread.
#![tactic(auto)]

mod lines;
mod plays;

pub use lines::again_lines;
pub use plays::{Threaded, threads};
