//! The parts of a screen that stay when windows change: points that are still good, and pixels that move.
#![tactic(auto)]

mod good;
mod moving;
mod shifting;

pub use good::still_good;
pub use moving::move_pixels;
pub use shifting::shifted;
