//! A window with figures. Commands draw them one over the other, and remove them again, the last one
//! first.
#![tactic(auto)]

mod areas;
mod canvases;
mod commands;

pub use areas::Area;
pub use canvases::{Canvas, FIGURES, Figure};
pub use commands::CanvasCmd;
