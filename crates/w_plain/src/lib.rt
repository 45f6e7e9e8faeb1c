//! The plain widgets: a window of one colour, one of a tile that is repeated in all directions, and
//! one with a line of text. Each paints a part of its picture over any old pixels, so the patch of a
//! command paints the whole window anew.
#![tactic(auto)]

mod boards;
mod labels;
mod shifts;
mod solids;

pub use boards::{Board, BoardCmd};
pub use labels::{Label, LabelCmd};
pub use shifts::Shift;
pub use solids::{Solid, SolidCmd};
