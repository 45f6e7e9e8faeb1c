//! The words of scripts: a text is cut into lines and a line into words, and a reader of a single value
//! returns the value or the code of its fault.
#![tactic(auto)]

mod lanes;
mod texts;
mod values;
mod words;

pub use texts::{at_space, first_line, is_silent, plain_text, rest_after, words_into};
pub use values::{
    byte, edge, extent, first_number, glyph_byte, name, number, offset, only_number, place, rows,
    shape, shift, short, side, signed, small, text, time,
};
pub use words::{LeafWords, ShapeWords};
