//! Work on rows of pixels, by lanes: fills, copies, exchanges, painting through a pattern of bits,
//! and comparisons. A row is a slice of bytes, one for each pixel.
#![tactic(auto)]

mod blocks;
mod differences;
mod lanes;
mod letters;
mod masks;
mod patterns;
mod rows;

pub use blocks::{Block, Lettering, letter_block};
pub use differences::{count_row, first_difference, last_difference};
pub use letters::{Letters, letter_row};
pub use masks::{Mask, mask_row};
pub use rows::{copy_row, copy_rows_within, exchange_row, fill_row};
