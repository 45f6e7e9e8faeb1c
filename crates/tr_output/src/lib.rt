//! A text that is kept until it is written: bytes, and rows of pixels. A row shares the pixels of the row
//! above, of the eighth row above or of the same row of the last dump, if it equals one of these. It gets its
//! hex digits when it is written, by way of a buffer of fixed size.
#![tactic(auto)]

mod buffers;
mod errors;
mod kept;
mod lines;
mod outputs;
mod pieces;
mod sinks;

pub use errors::WriteRefused;
pub use outputs::Output;
pub use sinks::write_all;
