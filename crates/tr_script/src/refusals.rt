//! The refusal of words that are those of no line.
use tr_grammar::{Code, LineRefused};

/// The words have no form: a fixed word is unknown, or their number is wrong.
pub const NO_FORM: LineRefused = LineRefused::Fault(Code::B1);
