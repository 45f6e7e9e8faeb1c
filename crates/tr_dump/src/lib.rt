//! The texts of reports: the screen, the counts of a peek, the journal, the owner of a point, the events in
//! an inbox, and the difference of a stage from the given entries and steps. Each call appends its text
//! to `out`, or nothing for want of memory.
#![tactic(auto)]

mod answers;
mod differs;
mod dumps;
mod edits;
mod entries;
mod journals;
mod names;
mod peeks;
mod places;
mod steps;
mod values;
mod words;

pub use differs::differs_line;
pub use dumps::dump;
pub use journals::{journal, outcome};
pub use peeks::peek_line;
pub use places::{inbox, place_line};
pub use tr_journal::Peek3;
