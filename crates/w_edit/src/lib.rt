//! A window with a text that is edited line by line: commands insert bytes at its caret, erase them,
//! break lines and join them, and move the caret. A part of the caret's line can be copied, and
//! inserted elsewhere.
#![tactic(auto)]

mod changes;
mod clients;
mod commands;
mod editors;
mod edits;
mod patches;
mod places;
mod rows;
mod views;

pub use commands::EditorCmd;
pub use editors::Editor;
pub use rows::{ColumnNumber, RowNumber};
