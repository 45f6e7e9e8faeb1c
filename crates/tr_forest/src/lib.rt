//! The nodes of a tree of windows: the kind of each of them, its parent and its children, and the edits
//! that change these, with the reasons for refusals. The layers above place the windows.
#![tactic(auto)]

mod changes;
mod edits;
mod entries;
mod families;
mod forests;
mod kinds;
mod refusals;
mod walks;

pub use edits::{Edit, EditRefused, NodeFault};
pub use forests::Forest;
pub use kinds::NodeKind;
