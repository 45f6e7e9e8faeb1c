//! A tree of windows on a screen: its nodes, the edits that change it, the lengths that each node
//! wants, and the domain that each node gets.
#![tactic(auto)]

mod domains;
mod layouts;
mod rooms;
mod trees;
mod wishes;

pub use tr_forest::{Edit, EditRefused, NodeFault, NodeKind};
pub use trees::Tree;
