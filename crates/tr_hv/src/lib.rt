//! Shapes and places of the nodes of the window tree whose children lie side by side: an H, from
//! west to east, and a V, from north to south.
#![tactic(auto)]

mod places;

pub use places::{place, place_into, shape};
