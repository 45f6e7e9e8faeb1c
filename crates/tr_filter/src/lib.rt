//! Shapes and places of the nodes of the window tree that have one child: a border, a rigid node,
//! whose child has its whole rectangle, and a node that moves its child.
#![tactic(auto)]

mod filters;

pub use filters::{border_place, border_shape, rigid_shape, translate_place, translate_shape};
