//! Shape and places of the node of the window tree that packs its children in rows, or in columns,
//! one after another, as many in each as fit.
#![tactic(auto)]

mod packs;

pub use packs::{Rows, pack_place, pack_place_into, pack_shape};
