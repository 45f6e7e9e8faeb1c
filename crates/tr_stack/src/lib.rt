//! Shapes and places of the nodes of the window tree whose children don't lie side by side: a Z, whose
//! children lie over one another, a T, which shows one of them, and a Page, which shows a fixed number
//! of them at a time in strips of one height.
#![tactic(auto)]

mod stacks;

pub use stacks::{max_shape, page_child, page_place, page_shape, t_child, t_place, z_place};
