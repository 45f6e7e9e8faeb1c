//! Parts of a script that are played one after another: the player's share of each, and the result of all of
//! them, for any makers of their steps.
#![tactic(auto)]

mod parts;

pub use parts::{begin_part, finish};
