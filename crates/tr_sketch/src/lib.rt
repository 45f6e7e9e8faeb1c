//! The picture of a content over a part of its window, painted apart from any screen. Its owner may put the
//! pixels into the window on a screen, in place of paint commands with the same effect.
#![tactic(auto)]

mod sketches;

pub use sketches::{Sketch, fits_screen};
