//! Cages: the positions of the cursor that a window needn't be told.
#![tactic(auto)]

mod cages;

pub use cages::{Cage, holds};
