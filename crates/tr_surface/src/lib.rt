//! The screen on which a tree of windows is shown: the tree, the pixels, and the good points of each node.
//! All other points are bad and must be painted again.
#![tactic(auto)]

mod alters;
mod bads;
mod covers;
mod executes;
mod fills;
mod formers;
mod frames;
mod goods;
mod keepers;
mod puts;
mod surfaces;
mod survivors;
mod tree_changes;

pub use keepers::Keeper;
pub use puts::pixels_at;
pub use surfaces::Surface;
