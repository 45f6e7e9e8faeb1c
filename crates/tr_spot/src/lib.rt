//! The owner of each point of the screen, and the points that each window shows.
//!
//! A walk from the root finds the owner: at each node it continues at the first child whose domain
//! has the point, and it ends if no child has it. So the children that come first lie in front, and a
//! child that reaches past its parent shows nothing there.
#![tactic(auto)]

mod leaves;
mod owners;
mod spots;
mod windows;

pub use leaves::{in_leaf, leaf_corner, leaf_size};
pub use owners::levels_suffice;
pub use spots::{from_corner, size_of, spot_at};
pub use tr_base::Spot;
pub use windows::{frame, own_points, reached, visible};
