//! Paint commands, and batches of them. A client never touches the screen: it sends a batch, which is
//! executed later, clipped to the points that are visible then.
//!
//! All coordinates are relative to the north-west corner of the client's window.
#![tactic(auto)]

mod batches;
mod command_lists;
mod hulls;
mod paints;
mod pictures;
mod places;
mod sums;
mod views;

pub use batches::Batch;
pub use hulls::hull;
pub use paints::{NEAR, Paint};
pub use pictures::SharedPixmap;
pub use sums::{Scrolls, points_in};
pub use views::PaintView;
