//! A stream of updates to a screen: its writer, and a reader that has the screen at each cut.
#![tactic(auto)]

mod begun;
mod changes;
mod faults;
mod headers;
mod laws;
mod mirrors;
mod pixels;
mod readers;
mod replicas;
mod updates;
mod writers;

pub use changes::{Bounds, Change};
pub use faults::{MirrorFault, StreamFault};
pub use laws::{faults_are_the_tables, shows_what_was_written, streams_are_groups};
pub use mirrors::{LONGEST_STREAM, Mirror};
pub use pixels::Pixels;
pub use replicas::MOST_GROUPS;
pub use updates::{has_its_pixels, update};
pub use writers::Writer;
