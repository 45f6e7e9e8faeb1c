//! A screen: pixels in rows. A row is read, or lent to be written.
#![tactic(auto)]

mod copies;
mod runs;
mod screens;

pub use runs::Run;
pub use screens::Screen;
