//! The meaning of the lines of a script so far: the names, the opening and the parts. A line is tested
//! against it before it is added.
#![tactic(auto)]

mod adding;
mod items;
mod names;
mod parts;
mod readers;
mod scripts;
mod tries;

pub use names::Names;
pub use parts::{Part, Steps};
pub use readers::Reader;
pub use scripts::Script;
