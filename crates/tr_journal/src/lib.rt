//! Openings and journals. An opening has the items with which a run begins. A journal has the run's steps
//! in their order, each with its actor, the levels that the actor held, the reply and the deliveries. The
//! two determine the run.
#![tactic(auto)]

mod answers;
mod differences;
mod entries;
mod items;
mod journals;
mod lists;
mod names;
mod openings;
mod peeks;
mod ranges;
mod rights;
mod sameness;
mod steps;

pub use answers::{Answer, Reply};
pub use differences::{Apart, Difference};
pub use entries::{Attempt, Entry};
pub use items::Item;
pub use journals::{DELIVERIES, Journal};
pub use lists::Lists;
pub use names::NameOf;
pub use openings::Opening;
pub use peeks::Peek3;
pub use ranges::{are_levels, is_edit, is_step};
pub use rights::{covers, may, stated};
pub use steps::{Actor, Query, Step};
pub use tr_inbox::Delivery;
