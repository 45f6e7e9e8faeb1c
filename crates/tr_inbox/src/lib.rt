//! Inboxes: the events that wait for a window until its client takes them, and the events that a step
//! sent.
#![tactic(auto)]

mod deliveries;
mod inboxes;

pub use deliveries::Delivery;
pub use inboxes::{CAPACITY, Dropped, Empty, Inbox};
