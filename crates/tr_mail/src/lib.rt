//! The waiting events of each window, and the receivers of each event: the input devices together with
//! all inboxes.
#![tactic(auto)]

mod deliveries;
mod mails;
mod outboxes;
mod positions;

pub use mails::Mail;
pub use outboxes::Outbox;
pub use positions::is_reshaped;
