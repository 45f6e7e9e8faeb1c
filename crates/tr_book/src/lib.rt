//! The commands of a window's client that wait to be handed over.
#![tactic(auto)]

mod books;

pub use books::Book;
