//! A stage on which threads make steps: it has the tree's lock, a lock for each window, which protects the
//! waiting commands of the window's client, and a pass for each actor, with which the actor makes its steps.
#![tactic(auto)]

mod audits;
mod baskets;
mod closing;
mod drawings;
mod locked;
mod passes;
mod repaints;
mod servers;
mod sessions;
mod shares;
mod spent;
mod tree_locks;
mod windows;

pub use closing::{CloseRefused, Differs};
pub use passes::{Pass, Passes};
pub use repaints::FEW_POINTS;
pub use servers::Server;
pub use sessions::Session;
pub use shares::Share;
pub use tree_locks::Mu;
pub use windows::Window;
