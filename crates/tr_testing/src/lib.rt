//! Numbers that look random, for tests. Only crates of tests depend on this.
#![tactic(auto)]

mod numbers;

pub use numbers::Numbers;
