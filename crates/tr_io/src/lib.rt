//! Sources and sinks of bytes: a source is read in pieces, and a sink is written in pieces. Each of
//! them counts its faults, so that `Failed` is answered only after one.
#![tactic(auto)]

mod attempts;
mod plans;
mod sinks;
mod sources;
mod standard_input;
mod standard_output;
mod streams;

pub use sinks::{MemorySink, SteadySink};
pub use sources::{MemorySource, PieceSource, SteadySource};
pub use standard_input::StdSource;
pub use standard_output::StdSink;
pub use streams::{Failed, Sink, Source};
