use crate::counters::Counter;
use crate::gates::Gate;
use std::alloc::Global;
use tr_client::Client;
use tr_server::{Server, Session};

/// The shared data of all workers of a session.
#[derive(Drop)]
pub(crate) struct Context<'a, C: Client, L: Session<C::Cmd>, R, G: Gate> {
    pub(crate) rt: &'a R,
    pub(crate) alloc: Global,
    pub(crate) gate: &'a G,
    pub(crate) server: &'a Server<C, L>,
    pub(crate) made: &'a Counter,
}
