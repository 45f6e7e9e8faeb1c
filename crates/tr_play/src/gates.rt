use std::sync::Wait;
use tr_journal::Actor;

/// A worker calls the gate before steps of a client or of the desk, while it holds no lock. The gate may make
/// the worker wait, to choose one order of steps among the possible ones.
pub trait Gate {
    /// A call before an actor's k-th step of a part, counted from 1. An open gate may be called only before
    /// commands.
    fn turn<R: Wait>(&self, rt: &R, actor: Actor, k: u32);

    /// Whether it makes no worker wait before a step that isn't a command. Then it need not be called there,
    /// and a worker may make some of these steps, one after another, before it releases the tree's lock.
    fn is_open(&self) -> bool {
        false
    }
}

/// A gate that makes no worker wait.
#[derive(Clone, Copy, Drop)]
pub struct OpenGate;

impl Gate for OpenGate {
    fn turn<R: Wait>(&self, _rt: &R, _actor: Actor, _k: u32) {}

    fn is_open(&self) -> bool {
        true
    }
}
