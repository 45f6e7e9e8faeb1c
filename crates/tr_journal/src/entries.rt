ghost use Rattle.std.specs.Prelude.{◌≡◌, ◌↔◌, IsTrue, IfOk};

use crate::answers::Reply;
use crate::steps::{Actor, Step};
use std::alloc::Global;
use tr_base::{Command, NoMemory};
use tr_levels::Held;

/// A step that an actor is to make, with the levels that the actor holds.
#[derive(Drop)]
pub struct Attempt<M> {
    pub actor: Actor,
    pub level: Held,
    pub step: Step<M>,
}

/// A step that was made, with its actor, the levels that the actor held, and the reply.
#[derive(Debug, Drop)]
pub struct Entry<M> {
    pub actor: Actor,
    pub level: Held,
    pub step: Step<M>,
    pub reply: Reply,
}

impl<M: Command> Entry<M> {
    /// A copy of the entry.
    pub fn copy(&self, alloc: Global) -> Result<Entry<M>, NoMemory>
        ensures { IfOk result (λ entry. entry ≡ self.now) }
    {
        Ok(Entry {
            actor: self.actor,
            level: self.level,
            step: self.step.copy(alloc)?,
            reply: self.reply.copy()?,
        })
    }

    /// Whether both are the same entry.
    pub fn same(&self, other: &Entry<M>) -> bool
        ensures { IsTrue result ↔ (self.now ≡ other.now) }
    {
        self.actor == other.actor
            && self.level.same(&other.level)
            && self.step.same(&other.step)
            && self.reply.same(&other.reply)
    }
}
