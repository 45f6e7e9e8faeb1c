ghost use Rattle.std.specs.Prelude.{◌≡◌, [], ◌∷◌, ◌++◌, length, OnOk, OnErr};

use std::alloc::Global;
use std::marker::Model;
use tr_base::NoMemory;
use tr_journal::{Actor, Query, Step};
use tr_widget::WidgetCmd;

/// A part of a script, from `begin` or a sync to the next sync or the end. Its reports come before its
/// steps.
#[derive(Drop)]
pub struct Part {
    pub reports: Vec<Query>,
    pub steps: Vec<(Actor, Step<WidgetCmd>)>,
}

impl Model for Part {
    ghost use Rattle.tr_journal.specs.Parts.{Part as Seen};
    ghost use Rattle.tr_widget.specs.declared.WidgetCmd.{WidgetCmd};

    ghost Value = { Seen WidgetCmd };

    ghost view = { λ p. record { reports = p.reports.items; steps = p.steps.items } };
}

/// Steps of a part, each with its actor. The type of commands is a parameter for the prover, which has no
/// rule for a `&mut` to a `Vec` of steps with this many sorts of commands.
#[derive(Drop)]
pub struct Steps<M> {
    steps: Vec<(Actor, Step<M>)>,
}

impl<M> Model for Steps<M> {
    ghost use Rattle.std.specs.Prelude.{List};
    ghost use Rattle.tr_journal.specs.declared.Actor.{Actor};
    ghost use Rattle.tr_journal.specs.declared.Step.{Step};

    ghost Value = { List (Actor × Step M) };

    ghost view = { λ s. s.steps.items };
}

impl<M: Drop> Steps<M> {
    /// An empty list of steps.
    pub fn new(alloc: Global) -> Steps<M>
        ensures { result ≡ [] }
    {
        Steps {
            steps: Vec::new(alloc),
        }
    }

    /// The number of steps.
    pub fn len(&self) -> usize
        ensures { result ≡ length self.now }
    {
        self.steps.len()
    }

    /// Makes room for this many more steps.
    pub fn reserve(&mut self, more: usize) -> Result<(), NoMemory>
        ensures { self.new ≡ self.old }
    {
        self.steps.reserve(more)?;
        Ok(())
    }

    /// Appends other steps to these.
    pub fn append(&mut self, other: Steps<M>) -> Result<(), NoMemory>
        ensures ok { OnOk result (self.new ≡ self.old ++ other) }
        ensures err { OnErr result (self.new ≡ self.old) }
    {
        let mut steps = other.steps;
        self.steps.append(&mut steps)?;
        Ok(())
    }

    /// Adds a step with its actor.
    pub fn push(&mut self, actor: Actor, step: Step<M>) -> Result<(), NoMemory>
        ensures ok { OnOk result (self.new ≡ self.old ++ (actor, step) ∷ []) }
        ensures err { OnErr result (self.new ≡ self.old) }
    {
        push(&mut self.steps, (actor, step))
    }

    /// The steps.
    pub(crate) fn into_vec(self) -> Vec<(Actor, Step<M>)>
        ensures { result.items ≡ self }
    {
        self.steps
    }
}

/// Appends an element.
pub(crate) fn push<T: Drop>(items: &mut Vec<T>, item: T) -> Result<(), NoMemory>
    ensures ok { OnOk result (items.new.items ≡ items.old.items ++ item ∷ []) }
    ensures err { OnErr result (items.new.items ≡ items.old.items) }
{
    items.push(item)?;
    Ok(())
}
