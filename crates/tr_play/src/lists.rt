ghost use Rattle.std.specs.Prelude.{◌≡◌, ◌<◌, ◌↔◌, Some, IfOk, drop, length, slice_get, take};
ghost use Rattle.tr_journal.specs.Lists.{HasList, list_of};
ghost use Rattle.tr_play.specs.Lists.{AreListed, HaveLists};
ghost use Rattle.tr_play.specs.Places.{are_below, steps_at};
ghost use Rattle.tr_play.specs.Workers as spec;
ghost use Rattle.tr_play.specs.Workers.{AreNoCommands};

use crate::places::Places;
use std::alloc::Global;
use std::marker::Model;
use tr_base::{Command, NoMemory};
use tr_journal::{Actor, Step};

/// The most steps that a part may have, so that each place fits into 32 bits. A script has far fewer.
const MOST_STEPS: usize = u32::MAX as usize;

/// The steps of a part, and the places of each actor's steps among them. The model is the lists of the
/// actors' steps.
#[derive(Drop)]
pub(crate) struct PartLists<'a, M: Command> {
    steps: &'a [(Actor, Step<M>)],
    places: Places,
}

impl<'a, M: Command> Model for PartLists<'a, M> {
    ghost use Rattle.std.specs.Prelude.{length};
    ghost use Rattle.tr_journal.specs.Lists.{ListsView};
    ghost use Rattle.tr_play.specs.Places.{AreWithin, lists_at};

    ghost Value = { ListsView M };

    ghost view = { λ t. lists_at t.steps.now t.places };

    ghost invariant = { λ t. AreWithin (length t.steps.now) t.places };
}

impl<'a, M: Command> PartLists<'a, M> {
    /// The number of an actor's steps.
    pub(crate) fn count(&self, actor: Actor) -> usize {
        self.places.count(actor)
    }

    /// The number of actors with steps.
    pub(crate) fn busy_actors(&self) -> usize {
        self.places.busy_actors()
    }

    /// The steps of an actor.
    pub(crate) fn of(&self, actor: Actor) -> List<'_, M>
        requires { HasList (length self.now.leaves) actor }
        ensures { result ≡ list_of self.now actor }
    {
        List {
            steps: self.steps,
            places: self.places.of(actor),
        }
    }
}

/// The steps of one actor among those of a part, in their order.
#[derive(Drop)]
pub(crate) struct List<'a, M: Command> {
    steps: &'a [(Actor, Step<M>)],
    places: &'a [u32],
}

impl<'a, M: Command> Model for List<'a, M> {
    ghost use Rattle.std.specs.Prelude.{List, length};
    ghost use Rattle.tr_journal.specs.declared.steps.Step.{Step};
    ghost use Rattle.tr_play.specs.Places.{are_below, steps_at};

    ghost Value = { List (Step M) };

    ghost view = { λ l. steps_at l.steps.now l.places.now };

    ghost invariant = { λ l. are_below (length l.steps.now) l.places.now };
}

impl<'a, M: Command> List<'a, M> {
    /// The number of steps.
    pub(crate) fn len(&self) -> usize
        ensures { result ≡ length self.now }
    {
        self.places.len()
    }

    /// At most `count` of them, from the k-th on, counted from 0.
    pub(crate) fn slice(&self, k: usize, count: usize) -> List<'a, M>
        requires { k < length self.now }
        ensures { result ≡ take count (drop k self.now) }
    {
        let rest = &self.places[k..];
        List {
            steps: self.steps,
            places: &rest[..count.min(rest.len())],
        }
    }

    /// The number of commands among them.
    pub(crate) fn commands(&self) -> u64
        ensures { (result ≡ 0) ↔ AreNoCommands self.now }
    {
        let mut commands: u64 = 0;
        for k in 0..self.len() {
            if is_command(self.step(k)) {
                commands = commands.saturating_add(1);
            }
        }
        commands
    }

    /// The k-th of them, counted from 0.
    pub(crate) fn step(&self, k: usize) -> &'a Step<M>
        requires { k < length self.now }
        ensures { slice_get self.now k ≡ Some result.now }
    {
        step_among(self.steps, self.places, k)
    }
}

/// Whether a step is a command of a client.
fn is_command<M: Command>(step: &Step<M>) -> bool
    ensures { result ≡ spec.is_command step.now }
{
    matches!(step, Step::Act { .. })
}

/// The step at the k-th of these places among many. It is a function of its own since the prover knows of a
/// parameter, but not of a field, that a slice fits into memory.
fn step_among<'a, M: Command>(
    steps: &'a [(Actor, Step<M>)],
    places: &[u32],
    k: usize,
) -> &'a Step<M>
    requires within { are_below (length steps.now) places.now }
    requires some { k < length places.now }
    ensures { slice_get (steps_at steps.now places.now) k ≡ Some result.now }
{
    &steps[places[k] as usize].1
}

/// The steps of each actor among these, in their order. More than `MOST_STEPS` steps are refused as if
/// memory had run out.
pub(crate) fn lists_of<'a, M: Command>(
    alloc: Global,
    steps: &'a [(Actor, Step<M>)],
    leaves: u8,
) -> Result<PartLists<'a, M>, NoMemory>
    requires { HaveLists leaves steps.now }
    ensures { IfOk result (λ lists. AreListed leaves steps.now lists) }
{
    if steps.len() > MOST_STEPS {
        return Err(NoMemory);
    }
    let mut places = Places::new(alloc, leaves)?;
    for place in 0..steps.len() {
        places.add(steps[place].0, place as u32)?;
    }
    Ok(PartLists { steps, places })
}
