ghost use Rattle.std.specs.Prelude.{◌≡◌, ◌<◌, ◌∷◌, [], ◌++◌, length, get_or, set, replicate, IfOk, OnOk, OnErr};
ghost use Rattle.tr_journal.specs.Lists.{HasList, list_of, no_steps, with_list, with_step};

use crate::steps::{Actor, Step};
use std::alloc::Global;
use std::marker::Model;
use tr_base::{LeafId, NoMemory};

/// The steps of each leaf's client, of the desk and of the player, each list in the order in which
/// the steps were made. The painter has no list.
#[derive(Debug, Drop)]
pub struct Lists<M: Drop> {
    leaves: Vec<List<M>>,
    desk: List<M>,
    player: List<M>,
}

impl<M: Drop> Model for Lists<M> {
    ghost use Rattle.std.specs.Prelude.{◌≤◌, length};
    ghost use Rattle.tr_journal.specs.Lists.{ListsView};

    ghost Value = { ListsView M };

    ghost view = { λ l. record { leaves = l.leaves.items; desk = l.desk; player = l.player } };

    ghost invariant = { λ l. length l.leaves.items ≤ 255 };
}

impl<M: Drop> Lists<M> {
    /// Empty lists, for this many leaves.
    pub fn new(alloc: Global, leaves: u8) -> Result<Lists<M>, NoMemory>
        ensures { IfOk result (λ lists. lists ≡ no_steps leaves) }
    {
        Ok(Lists {
            leaves: empty_lists(alloc, leaves)?,
            desk: List::new(alloc),
            player: List::new(alloc),
        })
    }

    /// Appends a step to its actor's list. If memory runs out, nothing changes.
    pub fn add(&mut self, actor: Actor, step: Step<M>) -> Result<(), NoMemory>
        requires { HasList (length self.old.leaves) actor }
        ensures ok { OnOk result (self.new ≡ with_step self.old actor step) }
        ensures err { OnErr result (self.new ≡ self.old) }
    {
        match actor {
            Actor::Leaf(leaf) => add_at(&mut self.leaves, leaf, step),
            Actor::Desk => self.desk.add(step),
            Actor::Player => self.player.add(step),
            Actor::Painter => unreachable!(),
        }
    }

    /// Replaces the steps of an actor by these. Nothing is allocated.
    pub fn put(&mut self, actor: Actor, steps: Vec<Step<M>>)
        requires { HasList (length self.old.leaves) actor }
        ensures { self.new ≡ with_list self.old actor steps.items }
    {
        let list = List { steps };
        match actor {
            Actor::Leaf(leaf) => self.leaves[usize::from(leaf.0)] = list,
            Actor::Desk => self.desk = list,
            Actor::Player => self.player = list,
            Actor::Painter => unreachable!(),
        }
    }

    /// The steps of an actor.
    pub fn of(&self, actor: Actor) -> &[Step<M>]
        requires { HasList (length self.now.leaves) actor }
        ensures { result.now ≡ list_of self.now actor }
    {
        match actor {
            Actor::Leaf(leaf) => self.leaves[usize::from(leaf.0)].steps(),
            Actor::Desk => self.desk.steps(),
            Actor::Player => self.player.steps(),
            Actor::Painter => unreachable!(),
        }
    }

    /// The number of leaves with a list: the leaves with lower numbers.
    pub fn leaves(&self) -> u8
        ensures { result ≡ length self.now.leaves }
    {
        self.leaves.len() as u8
    }
}

/// The steps of one actor.
#[derive(Debug, Drop)]
struct List<M: Drop> {
    steps: Vec<Step<M>>,
}

impl<M: Drop> Model for List<M> {
    ghost use Rattle.std.specs.Prelude.{List};
    ghost use Rattle.tr_journal.specs.declared.steps.Step.{Step};

    ghost Value = { List (Step M) };

    ghost view = { λ l. l.steps.items };
}

impl<M: Drop> List<M> {
    /// No step.
    fn new(alloc: Global) -> List<M>
        ensures { result ≡ [] }
    {
        List {
            steps: Vec::new(alloc),
        }
    }

    /// Adds a step after the others.
    fn add(&mut self, step: Step<M>) -> Result<(), NoMemory>
        ensures ok { OnOk result (self.new ≡ self.old ++ step ∷ []) }
        ensures err { OnErr result (self.new ≡ self.old) }
    {
        Ok(self.steps.push(step)?)
    }

    /// All steps.
    fn steps(&self) -> &[Step<M>]
        ensures { result.now ≡ self.now }
    {
        &self.steps
    }
}

/// This many lists without a step.
fn empty_lists<M: Drop>(alloc: Global, count: u8) -> Result<Vec<List<M>>, NoMemory>
    ensures { IfOk result (λ lists. lists.items ≡ replicate count []) }
{
    let mut lists = Vec::with_capacity(alloc, usize::from(count))?;
    for _leaf in 0..count {
        lists.push(List::new(alloc))?;
    }
    Ok(lists)
}

/// Adds a step after the others of a leaf's client.
fn add_at<M: Drop>(lists: &mut Vec<List<M>>, leaf: LeafId, step: Step<M>) -> Result<(), NoMemory>
    requires { leaf.0 < length lists.old.items }
    ensures ok { OnOk result (lists.new.items ≡
        set lists.old.items leaf.0 (get_or lists.old.items leaf.0 [] ++ step ∷ [])) }
    ensures err { OnErr result (lists.new.items ≡ lists.old.items) }
{
    let list = &mut lists[usize::from(leaf.0)];
    list.add(step)?;
    Ok(())
}
