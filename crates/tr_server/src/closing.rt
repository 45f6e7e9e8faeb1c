ghost use Rattle.std.specs.Prelude.{◌≡◌, ℕ, ◌+◌, ◌<◌, ◌≤◌, ◌↔◌, if◌then◌else◌, length, take, vec_len, sum_by, Some, IsTrue, IfSome, IfOk, IfErr, OnOk};
ghost use Rattle.tr_journal.specs.declared.Actor.{Actor};
ghost use Rattle.tr_journal.specs.Actors.{is_by};
ghost use Rattle.tr_journal.specs.Differences.{Matches, account_of};
ghost use Rattle.tr_journal.specs.Lists.{HasList, list_of, no_steps};
ghost use Rattle.tr_server.specs.Closing.{HasDiffered, IfDiffers, IsClosed, TakesLast, lists_of, made_by, made_with, steps_with};
ghost use Rattle.tr_server.specs.Differing.{IsDifference};

use crate::audits::{first_difference, first_entries};
use crate::passes::{Pass, Passes};
use crate::servers::{Server, spend_all};
use crate::sessions::Session;
use crate::tree_locks::Mu;
use crate::windows::Window;
use std::alloc::Global;
use std::marker::Model;
use std::sync::Wait;
use std::sync::ledger::Share;
use tr_base::{Command, NoMemory};
use tr_client::Client;
use tr_journal::{Actor, Difference, Journal, Lists, Opening, Step};
use tr_levels::Ladder;
use tr_stage::Stage;

/// The reason why `Server::close` returns no stage.
#[derive(Drop)]
pub enum CloseRefused<C: Client> {
    /// Out of memory; or the number of new entries isn't the number of the passes' steps, for which there is
    /// no `Difference`.
    NoMemory,
    /// The stage differs from the passes of the session.
    Differs(Differs<C>),
}

/// A stage that differs from the passes of its session, with all compared data and the first difference.
/// Only `Server::close` makes one.
#[derive(Drop)]
pub struct Differs<C: Client> {
    difference: Difference<C::Cmd>,
    stage: Stage<C>,
    opening: Opening<C>,
    kept: Journal<C::Cmd>,
    lists: Lists<C::Cmd>,
}

impl<C: Client> Model for Differs<C> {
    ghost use Rattle.tr_server.specs.Differing.{DiffersView, IsDifference};

    ghost Value = { DiffersView C C.Cmd };

    ghost view = { λ d. record {
      difference = d.difference;
      stage = d.stage;
      opening = d.opening;
      kept = d.kept.lines;
      lists = d.lists;
    } };

    ghost invariant = { λ d. IsDifference (record {
      difference = d.difference;
      stage = d.stage;
      opening = d.opening;
      kept = d.kept.lines;
      lists = d.lists;
    }) };
}

impl<C: Client> Differs<C> {
    /// The first difference.
    pub fn difference(&self) -> &Difference<C::Cmd>
        ensures value { result.now ≡ self.now.difference }
        ensures invariant { IsDifference self.now }
    {
        &self.difference
    }

    /// The stage, as it was at the end of the session.
    pub fn stage(&self) -> &Stage<C>
        ensures { result.now ≡ self.now.stage }
    {
        &self.stage
    }

    /// The opening with which the server began.
    pub fn opening(&self) -> &Opening<C>
        ensures { result.now ≡ self.now.opening }
    {
        &self.opening
    }

    /// The journal with which the server began.
    pub fn kept(&self) -> &Journal<C::Cmd>
        ensures { result.now.lines ≡ self.now.kept }
    {
        &self.kept
    }

    /// The steps of each pass.
    pub fn lists(&self) -> &Lists<C::Cmd>
        ensures { result.now ≡ self.now.lists }
    {
        &self.lists
    }
}

impl<C: Client, L: Session<C::Cmd>> Server<C, L> {
    /// Ends the session: hands over the commands that wait in each window, takes all passes back, and
    /// compares the stage with the opening with which the server began, and its new entries with the steps
    /// of each actor's pass, in whatever order the passes come. The entries with which the server began
    /// aren't compared: no step changes them. It consumes the server and the passes, whatever it returns.
    pub fn close<R: Wait>(self, rt: &R, passes: Passes<C, L>) -> Result<Stage<C>, CloseRefused<C>>
        requires { vec_len passes.workers ≡ L.leaves + 2 }
        ensures ok { let workers = passes.workers.items in
            let lists = lists_of L.leaves workers passes.player in
            IfOk result (λ s. IsClosed self lists (made_with workers passes.player) s) }

        // So the painter made as many steps as its pass has.
        ensures whole { let workers = passes.workers.items in
            IfOk result (λ s. length s.journal ≡ length self.kept + steps_with workers passes.player) }
        ensures differs { let workers = passes.workers.items in
            let lists = lists_of L.leaves workers passes.player in
            IfErr result (λ e. IfDiffers e (λ d.
            HasDiffered self lists (made_with workers passes.player) d)) }
    {
        let lists = self.hand_over_all(rt);
        let Server {
            alloc,
            locked,
            windows,
            opening,
            entries,
            is_taken: _,
        } = self;
        drop(windows);
        let Passes { workers, player } = passes;
        let who = player.actor();
        let (steps, mut all) = player.spend();
        let Ok(mut lists) = lists else {
            spend_all(workers);
            drop((locked, opening, steps, all));
            return Err(CloseRefused::NoMemory);
        };
        let due = due_with(Some(entries), steps.len());
        let due = gather(workers, &mut lists, &mut all, due);
        put_own(&mut lists, who, steps);
        let stage = locked.into_inner().end(all);
        compare(alloc, stage, (opening, entries), lists, due)
    }

    /// Hands over the waiting commands of each window, and makes lists for the passes' steps.
    fn hand_over_all<R: Wait>(&self, rt: &R) -> Result<Lists<C::Cmd>, NoMemory>
        ensures { IfOk result (λ lists. lists ≡ no_steps L.leaves) }
    {
        let mut mu = self.enter(rt, Ladder::ground());
        let handed = hand_over_each(rt, &mut mu, &self.windows);
        mu.leave().end();
        handed?;
        // (`opening` tells the prover the number of leaves)
        Lists::new(self.alloc, self.opening().tree().leaves())
    }
}

/// Hands over the waiting commands of these windows, one window after another.
fn hand_over_each<C: Client, L: Session<C::Cmd>, R: Wait>(
    rt: &R,
    mu: &mut Mu<'_, C, L>,
    windows: &[Window<C, L>],
) -> Result<(), NoMemory> {
    for window in windows {
        mu.hand_over(rt, window)?;
    }
    Ok(())
}

/// Takes passes back, the last one first: the steps of each become its actor's list, and its part of the
/// ledger joins the others. Returns how many entries are due, with these steps beside those that were due
/// before.
fn gather<C: Client, L: Session<C::Cmd>>(
    workers: Vec<Pass<C, L>>,
    lists: &mut Lists<C::Cmd>,
    all: &mut Share<L>,
    due: Option<usize>,
) -> Option<usize>
    requires { lists.old ≡ no_steps (length lists.old.leaves) }
    ensures count { length lists.new.leaves ≡ length lists.old.leaves }
    ensures lists { (actor : Actor) → HasList (length lists.old.leaves) actor →
        list_of lists.new actor ≡ made_by actor workers.items }
    ensures made { all.new.amount ≡ all.old.amount + sum_by (λ pass. pass.made) workers.items }
    ensures due { (n : ℕ) → IfSome due (λ d. d ≡ n) →
        IfSome result (λ d. d ≡ n + sum_by (λ pass. length pass.mine) workers.items) }
{
    let mut workers = workers;
    let mut all_due = due;
    let count = workers.len();
    for k in 0..count {
        let (actor, steps) = take_last(&mut workers, all);
        all_due = due_with(all_due, steps.len());
        put_own(lists, actor, steps);
    }
    workers.destroy_empty();
    all_due
}

/// The sum of the two numbers. `None` means a number that doesn't fit into a `usize`.
fn due_with(due: Option<usize>, more: usize) -> Option<usize>
    ensures { (n : ℕ) → IfSome due (λ d. d ≡ n) → IfSome result (λ d. d ≡ n + more) }
{
    match due {
        Some(due) => due.checked_add(more),
        None => None,
    }
}

/// Whether exactly `count` are due.
fn is_due(due: Option<usize>, count: usize) -> bool
    ensures { IsTrue result → due ≡ Some count }
{
    match due {
        Some(due) => due == count,
        None => false,
    }
}

/// Takes the last pass back: its actor, its steps, and its part of the ledger, which is joined to the others.
fn take_last<C: Client, L: Session<C::Cmd>>(
    workers: &mut Vec<Pass<C, L>>,
    all: &mut Share<L>,
) -> (Actor, Vec<Step<C::Cmd>>)
    requires { 0 < vec_len workers.old }
    ensures { TakesLast workers.old.items workers.new.items result.0 result.1.items
        all.old.amount all.new.amount }
{
    let pass = workers.pop().unwrap();
    let actor = pass.actor();
    let (steps, share) = pass.spend();
    all.merge(share);
    (actor, steps)
}

/// Replaces the steps of an actor by these, if the actor has a list.
fn put_own<M: Command>(lists: &mut Lists<M>, who: Actor, steps: Vec<Step<M>>)
    ensures count { length lists.new.leaves ≡ length lists.old.leaves }
    ensures lists { (actor : Actor) → HasList (length lists.old.leaves) actor →
        list_of lists.new actor ≡ (if is_by actor who then steps.items else list_of lists.old actor) }
{
    if has_list(lists.leaves(), who) {
        lists.put(who, steps);
    }
}

/// Whether an actor has a list, given the number of leaves.
fn has_list(leaves: u8, actor: Actor) -> bool
    ensures { IsTrue result ↔ HasList leaves actor }
{
    match actor {
        Actor::Leaf(leaf) => leaf.0 < leaves,
        Actor::Desk => true,
        Actor::Painter => false,
        Actor::Player => true,
    }
}

/// The stage, if it has the given opening and steps, and its journal has as many entries as are due. The
/// session began with the opening, and with this number of the stage's entries.
fn compare<C: Client>(
    alloc: Global,
    stage: Stage<C>,
    began: (Opening<C>, usize),
    lists: Lists<C::Cmd>,
    due: Option<usize>,
) -> Result<Stage<C>, CloseRefused<C>>
    requires { began.1 ≤ length stage.journal }
    ensures stage { IfOk result (λ s. s ≡ stage) }
    ensures due { OnOk result (due ≡ Some (length stage.journal)) }
    ensures matches { OnOk result (Matches (account_of began.0 (take began.1 stage.journal)) lists
        (account_of stage.opening stage.journal)) }
    ensures differs { IfErr result (λ e. IfDiffers e (λ d. (d.stage ≡ stage) × (d.opening ≡ began.0)
        × (d.kept ≡ take began.1 stage.journal) × (d.lists ≡ lists) × IsDifference d)) }
{
    let (opening, entries) = began;
    match first_difference(alloc, &stage, &opening, entries, &lists) {
        Ok(None) => {
            drop((opening, lists));
            if is_due(due, stage.journal().len()) {
                Ok(stage)
            } else {
                drop(stage);
                Err(CloseRefused::NoMemory)
            }
        }
        Ok(Some(difference)) => {
            let Ok(kept) = first_entries(alloc, stage.journal(), entries) else {
                drop((difference, stage, opening, lists));
                return Err(CloseRefused::NoMemory);
            };
            Err(CloseRefused::Differs(Differs {
                difference,
                stage,
                opening,
                kept,
                lists,
            }))
        }
        Err(_) => {
            drop((stage, opening, lists));
            Err(CloseRefused::NoMemory)
        }
    }
}
