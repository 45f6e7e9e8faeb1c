ghost use Rattle.std.specs.Prelude.{◌≡◌, ◌<◌, [], false, OnOk};
ghost use Rattle.tr_base.specs.declared.LeafId.{LeafId};
ghost use Rattle.tr_base.specs.declared.Point.{Point};
ghost use Rattle.tr_forest.specs.Nodes.{leaf_count};
ghost use Rattle.tr_journal.specs.declared.Actor.TheVariants.{Painter};
ghost use Rattle.tr_journal.specs.Openings.{tree_of};
ghost use Rattle.tr_journal.specs.Steps.{AreAsMany};
ghost use Rattle.tr_machine.specs.States.{leaf_batch};
ghost use Rattle.tr_machine.specs.Pictures.{render};
ghost use Rattle.tr_stage.specs.Stages.{state};

use crate::contexts::Context;
use crate::gates::Gate;
use crate::threads::{PARTS_A_REPAINT, STEPS_A_REPAINT};
use std::sync::Wait;
use std::thread::Threads;
use tr_base::{LeafId, NoMemory};
use tr_client::Client;
use tr_journal::Step;
use tr_levels::Ladder;
use tr_server::{FEW_POINTS, Mu, Pass, Session};

/// While others work, a window is repainted if at least so many paint commands wait for it: its client may
/// flush few commands itself.
const MANY_WAITING: usize = 64;

impl<C: Client, L: Session<C::Cmd>, R: Threads + Wait + Sync, G: Gate> Context<'_, C, L, R, G> {
    /// The painter brings the screen up to date once 16 steps of the part are counted, or all if it has
    /// fewer; after that whenever a quarter of the part, and at least 16 steps, are counted since; and for
    /// the last time when all are counted. It stops before only if memory runs out.
    pub(crate) fn paint(&self, ladder: Ladder, pass: &mut Pass<C, L>, steps: usize) -> Ladder
        requires ladder { ladder ≡ [] }
        requires painter { pass.old.actor ≡ Painter }
        ensures ladder { result ≡ [] }
        ensures actor { pass.new.actor ≡ pass.old.actor }
    {
        let mut free = ladder;
        let all = steps as u64;
        let many = (all / PARTS_A_REPAINT).max(STEPS_A_REPAINT as u64);
        let mut next = all.min(STEPS_A_REPAINT as u64);
        for _repaint in 0..1 + steps / STEPS_A_REPAINT {
            self.made.wait_for(self.rt, next);
            let is_last = self.made.has(all);
            let (after, painted) = self.paint_part(free, pass, is_last);
            free = after;
            if painted.is_err() || is_last {
                return free;
            }
            next = all.min(self.made.count().saturating_add(many));
        }
        free
    }

    /// While others work, the painter brings one window after another up to date; the last time all windows
    /// at once, with the frames.
    fn paint_part(
        &self,
        ladder: Ladder,
        pass: &mut Pass<C, L>,
        is_last: bool,
    ) -> (Ladder, Result<(), NoMemory>)
        requires ladder { ladder ≡ [] }
        requires painter { pass.old.actor ≡ Painter }
        ensures ladder { result.0 ≡ [] }
        ensures actor { pass.new.actor ≡ pass.old.actor }
    {
        if is_last {
            self.paint_once(ladder, pass)
        } else {
            self.paint_windows(ladder, pass)
        }
    }

    /// The painter hands over the commands that wait in the windows, and then brings the screen up to
    /// date.
    fn paint_once(&self, ladder: Ladder, pass: &mut Pass<C, L>) -> (Ladder, Result<(), NoMemory>)
        requires ladder { ladder ≡ [] }
        requires painter { pass.old.actor ≡ Painter }
        ensures ladder { result.0 ≡ [] }
        ensures actor { pass.new.actor ≡ pass.old.actor }
    {
        let mut mu = self.server.enter(self.rt, ladder);
        let painted = self.paint_under(&mut mu, pass);
        (mu.leave(), painted)
    }

    /// The painter brings one window after another up to date, and releases the tree's lock after each.
    fn paint_windows(&self, ladder: Ladder, pass: &mut Pass<C, L>) -> (Ladder, Result<(), NoMemory>)
        requires ladder { ladder ≡ [] }
        requires painter { pass.old.actor ≡ Painter }
        ensures ladder { result.0 ≡ [] }
        ensures actor { pass.new.actor ≡ pass.old.actor }
    {
        let mut free = ladder;
        for n in 0..self.server.opening().tree().leaves() {
            let mut mu = self.server.enter(self.rt, free);
            let painted = self.paint_window(&mut mu, LeafId(n), pass, MANY_WAITING);
            free = mu.leave();
            let Ok(()) = painted else {
                return (free, Err(NoMemory));
            };
        }
        (free, Ok(()))
    }

    /// Hands over the commands that wait in a window, and repaints it, if at least so many paint commands
    /// wait for it.
    fn paint_window(
        &self,
        mu: &mut Mu<'_, C, L>,
        leaf: LeafId,
        pass: &mut Pass<C, L>,
        least: usize,
    ) -> Result<(), NoMemory>
        requires leaf { leaf.0 < leaf_count (tree_of self.now.server.now.opening).nodes }
        requires opening { let own = (tree_of self.now.server.now.opening).nodes in
            AreAsMany own (tree_of mu.old.opening).nodes }
        requires painter { pass.old.actor ≡ Painter }
        ensures opening { mu.new.opening ≡ mu.old.opening }
        ensures actor { pass.new.actor ≡ pass.old.actor }
    {
        mu.hand_over(self.rt, self.server.window(leaf))?;
        if mu.stage().batch(leaf).len() >= least {
            mu.step(pass, Step::Repaint { leaf })?;
        }
        Ok(())
    }

    /// The painter hands over the commands that wait in all windows, and brings the screen up to date, under
    /// the tree's lock.
    fn paint_under(&self, mu: &mut Mu<'_, C, L>, pass: &mut Pass<C, L>) -> Result<(), NoMemory>
        requires opening { let own = (tree_of self.now.server.now.opening).nodes in
            AreAsMany own (tree_of mu.old.opening).nodes }
        requires painter { pass.old.actor ≡ Painter }
        ensures actor { pass.new.actor ≡ pass.old.actor }

        // Then no command handed over waits, no point is bad, and the screen is as if painted
        // from nothing.
        ensures idle { let m = state C.Client mu.new in
            OnOk result ((leaf : LeafId) → leaf_batch C.Client m leaf ≡ []) }
        ensures good { let m = state C.Client mu.new in OnOk result ((p : Point) → m.bad p ≡ false) }
        ensures screen { OnOk result (mu.new.screen ≡ render C.Client (state C.Client mu.new)) }
    {
        self.paint_all(mu, pass)?;
        mu.repaint_shared(self.rt, pass)
    }

    /// Hands over the commands that wait in each window, and repaints those for which paint commands wait,
    /// so that `repaint_shared` doesn't flush them: a flush executes each scroll that waits, and a repaint
    /// paints the window once. If few commands wait and many points are bad, a window is left to
    /// `repaint_shared`, which paints it beside others.
    fn paint_all(&self, mu: &mut Mu<'_, C, L>, pass: &mut Pass<C, L>) -> Result<(), NoMemory>
        requires opening { let own = (tree_of self.now.server.now.opening).nodes in
            AreAsMany own (tree_of mu.old.opening).nodes }
        requires painter { pass.old.actor ≡ Painter }
        ensures { pass.new.actor ≡ pass.old.actor }
    {
        let least = least_waiting(mu.stage().bad_count());
        for n in 0..self.server.opening().tree().leaves() {
            self.paint_window(mu, LeafId(n), pass, least)?;
        }
        Ok(())
    }
}

/// The number of paint commands for which a window is repainted, by the number of bad points.
fn least_waiting(bad: u32) -> usize {
    if bad <= FEW_POINTS { 1 } else { MANY_WAITING }
}
