ghost use Rattle.std.specs.Prelude.{◌≡◌, ◌<◌, ◌∷◌, [], false, All, IfOk, OnOk, OnErr};
ghost use Rattle.tr_base.specs.declared.LeafId.{LeafId};
ghost use Rattle.tr_base.specs.declared.Point.{Point};
ghost use Rattle.tr_forest.specs.Nodes.{leaf_count};
ghost use Rattle.tr_levels.specs.declared.Level.TheVariants.{Mu};
ghost use Rattle.tr_levels.specs.declared.Level.TheVariants.{Share as ShareLevel};
ghost use Rattle.tr_journal.specs.declared.Actor.TheVariants.{Painter};
ghost use Rattle.tr_journal.specs.Openings.{tree_of};
ghost use Rattle.tr_machine.specs.States.{leaf_batch};
ghost use Rattle.tr_machine.specs.Pictures.{render};
ghost use Rattle.tr_machine.specs.Replays.{under};
ghost use Rattle.tr_machine.specs.SettleSteps.{frame_steps};
ghost use Rattle.tr_machine.specs.SharedRepaints.{IsPaintedOf, all_bad_leaves, at_shares, flushing, sharing};
ghost use Rattle.tr_stage.specs.Making.{MakesWithoutReply};
ghost use Rattle.tr_stage.specs.Sharing.{ArePainted};
ghost use Rattle.tr_stage.specs.Stages.{IsPainters, KeepsOthers, state};
ghost use Rattle.tr_server.specs.Passes.{CountsStep};
ghost use Rattle.tr_server.specs.Shares as spec;
ghost use Rattle.tr_server.specs.Shares.{HasMade, HasBegun};

use crate::locked::Locked;
use crate::passes::Pass;
use crate::sessions::Session;
use crate::shares::{Share, paint_each, shares_of};
use std::thread::Threads;
use tr_base::NoMemory;
use tr_client::Client;
use tr_journal::Step;
use tr_levels::{Held, Level};
use tr_stage::Painted;

/// Up to this number of bad points, one thread paints faster than several, which must be started first. If
/// no more points are bad, `Mu::repaint_shared` paints all windows in turn, on one thread.
pub const FEW_POINTS: u32 = 1 << 18;

impl<C: Client, L: Session<C::Cmd>> Locked<C, L> {
    /// The shares that may be painted.
    pub(crate) fn shares(&self) -> Result<Vec<Share<'_, C>>, NoMemory>
        ensures { IfOk result (λ shares. shares.items ≡ spec.shares_of C.Client self.now) }
    {
        shares_of(self.alloc, &self.stage)
    }

    /// Puts a leaf's painted bad points onto the screen: the painter's repaint, at the leaf's share alone. If
    /// memory runs out, no step is made.
    pub(crate) fn put_painted(
        &mut self,
        pass: &mut Pass<C, L>,
        painted: Painted,
    ) -> Result<(), NoMemory>
        requires painter { pass.old.actor ≡ Painter }
        requires leaf { painted.leaf.0 < leaf_count (tree_of self.old.opening).nodes }
        requires idle { leaf_batch C.Client (state C.Client self.old) painted.leaf ≡ [] }
        requires painted { let m = state C.Client self.old in
            IsPaintedOf C.Client m painted.leaf painted.part painted.pixels.items }
        ensures made { MakesWithoutReply C.Client self.old self.new Painter (ShareLevel painted.leaf ∷ [])
            (Step.Repaint painted.leaf) result }
        ensures pass { CountsStep pass.old pass.new (Step.Repaint painted.leaf) result }
        ensures others { let t = (state C.Client self.old).tree in
            OnOk result (KeepsOthers {M = C.Cmd} t (Step.Repaint painted.leaf)
            self.old.screen self.new.screen) }
    {
        let leaf = painted.leaf;
        if let Err(refused) = pass.mine.push(Step::Repaint { leaf }) {
            drop((refused, painted));
            return Err(NoMemory);
        }
        match self.stage.put_painted(painted) {
            Ok(()) => {
                self.counted.add(&mut pass.share, 1);
                Ok(())
            }
            Err(e) => {
                drop(pass.mine.pop());
                Err(e)
            }
        }
    }

    /// Makes steps of the painter, one after another, under the tree's lock. If memory runs out, the steps
    /// made so far remain.
    fn make_all(&mut self, pass: &mut Pass<C, L>, steps: Vec<Step<C::Cmd>>) -> Result<(), NoMemory>
        requires painter { pass.old.actor ≡ Painter }
        requires steps { All (IsPainters (tree_of self.old.opening).nodes) steps.items }
        ensures ok { OnOk result (HasMade C.Client self.old self.new pass.old pass.new
            (under (Mu ∷ []) steps.items)) }
        ensures err { OnErr result (HasBegun C.Client self.old self.new pass.old pass.new
            (under (Mu ∷ []) steps.items)) }
    {
        let level = Held::none().with(Level::Mu);
        for step in steps {
            self.step(pass, level, step)?;
        }
        Ok(())
    }

    /// Puts the bad points of leaves onto the screen, leaf by leaf. If memory runs out, the steps made so far
    /// remain.
    fn put_all(&mut self, pass: &mut Pass<C, L>, all: Vec<Painted>) -> Result<(), NoMemory>
        requires painter { pass.old.actor ≡ Painter }
        requires idle { let m = state C.Client self.old in
            (leaf : LeafId) → leaf_batch C.Client m leaf ≡ [] }
        requires all { let m = state C.Client self.old in
            ArePainted C.Client m (all_bad_leaves m) all.items }
        ensures ok { OnOk result (HasMade C.Client self.old self.new pass.old pass.new
            (at_shares (all_bad_leaves (state C.Client self.old)))) }
        ensures err { OnErr result (HasBegun C.Client self.old self.new pass.old pass.new
            (at_shares (all_bad_leaves (state C.Client self.old)))) }
    {
        self.invariant();
        for painted in all {
            self.put_painted(pass, painted)?;
        }
        Ok(())
    }

    /// Flushes each leaf with waiting commands.
    fn flush_all(&mut self, pass: &mut Pass<C, L>) -> Result<(), NoMemory>
        requires { pass.old.actor ≡ Painter }
        ensures ok { OnOk result (HasMade C.Client self.old self.new pass.old pass.new
            (under (Mu ∷ []) (flushing C.Client (state C.Client self.old)))) }
        ensures err { OnErr result (HasBegun C.Client self.old self.new pass.old pass.new
            (under (Mu ∷ []) (flushing C.Client (state C.Client self.old)))) }
    {
        let steps = self.stage.steps_to_flush()?;
        self.make_all(pass, steps)
    }

    /// Paints the bad points of all leaves side by side, and puts them onto the screen, leaf by leaf.
    fn paint_shares<R: Threads + Sync>(
        &mut self,
        rt: &R,
        pass: &mut Pass<C, L>,
    ) -> Result<(), NoMemory>
        requires painter { pass.old.actor ≡ Painter }
        requires idle { let m = state C.Client self.old in
            (leaf : LeafId) → leaf_batch C.Client m leaf ≡ [] }
        ensures ok { OnOk result (HasMade C.Client self.old self.new pass.old pass.new
            (at_shares (all_bad_leaves (state C.Client self.old)))) }
        ensures err { OnErr result (HasBegun C.Client self.old self.new pass.old pass.new
            (at_shares (all_bad_leaves (state C.Client self.old)))) }
    {
        let all = self.paint_bad_leaves(rt)?;
        self.put_all(pass, all)
    }

    /// Paints the bad points of all leaves apart from the screen: side by side, or in turn if they are so
    /// few that a thread would take longer to start.
    fn paint_bad_leaves<R: Threads + Sync>(&self, rt: &R) -> Result<Vec<Painted>, NoMemory>
        requires { let m = state C.Client self.now in
            (leaf : LeafId) → leaf_batch C.Client m leaf ≡ [] }
        ensures { let m = state C.Client self.now in
            IfOk result (λ all. ArePainted C.Client m (all_bad_leaves m) all.items) }
    {
        if self.stage.bad_count() <= FEW_POINTS {
            return self.stage.paint_each_bad();
        }
        let shares = self.shares()?;
        paint_each(rt, self.alloc, shares)
    }

    /// Paints the frames, if a point of one is bad.
    fn paint_frames(&mut self, pass: &mut Pass<C, L>) -> Result<(), NoMemory>
        requires { pass.old.actor ≡ Painter }
        ensures ok { OnOk result (HasMade C.Client self.old self.new pass.old pass.new
            (under (Mu ∷ []) (frame_steps (state C.Client self.old)))) }
        ensures err { OnErr result (HasBegun C.Client self.old self.new pass.old pass.new
            (under (Mu ∷ []) (frame_steps (state C.Client self.old)))) }
    {
        let steps = self.stage.steps_to_frame()?;
        self.make_all(pass, steps)
    }

    /// Brings the screen up to date by way of shares: each leaf with waiting commands is flushed; then the
    /// bad points of all leaves are painted apart from the screen, side by side if they are many, and put
    /// onto it leaf by leaf, each at its share alone; then the frames are painted, if a point of one is bad.
    /// If memory runs out, the steps made so far remain.
    pub(crate) fn repaint_shared<R: Threads + Sync>(
        &mut self,
        rt: &R,
        pass: &mut Pass<C, L>,
    ) -> Result<(), NoMemory>
        requires { pass.old.actor ≡ Painter }
        ensures ok { OnOk result (HasMade C.Client self.old self.new pass.old pass.new
            (sharing C.Client (state C.Client self.old))) }
        ensures err { OnErr result (HasBegun C.Client self.old self.new pass.old pass.new
            (sharing C.Client (state C.Client self.old))) }

        // Then no command waits, no point is bad, and the screen is as if painted from nothing.
        ensures idle { let m = state C.Client self.new in
            OnOk result ((leaf : LeafId) → leaf_batch C.Client m leaf ≡ []) }
        ensures good { let m = state C.Client self.new in OnOk result ((p : Point) → m.bad p ≡ false) }
        ensures screen { OnOk result (self.new.screen ≡ render C.Client (state C.Client self.new)) }
    {
        self.flush_all(pass)?;
        self.invariant();
        self.paint_shares(rt, pass)?;
        self.invariant();
        self.paint_frames(pass)?;
        self.invariant();
        Ok(())
    }
}
