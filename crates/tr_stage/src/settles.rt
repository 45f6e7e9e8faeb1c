ghost use Rattle.std.specs.Prelude.{◌≡◌, ℕ, ◌<◌, ◌++◌, ◌∷◌, [], false, length, take, All, IfOk, OnOk, OnErr};
ghost use Rattle.tr_base.specs.declared.LeafId.{LeafId};
ghost use Rattle.tr_base.specs.declared.Point.{Point};
ghost use Rattle.tr_forest.specs.Nodes.{leaf_count};
ghost use Rattle.tr_levels.specs.declared.Level.TheVariants.{Mu};
ghost use Rattle.tr_journal.specs.declared.Actor.TheVariants.{Painter};
ghost use Rattle.tr_journal.specs.Openings.{tree_of};
ghost use Rattle.tr_machine.specs.States.{leaf_batch};
ghost use Rattle.tr_machine.specs.Pictures.{render};
ghost use Rattle.tr_machine.specs.Replays.{lines_of_steps};
ghost use Rattle.tr_machine.specs.SettleSteps.{is_unsettled, settling, settling_lines};
ghost use Rattle.tr_stage.specs.Stages.{IsPainters, state};

use crate::stages::Stage;
use tr_base::{LeafId, NoMemory};
use tr_client::Client;
use tr_journal::{Actor, Attempt, Step};
use tr_levels::{Held, Level};

impl<C: Client> Stage<C> {
    /// Brings the screen up to date: it repaints each leaf that has waiting commands or bad visible
    /// points, in the order of the leaves' numbers, and then paints the frames, if a point of one is bad.
    /// For want of memory the steps made so far remain.
    pub fn settle(&mut self) -> Result<(), NoMemory>
        ensures opening { self.new.opening ≡ self.old.opening }
        ensures ok { OnOk result (self.new.journal ≡
            self.old.journal ++ settling_lines C.Client (state C.Client self.old)) }

        // Then nothing waits, no point is bad, and the screen is as if it were painted from nothing.
        ensures idle { let m = state C.Client self.new in
            OnOk result ((leaf : LeafId) → leaf_batch C.Client m leaf ≡ []) }
        ensures good { let m = state C.Client self.new in OnOk result ((p : Point) → m.bad p ≡ false) }
        ensures screen { OnOk result (self.new.screen ≡ render C.Client (state C.Client self.new)) }

        // For want of memory the journal has the first of these steps.
        ensures err { OnErr result ((n : ℕ) × (self.new.journal ≡
            self.old.journal ++ take n (settling_lines C.Client (state C.Client self.old)))) }
    {
        self.invariant();
        let steps = self.steps_to_settle()?;
        self.paint_all(steps)?;
        self.invariant();
        Ok(())
    }

    /// The steps that `settle` makes, for a caller that makes them one by one: the painter's, under the
    /// tree's lock.
    pub fn steps_to_settle(&self) -> Result<Vec<Step<C::Cmd>>, NoMemory>
        ensures steps { IfOk result (λ steps. steps.items ≡ settling C.Client (state C.Client self.now)) }
        ensures painters { IfOk result (λ steps.
            All (IsPainters (tree_of self.now.opening).nodes) steps.items) }
    {
        let mut steps = Vec::new(self.alloc);
        for n in 0..self.windows.count() {
            let leaf = LeafId(n);
            if self.is_unsettled(leaf)? {
                steps.push(Step::Repaint { leaf })?;
            }
        }
        if self.surface.is_frame_bad()? {
            steps.push(Step::PaintFrame)?;
        }
        Ok(steps)
    }

    /// Whether a leaf has waiting commands, or a bad visible point.
    fn is_unsettled(&self, leaf: LeafId) -> Result<bool, NoMemory>
        requires { leaf.0 < leaf_count (tree_of self.now.opening).nodes }
        ensures { IfOk result (λ b. b ≡ is_unsettled C.Client (state C.Client self.now) leaf) }
    {
        if !self.windows.batch(leaf).is_empty() {
            return Ok(true);
        }
        let bad = self.surface.is_bad(leaf)?;
        Ok(bad)
    }

    /// Makes steps of the painter, one after another, under the tree's lock. For want of memory the steps
    /// made so far remain.
    pub(crate) fn paint_all(&mut self, steps: Vec<Step<C::Cmd>>) -> Result<(), NoMemory>
        requires { All (IsPainters (tree_of self.old.opening).nodes) steps.items }
        ensures opening { self.new.opening ≡ self.old.opening }
        ensures ok { let m = state C.Client self.old in OnOk result (self.new.journal ≡
            self.old.journal ++ lines_of_steps C.Client Painter (Mu ∷ []) m steps.items) }
        ensures err { let m = state C.Client self.old in OnErr result ((n : ℕ) × (self.new.journal ≡
            self.old.journal ++ take n (lines_of_steps C.Client Painter (Mu ∷ []) m steps.items))) }
    {
        let level = Held::none().with(Level::Mu);
        for step in steps {
            self.step(Attempt {
                actor: Actor::Painter,
                level,
                step,
            })?;
        }
        Ok(())
    }
}
