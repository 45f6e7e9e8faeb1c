ghost use Rattle.std.specs.Prelude.{◌≡◌, ◌<◌, [], All, IfOk, OnOk};
ghost use Rattle.tr_forest.specs.Nodes.{leaf_count};
ghost use Rattle.tr_journal.specs.Openings.{tree_of};
ghost use Rattle.tr_machine.specs.SettleSteps.{frame_steps};
ghost use Rattle.tr_machine.specs.SharedRepaints as spec;
ghost use Rattle.tr_machine.specs.SharedRepaints.{all_bad_leaves, flushing};
ghost use Rattle.tr_stage.specs.Sharing.{ArePainted};
ghost use Rattle.tr_stage.specs.Stages.{IsPainters, state};

use crate::sharing::Painted;
use crate::stages::Stage;
use tr_base::{LeafId, NoMemory};
use tr_client::Client;
use tr_journal::Step;

impl<C: Client> Stage<C> {
    /// Whether a visible point of a leaf is bad.
    pub fn has_bad(&self, leaf: LeafId) -> Result<bool, NoMemory>
        requires { leaf.0 < leaf_count (tree_of self.now.opening).nodes }
        ensures { IfOk result (λ b. b ≡ spec.has_bad (state C.Client self.now) leaf) }
    {
        let bad = self.surface.is_bad(leaf)?;
        Ok(bad)
    }

    /// Whether a leaf has waiting commands.
    fn waits(&self, leaf: LeafId) -> bool
        requires { leaf.0 < leaf_count (tree_of self.now.opening).nodes }
        ensures { result ≡ spec.waits C.Client (state C.Client self.now) leaf }
    {
        self.batch(leaf).len() != 0
    }

    /// A flush for each leaf with waiting commands: the painter's steps, under the tree's lock.
    pub fn steps_to_flush(&self) -> Result<Vec<Step<C::Cmd>>, NoMemory>
        ensures steps { IfOk result (λ steps. steps.items ≡ flushing C.Client (state C.Client self.now)) }
        ensures painters { IfOk result (λ steps.
            All (IsPainters (tree_of self.now.opening).nodes) steps.items) }
    {
        let mut steps = Vec::new(self.alloc);
        for n in 0..self.windows.count() {
            let leaf = LeafId(n);
            if self.waits(leaf) {
                steps.push(Step::Flush { leaf })?;
            }
        }
        Ok(steps)
    }

    /// The step that paints the frames, if a point of one is bad, else no step. It is the painter's, under
    /// the tree's lock.
    pub fn steps_to_frame(&self) -> Result<Vec<Step<C::Cmd>>, NoMemory>
        ensures steps { IfOk result (λ steps. steps.items ≡ frame_steps (state C.Client self.now)) }
        ensures painters { IfOk result (λ steps.
            All (IsPainters (tree_of self.now.opening).nodes) steps.items) }
    {
        let mut steps = Vec::new(self.alloc);
        if self.surface.is_frame_bad()? {
            steps.push(Step::PaintFrame)?;
        }
        Ok(steps)
    }

    /// Paints the bad points of each leaf that has some, apart from the screen, in the order of the
    /// leaves' numbers.
    pub fn paint_each_bad(&self) -> Result<Vec<Painted>, NoMemory>
        ensures { let m = state C.Client self.now in
            IfOk result (λ all. ArePainted C.Client m (all_bad_leaves m) all.items) }
    {
        let mut all = Vec::new(self.alloc);
        let Ok(()) = self.add_each_bad(&mut all) else {
            drop(all);
            return Err(NoMemory);
        };
        Ok(all)
    }

    /// Puts them into an empty list. The list is borrowed, so that this function drops none.
    fn add_each_bad(&self, all: &mut Vec<Painted>) -> Result<(), NoMemory>
        requires { all.old.items ≡ [] }
        ensures { let m = state C.Client self.now in
            OnOk result (ArePainted C.Client m (all_bad_leaves m) all.new.items) }
    {
        for n in 0..self.windows.count() {
            let leaf = LeafId(n);
            if self.has_bad(leaf)? {
                all.push(self.paint_bad(leaf)?)?;
            }
        }
        Ok(())
    }
}
