ghost use Rattle.std.specs.Prelude.{◌≡◌, ◌<◌, Some, IsTrue, IfOk, OnOk};
ghost use Rattle.tr_forest.specs.Nodes.{leaf_count};
ghost use Rattle.tr_spot.specs.Leaves.{leaf_size};
ghost use Rattle.tr_journal.specs.Openings.{tree_of};
ghost use Rattle.tr_journal.specs.Steps.{IsFor};
ghost use Rattle.tr_machine.specs.States.{content_of};
ghost use Rattle.tr_stage.specs.Making.{Makes};
ghost use Rattle.tr_stage.specs.Sketching.{IsSketchOf, MayBePut};
ghost use Rattle.tr_stage.specs.Stages.{KeepsOthers, state};

use crate::lines::{By, write};
use crate::paints::exposure_of;
use crate::stages::Stage;
use tr_base::{LeafId, NoMemory, Rect};
use tr_client::Client;
use tr_journal::{Actor, Answer, Reply, Step};
use tr_levels::Held;
use tr_sketch::Sketch;

impl<C: Client> Stage<C> {
    /// Makes the step `Flush` of a leaf, with a sketch of the leaf's present content. If the pixels of the
    /// sketch are as good as the commands that wait, it puts them onto the screen; else it executes the
    /// commands, as `step` does. For want of memory no step is made.
    pub fn flush_with(
        &mut self,
        actor: Actor,
        level: Held,
        leaf: LeafId,
        sketch: &Sketch<C>,
    ) -> Result<Reply, NoMemory>
        requires allowed { let t = (tree_of self.old.opening).nodes in
            IsFor {M = C.Cmd} t actor level (Step.Flush leaf) }
        requires content { content_of C.Client (state C.Client self.old) leaf ≡ Some sketch.now.content }
        requires font { sketch.now.font ≡ (state C.Client self.old).font }
        requires size { sketch.now.size ≡ leaf_size (state C.Client self.old).tree leaf }
        requires kind { sketch.now.kind ≡ (state C.Client self.old).tree.kind }
        ensures made { Makes C.Client self.old self.new actor level (Step.Flush leaf) result }
        ensures others { let t = (state C.Client self.old).tree in
            OnOk result (KeepsOthers {M = C.Cmd} t (Step.Flush leaf) self.old.screen self.new.screen) }
    {
        self.flush_by(&By { actor, level }, leaf, sketch)
    }

    /// The same; `by` has the actor and the locks that it holds.
    fn flush_by(&mut self, by: &By, leaf: LeafId, sketch: &Sketch<C>) -> Result<Reply, NoMemory>
        requires allowed { let t = (tree_of self.old.opening).nodes in
            IsFor {M = C.Cmd} t by.now.actor by.now.level (Step.Flush leaf) }
        requires shows { IsSketchOf C.Client (state C.Client self.old) leaf sketch.now }
        ensures made { Makes C.Client self.old self.new by.now.actor by.now.level
            (Step.Flush leaf) result }
        ensures others { let t = (state C.Client self.old).tree in
            OnOk result (KeepsOthers {M = C.Cmd} t (Step.Flush leaf) self.old.screen self.new.screen) }
    {
        let clip = sketch.clip();
        if self.may_be_put(leaf, &clip)? {
            self.put_sketch(by, leaf, sketch)
        } else {
            self.flush(by, leaf)
        }
    }

    /// Whether pixels of a clip of a leaf's window may replace a flush. `false` promises nothing.
    fn may_be_put(&self, leaf: LeafId, clip: &Rect) -> Result<bool, NoMemory>
        requires { leaf.0 < leaf_count (tree_of self.now.opening).nodes }
        ensures { IfOk result (λ b. IsTrue b →
            MayBePut C.Client (state C.Client self.now) leaf clip.now) }
    {
        self.surface.invariant();
        let exposure = exposure_of(&self.surface, leaf)?;
        Ok(self.windows.is_covered(leaf, &exposure, clip))
    }

    /// Makes a flush by the pixels of a sketch, which may replace it.
    fn put_sketch(&mut self, by: &By, leaf: LeafId, sketch: &Sketch<C>) -> Result<Reply, NoMemory>
        requires allowed { let t = (tree_of self.old.opening).nodes in
            IsFor {M = C.Cmd} t by.now.actor by.now.level (Step.Flush leaf) }
        requires shows { IsSketchOf C.Client (state C.Client self.old) leaf sketch.now }
        requires may { MayBePut C.Client (state C.Client self.old) leaf sketch.now.clip }
        ensures made { Makes C.Client self.old self.new by.now.actor by.now.level
            (Step.Flush leaf) result }
        ensures others { let t = (state C.Client self.old).tree in
            OnOk result (KeepsOthers {M = C.Cmd} t (Step.Flush leaf) self.old.screen self.new.screen) }
    {
        self.journal.reserve(1)?;
        self.surface.invariant();
        let clip = sketch.clip();
        self.surface.put_visible(leaf, &clip, sketch.pixels());
        self.surface.invariant();
        self.windows.clear(leaf);
        let entry = by.entry(Step::Flush { leaf }, Answer::Done, 0);
        Ok(write(&mut self.journal, entry, Answer::Done, &[]))
    }
}
