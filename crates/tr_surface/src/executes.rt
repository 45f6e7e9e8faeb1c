ghost use Rattle.std.specs.Prelude.{◌≡◌, ◌<◌, ℕ, true, false, is_none, Some, OnOk, OnErr};
ghost use Rattle.tr_base.specs.declared.Point.{Point};
ghost use Rattle.tr_base.specs.Rects.{before_shift};
ghost use Rattle.tr_screen.specs.Pictures.{pixel_of};
ghost use Rattle.tr_paint.specs.Batches.{touches};
ghost use Rattle.tr_paint.specs.Traces.{look_of};
ghost use Rattle.tr_exec.specs.Executions.{IsOrigin, colour_after};
ghost use Rattle.tr_forest.specs.Nodes.{leaf_count};
ghost use Rattle.tr_spot.specs.Spots.{spot, is_in_leaf};
ghost use Rattle.tr_spot.specs.Leaves.{leaf_corner};
ghost use Rattle.tr_surface.specs.Surfaces.{is_bad, is_on, leaf_base};

use crate::surfaces::Surface;
use tr_base::{Env, Font, LeafId, NoMemory, Point};
use tr_exec::execute_known;
use tr_paint::Batch;
use tr_tree::Tree;

impl Surface {
    /// Executes a batch, which is in the leaf's coordinates, within the visible points of a leaf. At first
    /// the pixels of all visible points that aren't bad are known. If memory runs out, nothing changes.
    pub fn execute(&mut self, font: &Font, leaf: LeafId, batch: &Batch) -> Result<(), NoMemory>
        requires { leaf.0 < leaf_count self.old.tree.nodes }

        // Each visible point whose colour is known has it.
        ensures known { let t = self.old.tree in
            let look = look_of t.kind font.now in
            OnOk result ((p : Point) (x : ℕ) → is_in_leaf leaf (spot t p) ≡ true →
            colour_after look (leaf_base self.old leaf) batch.now (leaf_corner t leaf) p ≡ Some x →
            pixel_of self.new.screen p ≡ x) }

        // A visible point is bad exactly if its colour isn't known.
        ensures unknown { let t = self.old.tree in
            let look = look_of t.kind font.now in
            OnOk result ((p : Point) → is_in_leaf leaf (spot t p) ≡ true → is_bad self.new p ≡
            is_none (colour_after look (leaf_base self.old leaf) batch.now (leaf_corner t leaf) p)) }

        // A visible point that no command touches keeps its pixel, known or not.
        ensures untouched { let t = self.old.tree in
            OnOk result ((p : Point) → is_in_leaf leaf (spot t p) ≡ true →
            touches batch.now (before_shift p (leaf_corner t leaf)) ≡ false →
            pixel_of self.new.screen p ≡ pixel_of self.old.screen p) }

        // Outside the visible points nothing changes.
        ensures pixels { let t = self.old.tree in
            OnOk result ((p : Point) → is_on t p ≡ true → is_in_leaf leaf (spot t p) ≡ false →
            pixel_of self.new.screen p ≡ pixel_of self.old.screen p) }
        ensures others { let t = self.old.tree in
            OnOk result ((p : Point) → is_in_leaf leaf (spot t p) ≡ false →
            is_bad self.new p ≡ is_bad self.old p) }
        ensures tree { self.new.tree ≡ self.old.tree }
        ensures err { OnErr result (self.new ≡ self.old) }
    {
        self.tree.invariant();
        let kind = self.tree.kind();
        let env = Env { kind, font };
        let origin = origin_of(&self.tree, leaf);
        let n = self.tree.node_of(leaf);
        let visible = self.visible(leaf)?;
        let known = execute_known(
            self.alloc,
            batch,
            &env,
            origin,
            &visible,
            &self.good[usize::from(n.0)],
            &mut self.screen,
        );
        drop(visible);
        let known = known?;
        self.good[usize::from(n.0)] = known;
        Ok(())
    }
}

/// The north-west corner of a leaf's window on the screen.
pub(crate) fn origin_of(tree: &Tree, leaf: LeafId) -> Point
    requires { leaf.0 < leaf_count tree.now.nodes }
    ensures value { result ≡ leaf_corner tree.now leaf }
    ensures origin { IsOrigin result }
{
    let domain = tree.domain(tree.node_of(leaf));
    domain.invariant();
    domain.corner()
}
