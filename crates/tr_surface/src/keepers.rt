ghost use Rattle.std.specs.Prelude.{◌≡◌, ◌<◌, ℕ, true};
ghost use Rattle.tr_base.specs.declared.Point.{Point};
ghost use Rattle.tr_base.specs.Rects.{has_point, whole_of};
ghost use Rattle.tr_client.specs.Laws.{IsWindowSize};
ghost use Rattle.tr_surface.specs.TreeSteps.{WindowFacts};

use tr_base::{LeafId, Rect, Size};
use tr_paint::Batch;

/// The facts about windows that an edit of the tree needs.
pub trait Keeper {
    /// The points that windows keep when their sizes change, and the commands that wait for them.
    ghost keeping: { Self → WindowFacts };

    /// The number of windows.
    ghost leaves: { Self → ℕ };

    /// The points that a window needn't paint again when its size changes, in the window's coordinates.
    /// They lie in the window before and after.
    fn keeps(&self, leaf: LeafId, from: Size, to: Size) -> Rect
        requires leaf { leaf.0 < leaves self.now }
        requires from { IsWindowSize from }
        requires to { IsWindowSize to }
        ensures value { result ≡ (keeping self.now).keeps leaf from to }
        ensures first { (q : Point) → has_point result q ≡ true → has_point (whole_of from) q ≡ true }
        ensures second { (q : Point) → has_point result q ≡ true → has_point (whole_of to) q ≡ true };

    /// The commands that wait for a window.
    fn batch(&self, leaf: LeafId) -> &Batch
        requires leaf { leaf.0 < leaves self.now }
        ensures value { result.now ≡ (keeping self.now).batch leaf };
}
