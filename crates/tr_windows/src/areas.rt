ghost use Rattle.std.specs.Prelude.{◌≡◌};
ghost use Rattle.tr_base.specs.Rects.{Edges, has_point, meet_of, whole_of};
ghost use Rattle.tr_paint.specs.Batches.{touches};
ghost use Rattle.tr_paint.specs.Hulls.{HasAll};
ghost use Rattle.tr_paint.specs.Paints.{IsNearRect};
ghost use Rattle.tr_client.specs.Laws.{IsWindowSize};

use tr_base::{Rect, Size};
use tr_client::window;
use tr_paint::{Batch, hull};

/// The part of a clip that lies in a window of this size.
pub(crate) fn part_in_window(clip: &Rect, size: Size) -> Rect
    requires { IsWindowSize size }
    ensures edges { result ≡ meet_of clip.now (whole_of size) }
    ensures near { IsNearRect result }
{
    clip.meet(&window(size))
}

/// The least rectangle that has all points of another and all points that the commands touch.
pub(crate) fn spanned(bad: Rect, batch: &Batch) -> Rect
    ensures bad { HasAll result (has_point bad) }
    ensures touched { HasAll result (touches batch.now) }
    ensures least { (e : Edges) → HasAll e (has_point bad) → HasAll e (touches batch.now) →
        HasAll e (has_point result) }
{
    let touched = batch.hull();
    hull(&bad, &touched)
}
