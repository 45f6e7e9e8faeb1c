ghost use Rattle.std.specs.Prelude.{◌≡◌, true, false, IsTrue};
ghost use Rattle.tr_base.specs.declared.Point.{Point};
ghost use Rattle.tr_base.specs.Rects.{has_point, whole_of};
ghost use Rattle.tr_paint.specs.Batches.{touches};
ghost use Rattle.tr_paint.specs.Paints.{IsNearPaint, IsNearPoint};
ghost use Rattle.tr_paint.specs.Views.{viewed};
ghost use Rattle.tr_paint.specs.Traces.{Look};
ghost use Rattle.tr_client.specs.Laws.{IsWindowSize};
ghost use Rattle.tr_windows.specs.Losses.{BringsOwn, Spares};
ghost use Rattle.tr_windows.specs.Promises.{IsCovered, LosesNothingOf};

use crate::areas::{part_in_window, spanned};
use crate::exposures::Exposure;
use tr_base::{Point, Rect, Size};
use tr_client::window;
use tr_paint::{Batch, Paint, PaintView, Scrolls, points_in};

/// Whether a painting may replace the commands that wait for a window, and may cost less. A painting
/// costs at least the area that it paints: the least rectangle that has all points that the waiting
/// commands touch.
pub(crate) fn is_replaceable(waiting: &Batch, exposure: &Exposure) -> bool
    requires { IsWindowSize exposure.now.size }
    ensures good { IsTrue result → (q : Point) → has_point exposure.now.bad q ≡ false }
    ensures keeps { IsTrue result → (look : Look) → LosesNothingOf exposure.now look waiting.now }
{
    let clip = part_in_window(&spanned(exposure.bad, waiting), exposure.size);
    points_in(&clip) < waiting.cost() && keeps_all(waiting, exposure)
}

/// Whether pixels of the present picture, one for each point of a clip, may replace the commands that wait
/// for a window: no point is bad, the commands lose no point, and they touch only points of the clip.
/// `false` promises nothing.
pub(crate) fn is_covered(waiting: &Batch, exposure: &Exposure, clip: &Rect) -> bool
    requires { IsWindowSize exposure.now.size }
    ensures { IsTrue result → (look : Look) → IsCovered look exposure.now clip.now waiting.now }
{
    keeps_all(waiting, exposure) && has_touched(clip, waiting, exposure)
}

/// Whether a clip has each bad point of a window and each point that the commands touch.
fn has_touched(clip: &Rect, batch: &Batch, exposure: &Exposure) -> bool
    requires { IsWindowSize exposure.now.size }
    ensures { IsTrue result → (q : Point) → has_point (whole_of exposure.now.size) q ≡ true →
        touches batch.now q ≡ true → has_point clip.now q ≡ true }
{
    let part = part_in_window(&spanned(exposure.bad, batch), exposure.size);
    part.meet(clip) == part
}

/// Whether no point of a window is bad and the waiting commands lose none. This is a quick test: after
/// `false`, a painting is right all the same.
pub(crate) fn keeps_all(waiting: &Batch, exposure: &Exposure) -> bool
    requires { IsWindowSize exposure.now.size }
    ensures good { IsTrue result → (q : Point) → has_point exposure.now.bad q ≡ false }
    ensures keeps { IsTrue result → (look : Look) → LosesNothingOf exposure.now look waiting.now }
{
    exposure.bad.is_empty() && loses_nothing(waiting, exposure)
}

/// Whether no command can make a point unknown. If all scrolls of a window are alike, as they mostly
/// are, one of them is tested for all.
fn loses_nothing(batch: &Batch, exposure: &Exposure) -> bool
    requires { IsWindowSize exposure.now.size }
    ensures { IsTrue result → (look : Look) → LosesNothingOf exposure.now look batch.now }
{
    if batch.has_spoil() {
        return false;
    }
    match batch.scrolls() {
        Scrolls::Absent => true,
        Scrolls::Alike { clip, delta } => spares_scroll(&clip, delta, exposure),
        Scrolls::Various => spares_all(batch, exposure),
    }
}

/// The same, by a walk over the commands.
fn spares_all(batch: &Batch, exposure: &Exposure) -> bool
    requires { IsWindowSize exposure.now.size }
    ensures { IsTrue result → (look : Look) → LosesNothingOf exposure.now look batch.now }
{
    // Names `Paint`, so that the borrow checker knows the types that a view lends.
    let _none: Option<Paint> = None;
    for i in 0..batch.len() {
        let paint = batch.get(i);
        if !spares(&paint, exposure) {
            return false;
        }
    }
    true
}

/// Whether each point that was known before a command is known after it.
fn spares(paint: &PaintView, exposure: &Exposure) -> bool
    requires near { IsNearPaint (viewed paint.now) }
    requires size { IsWindowSize exposure.now.size }
    ensures { IsTrue result → Spares exposure.now (viewed paint.now) }
{
    match paint {
        PaintView::Scroll { clip, delta } => spares_scroll(clip, *delta, exposure),
        PaintView::Spoil { .. } => false,
        _ => true,
    }
}

/// The same for a scroll.
fn spares_scroll(clip: &Rect, delta: Point, exposure: &Exposure) -> bool
    requires delta { IsNearPoint delta }
    requires size { IsWindowSize exposure.now.size }
    ensures whole { IsTrue result → exposure.now.is_whole ≡ true }
    ensures own { IsTrue result → BringsOwn exposure.now.size clip.now delta }
{
    exposure.is_whole && brings_own(exposure.size, clip, delta)
}

/// Whether a scroll brings only points of the window into it.
fn brings_own(size: Size, clip: &Rect, delta: Point) -> bool
    requires size { IsWindowSize size }
    requires delta { IsNearPoint delta }
    ensures { IsTrue result → BringsOwn size clip.now delta }
{
    let all = window(size);
    let part = clip.meet(&all);
    part.meet(&all.shift(delta)) == part
}
