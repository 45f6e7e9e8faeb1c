ghost use Rattle.std.specs.Prelude.{◌≡◌, ◌≤◌, ◌<◌, ◌&&◌, ℕ, pos, length, slice_index};
ghost use Rattle.tr_base.specs.Rects.{between};
ghost use Rattle.tr_kernel.specs.Differences.{differ};
ghost use Rattle.tr_region.specs.Bands.{AreApart, in_spans, spans_of};
ghost use Rattle.tr_region.specs.Points.{count_below, holds};
ghost use Rattle.tr_surface.specs.Counts.{count_on};
ghost use Rattle.tr_stage.specs.Stages.{is_different};

use tr_base::Rect;
use tr_kernel::count_row;
use tr_region::{Region, nearest_row};
use tr_screen::Screen;

/// The number of points of a region that have different pixels on two screens of one size. It reads no
/// other pixels.
pub(crate) fn count_apart(region: &Region, a: &Screen, b: &Screen) -> u32
    requires { b.now.size ≡ a.now.size }
    ensures { result ≡ count_on a.now.size (λ p. holds region.now p && is_different a.now b.now p) }
{
    let mut count = 0;
    for v in 0..a.size().high {
        count += count_columns(region.row(i32::from(v)), a.row(v), b.row(v));
    }
    count
}

/// The number of differing places of two rows, in the columns of rectangles side by side.
fn count_columns(rects: &[Rect], a: &[u8], b: &[u8]) -> u32
    requires apart { AreApart (spans_of rects.now) }
    requires same { length a.now ≡ length b.now }
    requires few { length a.now ≤ 1024 }
    ensures { result ≡ count_below (length a.now) (λ x. in_spans (spans_of rects.now) (pos x)
        && differ (slice_index a.now x, slice_index b.now x)) }
{
    let wide = a.len() as u16;
    let mut count = 0;
    for rect in rects {
        let (from, to) = columns_of(rect, wide);
        count += count_row(&a[from..to], &b[from..to]) as u32;
    }
    count
}

/// The first column of a rectangle, and the one after its last, in a row of `wide` pixels.
fn columns_of(rect: &Rect, wide: u16) -> (usize, usize)
    ensures order { result.0 ≤ result.1 }
    ensures within { result.1 ≤ wide }
    ensures columns { (x : ℕ) → x < wide →
        between (pos result.0) (pos result.1) (pos x) ≡ between rect.now.west rect.now.east (pos x) }
{
    rect.invariant();
    let from = nearest_row(rect.west(), 0, wide);
    let to = nearest_row(rect.east(), 0, wide);
    (usize::from(from), usize::from(to))
}
