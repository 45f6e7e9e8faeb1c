ghost use Rattle.std.specs.Prelude.{◌≡◌, ◌≤◌, ◌+◌, ◌*◌, pos};
ghost use Rattle.tr_base.specs.Rects.{InReach};
ghost use Rattle.tr_base.specs.Layouts.{longest};
ghost use Rattle.tr_paint.specs.Paints.{IsNearPaint, IsNearRect};
ghost use Rattle.tr_client.specs.Laws.{IsWindowSize};
ghost use Rattle.w_edit.specs.Pictures as spec;

use tr_base::{Rect, Size};
use tr_client::{area_of, downwards, upwards};
use tr_paint::Paint;

/// The strip of a window with `above` others above it.
pub fn strip(size: Size, above: usize) -> Rect
    requires size { IsWindowSize size }
    requires above { 8 * above + 8 ≤ longest }
    ensures edges { result ≡ spec.strip size above }
    ensures near { IsNearRect result }
{
    area_of(size, above, above + 1)
}

/// The cell of a column, in the strip with `above` others above it.
pub fn cell(column: usize, above: usize) -> Rect
    requires column { 8 * column ≤ longest }
    requires above { 8 * above ≤ longest }
    ensures { result ≡ spec.cell column above }
{
    Rect::edges(
        place(8 * column),
        place(8 * column + 8),
        place(8 * above),
        place(8 * above + 8),
    )
}

/// Each strip from `from` to before `to` gets the pixels of the strip below it.
pub fn raised(size: Size, from: usize, to: usize) -> Paint
    requires size { IsWindowSize size }
    requires from { 8 * from ≤ longest }
    requires to { 8 * to ≤ longest }
    ensures paint { result ≡ spec.raised size from to }
    ensures near { IsNearPaint result }
{
    Paint::Scroll {
        clip: area_of(size, from, to),
        delta: upwards(),
    }
}

/// Each strip from `from` to before `to` gets the pixels of the strip above it.
pub fn lowered(size: Size, from: usize, to: usize) -> Paint
    requires size { IsWindowSize size }
    requires from { 8 * from ≤ longest }
    requires to { 8 * to ≤ longest }
    ensures paint { result ≡ spec.lowered size from to }
    ensures near { IsNearPaint result }
{
    Paint::Scroll {
        clip: area_of(size, from, to),
        delta: downwards(),
    }
}

/// A place as a coordinate.
fn place(n: usize) -> i32
    requires { n ≤ 8192 }
    ensures value { result ≡ pos n }
    ensures reach { InReach result }
{
    n as i32
}
