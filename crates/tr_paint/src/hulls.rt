ghost use Rattle.std.specs.Prelude.{◌≢◌, ◌≤ℤ◌, IsTrue};
ghost use Rattle.tr_base.specs.Rects.{Edges, empty_rect, has_point};
ghost use Rattle.tr_paint.specs.Hulls.{HasAll};

use tr_base::{Rect, greater, lesser};

/// The least rectangle that contains the points of both.
pub fn hull(a: &Rect, b: &Rect) -> Rect
    ensures first { HasAll result (has_point a.now) }
    ensures second { HasAll result (has_point b.now) }
    ensures least { (e : Edges) → HasAll e (has_point a.now) → HasAll e (has_point b.now) →
        HasAll e (has_point result) }
{
    if a.is_empty() {
        return *b;
    }
    if b.is_empty() {
        return *a;
    }
    least_round(a, b)
}

/// The least rectangle that contains two rectangles with points.
fn least_round(a: &Rect, b: &Rect) -> Rect
    requires one { a.now ≢ empty_rect }
    requires other { b.now ≢ empty_rect }
    ensures first { HasAll result (has_point a.now) }
    ensures second { HasAll result (has_point b.now) }
    ensures least { (e : Edges) → HasAll e (has_point a.now) → HasAll e (has_point b.now) →
        HasAll e (has_point result) }
{
    a.invariant();
    b.invariant();
    Rect::edges(
        lesser(a.west(), b.west()),
        greater(a.east(), b.east()),
        lesser(a.north(), b.north()),
        greater(a.south(), b.south()),
    )
}

/// Whether the edges of one rectangle lie within those of another.
#[inline(always)]
pub(crate) fn is_within(inner: &Rect, outer: &Rect) -> bool
    ensures { IsTrue result → HasAll outer.now (has_point inner.now) }
{
    lies_within(inner.west(), inner.east(), outer.west(), outer.east())
        && lies_within(inner.north(), inner.south(), outer.north(), outer.south())
}

/// Whether an interval lies within another one.
fn lies_within(first: i32, last: i32, low: i32, high: i32) -> bool
    ensures { IsTrue result → (low ≤ℤ first) × (last ≤ℤ high) }
{
    low <= first && last <= high
}
