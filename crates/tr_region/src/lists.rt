ghost use Rattle.std.specs.Prelude.{◌≡◌, ◌≢◌, [], ◌<◌, ◌≤◌, ◌≤ℤ◌, ◌<ℤ◌, ◌&&◌, false, length, slice_index_or, IsTrue, IfSome};
ghost use Rattle.tr_base.specs.declared.Point.{Point};
ghost use Rattle.tr_base.specs.Rects.{Edges, InReach};
ghost use Rattle.tr_region.specs.Bands.{IsCanonical};
ghost use Rattle.tr_region.specs.Extents.{extents_of};
ghost use Rattle.tr_region.specs.Order as spec;
ghost use Rattle.tr_region.specs.Points.{holds};
ghost use Rattle.tr_region.specs.RowParts.{AreInOrder, AreApartUntil};

use tr_base::{Point, Rect, greater, lesser};

/// The least rectangle that contains those of a canonical list.
pub fn extents(rects: &[Rect]) -> Rect
    requires canonical { IsCanonical rects.now }
    requires some { rects.now ≢ [] }
    ensures { result ≡ extents_of rects.now }
{
    let first = &rects[0];
    let last = &rects[rects.len() - 1];
    let mut west = first.west();
    let mut east = first.east();
    for rect in rects {
        west = lesser(west, rect.west());
        east = greater(east, rect.east());
    }
    Rect::spanning(west, east, first.north(), last.south())
}

/// Whether the point lies in a rectangle of a canonical list. One binary search finds the point's band and
/// its place in that band, since the list is sorted by both.
pub fn holds_point(rects: &[Rect], p: Point) -> bool
    requires { IsCanonical rects.now }
    ensures { result ≡ holds rects.now p }
{
    let at = rects.partition_point(|rect| lies_before(rect, p));
    at < rects.len() && rects[at].has(p)
}

/// Whether the rectangle lies north of the point's row, or in its row and west of it.
fn lies_before(rect: &Rect, p: Point) -> bool
    ensures { result ≡ spec.lies_before rect.now p }
{
    rect.south() <= p.v || (rect.north() <= p.v && rect.east() <= p.h)
}

/// Whether no rectangle of one list has a point of a rectangle of the other. The lists are walked
/// together from north to south, and only bands that share rows compare their columns.
pub fn are_apart(first: &[Rect], second: &[Rect]) -> bool
    requires first { AreInOrder first.now }
    requires second { AreInOrder second.now }
    ensures { IsTrue result → (p : Point) → holds first.now p && holds second.now p ≡ false }
{
    let mut first = first;
    let mut second = second;
    while !first.is_empty() && !second.is_empty() {
        let Some(row) = apart_until(first, second) else {
            return false;
        };
        first = from_row(first, row);
        second = from_row(second, row);
    }
    true
}

/// A row at which the first rectangle of one of the lists has ended. North of it the lists have no
/// point in common. If their first bands have one, there is no such row.
fn apart_until(first: &[Rect], second: &[Rect]) -> Option<i32>
    requires first { AreInOrder first.now }
    requires second { AreInOrder second.now }
    requires some_first { 0 < length first.now }
    requires some_second { 0 < length second.now }
    ensures { IfSome result (λ row. AreApartUntil row first.now second.now) }
{
    let a = &first[0];
    let b = &second[0];
    if a.south() <= b.north() {
        return Some(b.north());
    }
    if b.south() <= a.north() {
        return Some(a.north());
    }
    let row = lesser(a.south(), b.south());
    if share_columns(first, second, row) {
        return None;
    }
    Some(row)
}

/// Whether two rectangles of the lists that begin north of a row have a column in common. None of them ends
/// north of the row.
fn share_columns(first: &[Rect], second: &[Rect], row: i32) -> bool
    requires first { AreInOrder first.now }
    requires second { AreInOrder second.now }
    requires first_row { (d : Edges) → row ≤ℤ (slice_index_or first.now 0 d).south }
    requires second_row { (d : Edges) → row ≤ℤ (slice_index_or second.now 0 d).south }
    requires reach { InReach row }
    ensures { result ≡ false → (p : Point) → p.v <ℤ row → holds first.now p && holds second.now p ≡ false }
{
    let mut i = 0;
    let mut j = 0;
    while i < first.len() && j < second.len() {
        let a = &first[i];
        let b = &second[j];
        if a.north() >= row || b.north() >= row {
            return false;
        }
        if a.east() <= b.west() {
            i += 1;
        } else if b.east() <= a.west() {
            j += 1;
        } else {
            return true;
        }
    }
    false
}

/// The rest of a list, from the first rectangle on that has not ended at a row.
fn from_row(rects: &[Rect], row: i32) -> &[Rect]
    requires order { AreInOrder rects.now }
    requires reach { InReach row }
    ensures order { AreInOrder result.now }
    ensures points { (p : Point) → row ≤ℤ p.v → holds rects.now p ≡ holds result.now p }
    ensures fits { length result.now ≤ length rects.now }
    ensures fewer { (d : Edges) → 0 < length rects.now → (slice_index_or rects.now 0 d).south ≤ℤ row →
        length result.now < length rects.now }
{
    for (at, rect) in rects.iter().enumerate() {
        if row < rect.south() {
            return &rects[at..];
        }
    }
    &[]
}
