ghost use Rattle.std.specs.Prelude.{◌≡◌, ◌≢◌, ◌<◌, ◌≤◌, ℤ, pos, ◌≤ℤ◌, ◌<ℤ◌, [], All, length, slice_index_or};
ghost use Rattle.tr_base.specs.declared.Point.{Point};
ghost use Rattle.tr_base.specs.Rects.{Edges};
ghost use Rattle.tr_region.specs.Points.{holds};
ghost use Rattle.tr_region.specs.Bands.{AreApart, in_spans, spans_of};
ghost use Rattle.tr_region.specs.Rows.{HoldsRow, IsNearest, in_band};
ghost use Rattle.tr_region.specs.RowParts.{AreInOrder, IsRowPart, IsBandOf};

use crate::regions::Region;
use tr_base::Rect;

/// Rows in which a region holds the same columns: the rows `north <= v < south`, with the columns of the
/// rectangles, from west to east.
#[derive(Clone, Copy, Debug)]
pub struct Band<'a> {
    pub north: u16,
    pub south: u16,
    pub rects: &'a [Rect],
}

impl<'a> Band<'a> {
    /// Its rectangles that have some of the columns `west <= h < east`.
    pub fn between(&self, west: i32, east: i32) -> &'a [Rect]
        requires { AreApart (spans_of self.now.rects.now) }
        ensures columns { (x : ℤ) → west ≤ℤ x → x <ℤ east →
            in_spans (spans_of result.now) x ≡ in_spans (spans_of self.now.rects.now) x }
        ensures apart { AreApart (spans_of result.now) }
        ensures meet { All (λ r. (west <ℤ r.east) × (r.west <ℤ east)) result.now }
    {
        let start = self.rects.partition_point(|rect| rect.east() <= west);
        let rest = &self.rects[start..];
        &rest[..rest.partition_point(|rect| rect.west() < east)]
    }
}

impl Region {
    /// Its rectangles that have row `v`, from west to east.
    pub fn row(&self, v: i32) -> &[Rect]
        ensures points { HoldsRow self.now result.now v }
        ensures apart { AreApart (spans_of result.now) }

        // In all rows of a rectangle that has the row, the region holds the same columns.
        ensures alike { All (λ r. r.north ≤ℤ v → v <ℤ r.south →
            (y : ℤ) → r.north ≤ℤ y → y <ℤ r.south → HoldsRow self.now result.now y) self.now }
    {
        let rects = self.rects();
        let (start, end) = row_part(rects, v);
        &rects[start..end]
    }

    /// The band with the first of the rows `north <= v < south` in which the region holds points, cut to
    /// these rows. In the rows before the band the region holds nothing. If it holds nothing in all of
    /// them, the band begins and ends at `south`.
    pub fn first_band(&self, north: u16, south: u16) -> Band<'_>
        requires { north ≤ south }
        ensures from { north ≤ result.north }
        ensures order { result.north ≤ result.south }
        ensures to { result.south ≤ south }
        ensures further { north < south → north < result.south }
        ensures points { (p : Point) → pos north ≤ℤ p.v → p.v <ℤ pos result.south →
            holds self.now p ≡ in_band result.north result.south result.rects.now p }
        ensures apart { AreApart (spans_of result.rects.now) }
        ensures some { result.rects.now ≡ [] → result.north ≡ south }
    {
        let rects = self.rects();
        let at = rects.partition_point(|rect| rect.south() <= i32::from(north));
        if at == rects.len() {
            return Band {
                north: south,
                south,
                rects: &rects[at..],
            };
        }
        self.band_at(at, north, south)
    }

    /// The band with the last of the rows `north <= v < south` in which the region holds points, cut to
    /// these rows. In the rows after the band the region holds nothing. If it holds nothing in all of
    /// them, the band begins and ends at `north`.
    pub fn last_band(&self, north: u16, south: u16) -> Band<'_>
        requires { north ≤ south }
        ensures from { north ≤ result.north }
        ensures order { result.north ≤ result.south }
        ensures to { result.south ≤ south }
        ensures further { north < south → result.north < south }
        ensures points { (p : Point) → pos result.north ≤ℤ p.v → p.v <ℤ pos south →
            holds self.now p ≡ in_band result.north result.south result.rects.now p }
        ensures apart { AreApart (spans_of result.rects.now) }
        ensures some { result.rects.now ≡ [] → result.south ≡ north }
    {
        let rects = self.rects();
        let count = rects.partition_point(|rect| rect.north() < i32::from(south));
        if count == 0 {
            return Band {
                north,
                south: north,
                rects: &rects[..0],
            };
        }
        self.band_at(count - 1, north, south)
    }

    /// The band of the rectangle at a place of its list, cut to the rows from `north` on and before
    /// `south`.
    fn band_at(&self, at: usize, north: u16, south: u16) -> Band<'_>
        requires place { at < length self.now }
        requires order { north ≤ south }
        ensures band { (d : Edges) → IsBandOf (slice_index_or self.now at d) self.now north south result }
        ensures order { result.north ≤ result.south }
        ensures apart { AreApart (spans_of result.rects.now) }
        ensures some { result.rects.now ≢ [] }
    {
        let rect = &self.rects()[at];
        Band {
            north: nearest_row(rect.north(), north, south),
            south: nearest_row(rect.south(), north, south),
            rects: self.row(rect.north()),
        }
    }
}

/// The row from `north` to `south`, both included, that is nearest to row `v`.
pub fn nearest_row(v: i32, north: u16, south: u16) -> u16
    requires { north ≤ south }
    ensures { IsNearest v north south result }
{
    if v <= i32::from(north) {
        north
    } else if v < i32::from(south) {
        v as u16
    } else {
        south
    }
}

/// The start and the end of the rectangles that have row `v`.
fn row_part(rects: &[Rect], v: i32) -> (usize, usize)
    requires { AreInOrder rects.now }
    ensures { IsRowPart v rects.now result.0 result.1 }
{
    let start = rects.partition_point(|rect| rect.south() <= v);
    let end = rects.partition_point(|rect| rect.north() <= v);
    (start, end)
}
