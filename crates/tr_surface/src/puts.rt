ghost use Rattle.std.specs.Prelude.{◌≡◌, ◌≤◌, ◌<◌, ◌+◌, ◌&&◌, ◌<ℤ◌, not, true, false, length, slice_index, IfOk, OnOk, OnErr};
ghost use Rattle.tr_base.specs.declared.Point.{Point};
ghost use Rattle.tr_base.specs.Rects.{before_shift, has_point};
ghost use Rattle.tr_region.specs.Areas.{area_of, total_area};
ghost use Rattle.tr_region.specs.Places.{place_in, place_within};
ghost use Rattle.tr_region.specs.Points.{holds};
ghost use Rattle.tr_screen.specs.Pictures.{pixel_of};
ghost use Rattle.tr_screen.specs.Runs.{Repaints, in_run, point_in, width_of};
ghost use Rattle.tr_paint.specs.Paints.{IsNearRect};
ghost use Rattle.tr_exec.specs.Walks.{AreOn};
ghost use Rattle.tr_forest.specs.Nodes.{leaf_count};
ghost use Rattle.tr_spot.specs.Spots.{spot, is_in_leaf};
ghost use Rattle.tr_spot.specs.Leaves.{leaf_corner};
ghost use Rattle.tr_surface.specs.Surfaces.{is_bad};

use crate::executes::origin_of;
use crate::surfaces::Surface;
use tr_base::{LeafId, NoMemory, Rect};
use tr_exec::{Brush, paint_within};
use tr_kernel::copy_row;
use tr_region::Region;
use tr_screen::{Run, Screen};

impl Surface {
    /// Writes pixels at visible points of a leaf, and makes these points good. `pixels` has one for each
    /// point of `part`, by its rectangles in order and by rows within each. If memory runs out, nothing
    /// changes.
    pub fn put(&mut self, leaf: LeafId, part: &Region, pixels: &[u8]) -> Result<(), NoMemory>
        requires leaf { leaf.0 < leaf_count self.old.tree.nodes }
        requires part { (p : Point) → holds part.now p ≡ true →
            is_in_leaf leaf (spot self.old.tree p) ≡ true }
        requires many { length pixels.now ≡ total_area part.now }
        ensures pixels { OnOk result (Repaints (holds part.now)
            (λ p. slice_index pixels.now (place_in part.now p)) self.old.screen self.new.screen) }
        ensures bad { OnOk result ((p : Point) →
            is_bad self.new p ≡ is_bad self.old p && not (holds part.now p)) }
        ensures tree { self.new.tree ≡ self.old.tree }
        ensures err { OnErr result (self.new ≡ self.old) }
    {
        self.tree.invariant();
        let n = self.tree.node_of(leaf);
        let more = self.good[usize::from(n.0)].union(part)?;
        put_pixels(&mut self.screen, part, pixels);
        self.good[usize::from(n.0)] = more;
        Ok(())
    }

    /// Writes pixels at those visible points of a leaf that lie in a clip. The clip is in the leaf's
    /// coordinates, and `pixels` has one for each of its points, by rows. No visible point of the leaf may
    /// be bad. It takes no memory, and the same points are bad after it.
    pub fn put_visible(&mut self, leaf: LeafId, clip: &Rect, pixels: &[u8])
        requires leaf { leaf.0 < leaf_count self.old.tree.nodes }
        requires good { (p : Point) → is_in_leaf leaf (spot self.old.tree p) ≡ true →
            is_bad self.old p ≡ false }
        requires near { IsNearRect clip.now }
        requires many { length pixels.now ≡ area_of clip.now }
        ensures pixels { let t = self.old.tree in let corner = leaf_corner t leaf in
            Repaints (λ p. is_in_leaf leaf (spot t p) && has_point clip.now (before_shift p corner))
            (λ p. slice_index pixels.now (place_within clip.now (before_shift p corner)))
            self.old.screen self.new.screen }
        ensures bad { (p : Point) → is_bad self.new p ≡ is_bad self.old p }
        ensures tree { self.new.tree ≡ self.old.tree }
    {
        self.tree.invariant();
        clip.invariant();
        let n = self.tree.node_of(leaf);
        let origin = origin_of(&self.tree, leaf);
        let area = clip.shift(origin);
        paint_within(
            &mut self.screen,
            &self.good[usize::from(n.0)],
            &Raster { area, pixels },
        );
    }
}

/// Gives the points of a region these pixels.
fn put_pixels(screen: &mut Screen, part: &Region, pixels: &[u8])
    requires on { AreOn screen.old.size (holds part.now) }
    requires many { length pixels.now ≡ total_area part.now }
    ensures { Repaints (holds part.now) (λ p. slice_index pixels.now (place_in part.now p))
        screen.old screen.new }
{
    let rects = part.rects();
    let mut from = 0;
    for rect in rects {
        let count = area(rect);
        put_rect(screen, part, rect, &pixels[from..from + count]);
        from += count;
    }
}

/// Gives the points of a rectangle of the region these pixels, row by row.
fn put_rect(screen: &mut Screen, part: &Region, rect: &Rect, pixels: &[u8])
    requires on { AreOn screen.old.size (has_point rect.now) }
    requires part { (p : Point) → has_point rect.now p ≡ true → holds part.now p ≡ true }
    requires many { length pixels.now ≡ area_of rect.now }
    ensures { Repaints (has_point rect.now) (λ p. slice_index pixels.now (place_within rect.now p))
        screen.old screen.new }
{
    let area = *rect;
    paint_within(screen, part, &Raster { area, pixels });
}

/// The brush that gives the points of an area these pixels, row by row.
#[derive(Drop)]
struct Raster<'a> {
    area: Rect,
    pixels: &'a [u8],
    ghost many: { length pixels.now ≡ area_of area },
}

impl Brush for Raster<'_> {
    ghost area = { λ b. b.area };

    ghost pixel = { λ b p _. slice_index b.pixels.now (place_within b.area p) };

    fn area(&self) -> Rect {
        self.area
    }

    fn paint(&self, run: Run, pixels: &mut [u8]) {
        let from = start_within(&self.area, run);
        copy_row(pixels, &self.pixels[from..from + pixels.len()]);
    }
}

/// The place of a run's first point among those of the rectangle that has it, row by row.
fn start_within(area: &Rect, run: Run) -> usize
    requires some { run.west <ℤ run.east }
    requires within { (p : Point) → in_run run p ≡ true → has_point area.now p ≡ true }
    ensures value { result ≡ place_within area.now (point_in run 0) }
    ensures fits { result + width_of run ≤ area_of area.now }
{
    let (wide, _) = area.size();
    let rows = run.v.abs_diff(area.north());
    let columns = run.west.abs_diff(area.west());
    rows as usize * wide as usize + columns as usize
}

/// The number of points of a rectangle.
fn area(rect: &Rect) -> usize
    ensures { result ≡ area_of rect.now }
{
    let (wide, high) = rect.size();
    wide as usize * high as usize
}

/// The pixels of a screen at the points of a region, by the region's rectangles in order and by rows
/// within each.
pub fn pixels_at(screen: &Screen, part: &Region) -> Result<Vec<u8>, NoMemory>
    requires on { AreOn screen.now.size (holds part.now) }
    ensures many { IfOk result (λ v. length v.items ≡ total_area part.now) }
    ensures pixels { IfOk result (λ v. (p : Point) → holds part.now p ≡ true →
        slice_index v.items (place_in part.now p) ≡ pixel_of screen.now p) }
{
    screen.pixels_at(part.rects())
}
