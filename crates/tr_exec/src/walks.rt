ghost use Rattle.std.specs.Prelude.{◌≡◌, ℕ, ◌<◌, ◌≤◌, ◌<ℤ◌, ◌↔◌, [], ◌∷◌, true, All, IfSome, IsTrue, length, slice_index};
ghost use Rattle.tr_base.specs.declared.Point.{Point};
ghost use Rattle.tr_base.specs.Rects.{Edges, has_point};
ghost use Rattle.tr_region.specs.Bands.{AreApart, spans_of};
ghost use Rattle.tr_region.specs.Points.{holds};
ghost use Rattle.tr_region.specs.Rows.{in_band};
ghost use Rattle.tr_screen.specs.Pictures.{pixel_of};
ghost use Rattle.tr_screen.specs.Runs.{IsRun, Repaints, in_run, point_in, width_of};
ghost use Rattle.tr_repair.specs.Walks.{in_row, run_of};
ghost use Rattle.tr_exec.specs.Walks.{AreOn, HasColumns, HasRow, IsRowOf, Meets, in_area, in_columns_of};

use tr_base::{Rect, greater, lesser};
use tr_region::{Band, Region, nearest_row};
use tr_screen::{Run, Screen};

/// The new pixels of an area, each by its point.
pub trait Brush {
    ghost area: { Self → Edges };

    ghost pixel: { Self → Point → ℕ → ℕ };

    /// The rectangle outside which it paints nothing, in the screen's coordinates.
    fn area(&self) -> Rect
        ensures { result ≡ area self.now };

    /// The pixel that the brush gives each point, if it is one for all points. Rows that lie wholly in the
    /// area are then filled as one block.
    fn filling(&self) -> Option<u8>
        ensures { IfSome result (λ x. (p : Point) (old : ℕ) → pixel self.now p old ≡ x) }
    {
        None
    }

    /// Paints the pixels of a run. All points of the run lie in the area.
    fn paint(&self, run: Run, pixels: &mut [u8])
        requires long { length pixels.old ≡ width_of run }
        requires some { run.west <ℤ run.east }
        requires within { (p : Point) → in_run run p ≡ true → has_point (area self.now) p ≡ true }
        ensures { (k : ℕ) → k < length pixels.old →
            slice_index pixels.new k ≡ pixel self.now (point_in run k) (slice_index pixels.old k) };
}

/// Paints the points of a region that lie in the brush's area, and no others: row by row, and in each
/// row run by run. Its cost grows with the rows of the area that the region has, and with the rectangles
/// that they meet.
pub fn paint_within<B: Brush>(screen: &mut Screen, visible: &Region, brush: &B)
    requires { AreOn screen.old.size (in_area (holds visible.now) (B.area brush.now)) }
    ensures { let test = in_area (holds visible.now) (B.area brush.now) in
        Repaints test (λ p. B.pixel brush.now p (pixel_of screen.old p)) screen.old screen.new }
{
    let area = brush.area();
    if area.is_empty() {
        return;
    }
    let high = screen.size().high;
    let south = nearest_row(area.south(), 0, high);
    let mut v = nearest_row(area.north(), 0, high);
    while v < south {
        let band = visible.first_band(v, south);
        paint_band(screen, &band, brush);
        v = band.south;
    }
}

/// Paints the points of a band that lie in the brush's area, which has points in each row of the band.
fn paint_band<B: Brush>(screen: &mut Screen, band: &Band<'_>, brush: &B)
    requires order { band.now.north ≤ band.now.south }
    requires high { band.now.south ≤ screen.old.size.high }
    requires rows { (v : ℕ) → band.now.north ≤ v → v < band.now.south → HasRow (B.area brush.now) v }
    requires apart { AreApart (spans_of band.now.rects.now) }
    requires on { let held = in_band band.now.north band.now.south band.now.rects.now in
        AreOn screen.old.size (in_area held (B.area brush.now)) }
    ensures { let held = in_band band.now.north band.now.south band.now.rects.now in
        Repaints (in_area held (B.area brush.now))
        (λ p. B.pixel brush.now p (pixel_of screen.old p)) screen.old screen.new }
{
    let area = brush.area();
    let row = band.between(area.west(), area.east());
    // Most bands have one rectangle.
    if row.len() == 1 {
        paint_single(screen, band, row[0], brush);
    } else {
        paint_rows(screen, band, row, brush);
    }
}

/// The same, by the one rectangle of the band that has columns of the area.
#[inline(always)]
fn paint_single<B: Brush>(screen: &mut Screen, band: &Band<'_>, rect: Rect, brush: &B)
    requires order { band.now.north ≤ band.now.south }
    requires high { band.now.south ≤ screen.old.size.high }
    requires rows { (v : ℕ) → band.now.north ≤ v → v < band.now.south → HasRow (B.area brush.now) v }
    requires row { IsRowOf (B.area brush.now) band.now.rects.now (rect ∷ []) }
    requires on { let held = in_band band.now.north band.now.south band.now.rects.now in
        AreOn screen.old.size (in_area held (B.area brush.now)) }
    ensures { let held = in_band band.now.north band.now.south band.now.rects.now in
        Repaints (in_area held (B.area brush.now))
        (λ p. B.pixel brush.now p (pixel_of screen.old p)) screen.old screen.new }
{
    let wide = screen.size().wide;
    if let Some(pixel) = filling_of_rows(brush, &rect, wide) {
        screen.fill_rows(band.north, band.south, pixel);
    } else {
        // This call has exactly one rectangle, whose columns are the same in each row.
        paint_rows(screen, band, &[rect], brush);
    }
}

/// The pixel that fills whole rows of a screen of this width, if the rectangle and the brush's area have
/// all columns.
fn filling_of_rows<B: Brush>(brush: &B, rect: &Rect, wide: u16) -> Option<u8>
    ensures area { IfSome result (λ x. HasColumns wide (B.area brush.now)) }
    ensures rect { IfSome result (λ x. HasColumns wide rect.now) }
    ensures pixel { IfSome result (λ x. (p : Point) (old : ℕ) → B.pixel brush.now p old ≡ x) }
{
    if has_columns(&brush.area(), wide) && has_columns(rect, wide) {
        brush.filling()
    } else {
        None
    }
}

/// Whether a rectangle has all columns of a screen of this width.
fn has_columns(rect: &Rect, wide: u16) -> bool
    ensures { IsTrue result ↔ HasColumns wide rect.now }
{
    rect.west() <= 0 && i32::from(wide) <= rect.east()
}

/// The same, by the band's rectangles that have columns of the area.
#[inline(always)]
fn paint_rows<B: Brush>(screen: &mut Screen, band: &Band<'_>, row: &[Rect], brush: &B)
    requires order { band.now.north ≤ band.now.south }
    requires rows { (v : ℕ) → band.now.north ≤ v → v < band.now.south → HasRow (B.area brush.now) v }
    requires row { IsRowOf (B.area brush.now) band.now.rects.now row.now }
    requires on { let held = in_band band.now.north band.now.south band.now.rects.now in
        AreOn screen.old.size (in_area held (B.area brush.now)) }
    ensures { let held = in_band band.now.north band.now.south band.now.rects.now in
        Repaints (in_area held (B.area brush.now))
        (λ p. B.pixel brush.now p (pixel_of screen.old p)) screen.old screen.new }
{
    for v in band.north..band.south {
        paint_row(screen, row, v, brush);
    }
}

/// Paints the points of a row that lie in the brush's area. Each rectangle of the row has columns of it.
fn paint_row<B: Brush>(screen: &mut Screen, row: &[Rect], v: u16, brush: &B)
    requires row { HasRow (B.area brush.now) v }
    requires meet { All (Meets (B.area brush.now)) row.now }
    requires apart { AreApart (spans_of row.now) }
    requires on { AreOn screen.old.size (in_area (in_row v row.now) (B.area brush.now)) }
    ensures { Repaints (in_area (in_row v row.now) (B.area brush.now))
        (λ p. B.pixel brush.now p (pixel_of screen.old p)) screen.old screen.new }
{
    let area = brush.area();
    for rect in row {
        paint_run(screen, cut(rect, &area, v), brush);
    }
}

/// A rectangle's columns in row `v`, cut to those of an area.
fn cut(rect: &Rect, area: &Rect, v: u16) -> Run
    ensures { result ≡ run_of v (in_columns_of area.now rect.now) }
{
    Run {
        v: i32::from(v),
        west: greater(rect.west(), area.west()),
        east: lesser(rect.east(), area.east()),
    }
}

/// Paints a run of points of the brush's area.
fn paint_run<B: Brush>(screen: &mut Screen, run: Run, brush: &B)
    requires on { IsRun screen.old.size run }
    requires within { (p : Point) → in_run run p ≡ true → has_point (B.area brush.now) p ≡ true }
    ensures { Repaints (in_run run) (λ p. B.pixel brush.now p (pixel_of screen.old p)) screen.old screen.new }
{
    brush.paint(run, screen.run_mut(run));
}
