ghost use Rattle.std.specs.Prelude.{◌≡◌, ◌≤◌, IsTrue, length};
ghost use Rattle.tr_base.specs.Rects.{before_shift};
ghost use Rattle.tr_region.specs.Bands.{AreApart, spans_of};
ghost use Rattle.tr_region.specs.Points.{holds};
ghost use Rattle.tr_region.specs.Rows.{in_band};
ghost use Rattle.tr_screen.specs.Pictures.{pixel_of};
ghost use Rattle.tr_screen.specs.Runs.{IsRun, Repaints, in_run, run_before};
ghost use Rattle.tr_repair.specs.Walks.{in_row, run_of};
ghost use Rattle.tr_repair.specs.Moves.{MovesOn, IsForth, IsBack, HasAllColumns};

use tr_base::{Point, Rect, Size};
use tr_region::{Band, Region};
use tr_screen::{Run, Screen};

/// The most pixels in a row of a screen.
const ROW: usize = 1024;

/// Each point of the region gets the old pixel of the point that lies `delta` before it, and all
/// others keep theirs. Both points are on the screen.
///
/// No pixel is overwritten before it is read: a move to the north goes from north to south, and along a
/// row a move to the west goes from west to east. The opposite moves go the opposite way.
pub fn move_pixels(screen: &mut Screen, within: &Region, delta: Point)
    requires { MovesOn screen.old.size delta (holds within.now) }
    ensures { Repaints (holds within.now) (λ p. pixel_of screen.old (before_shift p delta))
        screen.old screen.new }
{
    if delta.v < 0 || delta.v == 0 && delta.h <= 0 {
        move_forth(screen, within, delta);
    } else {
        move_back(screen, within, delta);
    }
}

/// Moves the bands from north to south.
fn move_forth(screen: &mut Screen, within: &Region, delta: Point)
    requires moves { MovesOn screen.old.size delta (holds within.now) }
    requires way { IsForth delta }
    ensures { Repaints (holds within.now) (λ p. pixel_of screen.old (before_shift p delta))
        screen.old screen.new }
{
    let high = screen.size().high;
    let mut spare = [0; ROW];
    let mut v = 0;
    while v < high {
        let band = within.first_band(v, high);
        move_band_forth(screen, &band, delta, &mut spare);
        v = band.south;
    }
}

/// Moves the bands from south to north.
fn move_back(screen: &mut Screen, within: &Region, delta: Point)
    requires moves { MovesOn screen.old.size delta (holds within.now) }
    requires way { IsBack delta }
    ensures { Repaints (holds within.now) (λ p. pixel_of screen.old (before_shift p delta))
        screen.old screen.new }
{
    let mut spare = [0; ROW];
    let mut v = screen.size().high;
    while v > 0 {
        let band = within.last_band(0, v);
        move_band_back(screen, &band, delta, &mut spare);
        v = band.north;
    }
}

/// Moves the rows of a band: all at once if they are whole, else from north to south.
fn move_band_forth(screen: &mut Screen, band: &Band<'_>, delta: Point, spare: &mut [u8])
    requires rows { band.now.south ≤ screen.old.size.high }
    requires order { band.now.north ≤ band.now.south }
    requires moves { MovesOn screen.old.size delta
        (in_band band.now.north band.now.south band.now.rects.now) }
    requires apart { AreApart (spans_of band.now.rects.now) }
    requires way { IsForth delta }
    requires room { screen.old.size.wide ≤ length spare.old }
    ensures { Repaints (in_band band.now.north band.now.south band.now.rects.now)
        (λ p. pixel_of screen.old (before_shift p delta)) screen.old screen.new }
{
    if band.north < band.south && are_whole(screen.size(), band.rects) {
        screen.move_rows(band.north, band.south, delta);
        return;
    }
    for v in band.north..band.south {
        move_row_forth(screen, band.rects, v, delta, spare);
    }
}

/// Moves the rows of a band: all at once if they are whole, else from south to north.
fn move_band_back(screen: &mut Screen, band: &Band<'_>, delta: Point, spare: &mut [u8])
    requires rows { band.now.south ≤ screen.old.size.high }
    requires order { band.now.north ≤ band.now.south }
    requires moves { MovesOn screen.old.size delta
        (in_band band.now.north band.now.south band.now.rects.now) }
    requires apart { AreApart (spans_of band.now.rects.now) }
    requires way { IsBack delta }
    requires room { screen.old.size.wide ≤ length spare.old }
    ensures { Repaints (in_band band.now.north band.now.south band.now.rects.now)
        (λ p. pixel_of screen.old (before_shift p delta)) screen.old screen.new }
{
    if band.north < band.south && are_whole(screen.size(), band.rects) {
        screen.move_rows(band.north, band.south, delta);
        return;
    }
    for v in (band.north..band.south).rev() {
        move_row_back(screen, band.rects, v, delta, spare);
    }
}

/// Whether there is one rectangle, and it has all columns of the screen.
fn are_whole(size: Size, rects: &[Rect]) -> bool
    ensures { IsTrue result → HasAllColumns size rects.now }
{
    match rects {
        [rect] => rect.west() <= 0 && i32::from(size.wide) <= rect.east(),
        _ => false,
    }
}

/// Moves the pixels of a row, run by run from west to east.
fn move_row_forth(screen: &mut Screen, row: &[Rect], v: u16, delta: Point, spare: &mut [u8])
    requires moves { MovesOn screen.old.size delta (in_row v row.now) }
    requires apart { AreApart (spans_of row.now) }
    requires way { IsForth delta }
    requires room { screen.old.size.wide ≤ length spare.old }
    ensures { Repaints (in_row v row.now) (λ p. pixel_of screen.old (before_shift p delta))
        screen.old screen.new }
{
    for rect in row {
        move_run(screen, run_in(rect, v), delta, spare);
    }
}

/// Moves the pixels of a row, run by run from east to west.
fn move_row_back(screen: &mut Screen, row: &[Rect], v: u16, delta: Point, spare: &mut [u8])
    requires moves { MovesOn screen.old.size delta (in_row v row.now) }
    requires apart { AreApart (spans_of row.now) }
    requires way { IsBack delta }
    requires room { screen.old.size.wide ≤ length spare.old }
    ensures { Repaints (in_row v row.now) (λ p. pixel_of screen.old (before_shift p delta))
        screen.old screen.new }
{
    for i in (0..row.len()).rev() {
        move_run(screen, run_in(&row[i], v), delta, spare);
    }
}

/// The rectangle's columns in row `v`.
fn run_in(rect: &Rect, v: u16) -> Run
    ensures { result ≡ run_of v rect.now }
{
    Run {
        v: i32::from(v),
        west: rect.west(),
        east: rect.east(),
    }
}

/// Moves the pixels of a run. Along its row they go through a spare row, since a copy that overlaps its
/// source is slower (`bench_rows`).
fn move_run(screen: &mut Screen, run: Run, delta: Point, spare: &mut [u8])
    requires to { IsRun screen.old.size run }
    requires from { IsRun screen.old.size (run_before run delta) }
    requires room { screen.old.size.wide ≤ length spare.old }
    ensures { Repaints (in_run run) (λ p. pixel_of screen.old (before_shift p delta)) screen.old screen.new }
{
    if delta.v == 0 {
        screen.move_run_through(run, delta, spare);
    } else {
        screen.move_run(run, delta);
    }
}
