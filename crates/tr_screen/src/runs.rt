ghost use Rattle.std.specs.Prelude.{◌≡◌, ◌+◌, ◌*◌, ◌<◌, ◌≤◌, pos, ◌-ℤ◌, ◌≤ℤ◌};
ghost use Rattle.tr_base.specs.Rects.{sides_of, IsScreenSize};
ghost use Rattle.tr_screen.specs.Readings.{row_in};
ghost use Rattle.tr_screen.specs.Runs as spec;

use tr_base::{Point, Rect, Size};

/// Points side by side in a row: those of row `v` with `west <= h < east`.
#[derive(Clone, Copy, Debug, PartialEq, Eq)]
pub struct Run {
    pub v: i32,
    pub west: i32,
    pub east: i32,
}

/// The place of the run's first point among the pixels of a screen, row by row.
pub fn start_of(size: Size, run: Run) -> usize
    requires size { IsScreenSize size }
    requires run { spec.IsRun size run }
    ensures value { result ≡ spec.start_of size run }
    ensures fits { result + spec.width_of run ≤ size.high * size.wide }
{
    let first = Point {
        h: run.west,
        v: run.v,
    };
    index_of(size, first)
}

/// The place of a point among the pixels of a screen, row by row.
pub fn index_of(size: Size, p: Point) -> usize
    ensures { result ≡ spec.pixel_index size p }
{
    p.v.unsigned_abs() as usize * usize::from(size.wide) + p.h.unsigned_abs() as usize
}

/// The number of points of the run.
pub fn width_of(size: Size, run: Run) -> usize
    requires size { IsScreenSize size }
    requires run { spec.IsRun size run }
    ensures value { result ≡ spec.width_of run }
    ensures small { result ≤ 1024 }
{
    (run.east - run.west).unsigned_abs() as usize
}

/// The first points of row `v`.
pub fn row_start(v: u16, wide: u16) -> Run
    ensures { result ≡ spec.row_start v wide }
{
    Run {
        v: i32::from(v),
        west: 0,
        east: i32::from(wide),
    }
}

/// The run that a move of `delta` brings here.
pub fn source_of(size: Size, run: Run, delta: Point) -> Run
    requires size { IsScreenSize size }
    requires run { spec.IsRun size (spec.run_before run delta) }
    ensures { result ≡ spec.run_before run delta }
{
    Run {
        v: run.v - delta.v,
        west: run.west - delta.h,
        east: run.east - delta.h,
    }
}

/// The row that a move of `delta` brings to row `v`.
pub fn row_before(v: u16, delta: Point) -> usize
    requires low { pos 0 ≤ℤ (pos v -ℤ delta.v) }
    requires high { (pos v -ℤ delta.v) ≤ℤ pos 1024 }
    ensures { pos result ≡ pos v -ℤ delta.v }
{
    (i32::from(v) - delta.v) as usize
}

/// Row `n` of a rectangle, counted from its north.
pub fn row_in(rect: &Rect, n: u32) -> Run
    requires { n < (sides_of rect.now).1 }
    ensures { result ≡ row_in rect.now n }
{
    rect.invariant();
    Run {
        v: rect.north() + n as i32,
        west: rect.west(),
        east: rect.east(),
    }
}
