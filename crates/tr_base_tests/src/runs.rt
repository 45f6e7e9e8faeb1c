//! Runs and rows of screens that are moved.
ghost use Rattle.std.specs.Prelude.{◌≡◌, ◌<◌, ◌≤◌};

use super::ends::made;
use super::screens::shows;
use std::process::Abort;
use tr_base::{Kind, Point, Size};
use tr_screen::{Run, Screen};

/// Three pixels in the east of a row, in the west of it, and in the east of the row south of it.
const EAST: Run = Run {
    v: 1,
    west: 1,
    east: 4,
};

const WEST: Run = Run {
    v: 1,
    west: 0,
    east: 3,
};

const SOUTH: Run = Run {
    v: 2,
    west: 1,
    east: 4,
};

/// Whether a run of a blank screen is lent, and moved.
fn is_lent_and_moved(screen: &mut Screen) -> bool
    requires { screen.old.size ≡ record { wide = 4; high = 3 } }
    ensures { screen.new.size ≡ record { wide = 4; high = 3 } }
{
    screen.run_mut(EAST).copy_from_slice(&[1, 2, 3]);
    let is_lent = shows(screen, 4, 3, &[0, 0, 0, 0, 0, 1, 2, 3, 0, 0, 0, 0]);
    screen.move_run(WEST, Point { h: -1, v: 0 });
    is_lent && shows(screen, 4, 3, &[0, 0, 0, 0, 1, 2, 3, 3, 0, 0, 0, 0])
}

/// Whether runs are moved through a spare row, and then one to the south.
fn are_moved_through(screen: &mut Screen) -> bool
    requires { screen.old.size ≡ record { wide = 4; high = 3 } }
{
    let mut spare = [0; 5];
    screen.move_run_through(EAST, Point { h: 1, v: 0 }, &mut spare);
    let is_east = shows(screen, 4, 3, &[0, 0, 0, 0, 1, 1, 2, 3, 0, 0, 0, 0]);
    screen.move_run_through(WEST, Point { h: -1, v: 0 }, &mut spare);
    screen.move_run(SOUTH, Point { h: 1, v: 1 });
    is_east && shows(screen, 4, 3, &[0, 0, 0, 0, 1, 2, 3, 3, 0, 1, 2, 3])
}

/// Whether runs are lent and moved, also through a spare row.
fn are_moved(rt: &(impl Abort + AllocGlobal)) -> bool {
    let size = Size { wide: 4, high: 3 };
    let mut screen = made(rt, Screen::blank(rt.alloc(), size, Kind::Map8));
    is_lent_and_moved(&mut screen) && are_moved_through(&mut screen)
}

/// A screen of seven rows, each of pixels that are its number.
fn numbered(rt: &(impl Abort + AllocGlobal), wide: u16) -> Screen
    requires { 1 ≤ wide × (wide ≤ 1024) }
    ensures { result.size ≡ record { wide = wide; high = 7 } }
{
    let mut screen = made(
        rt,
        Screen::blank(rt.alloc(), Size { wide, high: 7 }, Kind::Map8),
    );
    fill(&mut screen, 1, 1);
    fill(&mut screen, 2, 2);
    fill(&mut screen, 3, 3);
    fill(&mut screen, 4, 4);
    fill(&mut screen, 5, 5);
    fill(&mut screen, 6, 6);
    screen
}

/// Gives a row one pixel.
fn fill(screen: &mut Screen, v: u16, pixel: u8)
    requires { v < screen.old.size.high }
    ensures { screen.new.size ≡ screen.old.size }
{
    screen.row_mut(v).fill(pixel);
}

/// Whether rows of this width are moved to the south and to the north.
fn are_rows_moved(rt: &(impl Abort + AllocGlobal), wide: u16) -> bool
    requires { 1 ≤ wide × (wide ≤ 1024) }
{
    let mut screen = numbered(rt, wide);
    screen.move_rows(1, 6, Point { h: 0, v: 1 });
    let is_south = has_column(&screen, &[0, 0, 1, 2, 3, 4, 6]);
    screen.move_rows(0, 5, Point { h: 0, v: -2 });
    is_south && has_column(&screen, &[1, 2, 3, 4, 6, 4, 6])
}

/// Whether the rows of a screen begin with these pixels.
fn has_column(screen: &Screen, want: &[u8]) -> bool {
    let high = screen.size().high;
    for v in 0..high {
        if screen.row(v).first() != want.get(usize::from(v)) {
            return false;
        }
    }
    usize::from(high) == want.len()
}

#[test]
fn runs_and_rows_are_moved(rt: HostRuntime) {
    assert!(rt; are_moved(&rt), "runs");
    // rows that are short, and rows that are long enough to be moved piece by piece
    for wide in [3, 100] {
        assert!(rt; are_rows_moved(&rt, wide), "rows of {wide}");
    }
}
