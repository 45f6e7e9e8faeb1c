//! The pixels of screens.
ghost use Rattle.std.specs.Prelude.{◌≡◌, ◌≤◌};

use super::ends::made;
use std::process::Abort;
use tr_base::{Kind, Point, Size};
use tr_screen::Screen;

/// Whether a screen has this size and these pixels, row after row.
pub fn shows(screen: &Screen, wide: u16, high: u16, want: &[u8]) -> bool {
    let size = screen.size();
    if size.wide != wide || size.high != high {
        return false;
    }
    let mut rest = want;
    for v in 0..size.high {
        let row = screen.row(v);
        let Some((first, others)) = rest.split_at_checked(row.len()) else {
            return false;
        };
        if row != first {
            return false;
        }
        rest = others;
    }
    rest.is_empty()
}

/// A blank screen of 256 colours.
pub fn blank(rt: &(impl Abort + AllocGlobal), wide: u16, high: u16) -> Screen
    requires wide { 1 ≤ wide × (wide ≤ 1024) }
    requires high { 1 ≤ high × (high ≤ 1024) }
    ensures { result.size ≡ record { wide = wide; high = high } }
{
    made(
        rt,
        Screen::blank(rt.alloc(), Size { wide, high }, Kind::Map8),
    )
}

/// Whether pixels are read where they were written.
fn are_read(rt: &(impl Abort + AllocGlobal)) -> bool {
    let mut screen = blank(rt, 2, 3);
    let is_blank = shows(&screen, 2, 3, &[0; 6]);
    screen.row_mut(1)[1] = 9;
    screen.row_mut(2).copy_from_slice(&[7, 8]);
    let is_read = screen.at(Point { h: 1, v: 1 }) == 9 && screen.at(Point { h: 0, v: 2 }) == 7;
    is_blank && is_read && shows(&screen, 2, 3, &[0, 0, 0, 9, 7, 8])
}

/// Whether the greatest screen is blank, and then filled.
fn is_filled(rt: &(impl Abort + AllocGlobal)) -> bool {
    let mut screen = blank(rt, 1024, 1024);
    let last = Point { h: 1023, v: 1023 };
    let is_blank = screen.at(last) == 0;
    screen.fill(1);
    is_blank && screen.at(last) == 1 && screen.row(1023).len() == 1024
}

/// Whether the points that two screens have in common keep their pixels.
fn are_kept(rt: &(impl Abort + AllocGlobal)) -> bool {
    let mut screen = blank(rt, 2, 1);
    screen.row_mut(0)[0] = 5;
    let wider = made(rt, screen.resized(Size { wide: 3, high: 1 }, Kind::Map8));
    let mut higher = made(rt, wider.resized(Size { wide: 3, high: 2 }, Kind::Map8));
    higher.row_mut(1).copy_from_slice(&[6, 7, 8]);
    let are_first = shows(&screen, 2, 1, &[5, 0]) && shows(&wider, 3, 1, &[5, 0, 0]);
    are_first && shows(&higher, 3, 2, &[5, 0, 0, 6, 7, 8]) && are_cut(rt, &higher)
}

/// Whether a screen of three columns and two rows is cut to fewer columns.
fn are_cut(rt: &impl Abort, higher: &Screen) -> bool {
    let narrow = made(rt, higher.resized(Size { wide: 2, high: 3 }, Kind::Map8));
    let least = made(rt, higher.resized(Size { wide: 1, high: 1 }, Kind::Map8));
    shows(&narrow, 2, 3, &[5, 0, 6, 7, 0, 0]) && shows(&least, 1, 1, &[5])
}

/// Whether a filled screen of one kind has these pixels as one of another kind.
fn becomes(rt: &(impl Abort + AllocGlobal), from: Kind, to: Kind, want: &[u8]) -> bool {
    let size = Size { wide: 2, high: 1 };
    let mut screen = made(rt, Screen::blank(rt.alloc(), size, from));
    screen.fill(1);
    let resized = made(rt, screen.resized(size, to));
    resized.kind() == to && shows(&resized, 2, 1, want)
}

#[test]
fn screens_have_their_pixels(rt: HostRuntime) {
    assert!(rt; are_read(&rt), "read");
    assert!(rt; is_filled(&rt), "filled");
    assert!(rt; are_kept(&rt), "kept");
    for (from, to, pixel) in [
        (Kind::Mono, Kind::Mono, 1),
        (Kind::Mono, Kind::Map4, 0),
        (Kind::Map4, Kind::Map4, 1),
        (Kind::Map4, Kind::Map8, 0),
        (Kind::Map8, Kind::Map8, 1),
        (Kind::Map8, Kind::Mono, 0),
    ] {
        assert!(rt; becomes(&rt, from, to, &[pixel; 2]), "{from:?} to {to:?}");
    }
}
