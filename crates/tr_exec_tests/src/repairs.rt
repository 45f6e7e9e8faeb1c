//! Pixels that are moved, and regions of good points.
ghost use Rattle.std.specs.Prelude.{◌≡◌, ◌≤◌, ◌≤ℤ◌, neg_ℤ, pos, true};
ghost use Rattle.tr_base.specs.declared.Point.{Point};
ghost use Rattle.tr_region.specs.Points.{holds};
ghost use Rattle.tr_repair.specs.Moves.{MovesOn};
ghost use Rattle.tr_repair.specs.Near.{IsAround};

use super::ends::made;
use std::process::Abort;
use tr_base::{Kind, Point, Rect, Size, whole};
use tr_region::Region;
use tr_repair::{move_pixels, shifted, still_good};
use tr_screen::Screen;

/// A screen of 4 by 3 pixels, 1 to 12 row after row.
fn numbered(rt: &(impl Abort + AllocGlobal)) -> Screen
    ensures { result.size ≡ record { wide = 4; high = 3 } }
{
    let size = Size { wide: 4, high: 3 };
    let mut screen = made(rt, Screen::blank(rt.alloc(), size, Kind::Map8));
    screen.row_mut(0).copy_from_slice(&[1, 2, 3, 4]);
    screen.row_mut(1).copy_from_slice(&[5, 6, 7, 8]);
    screen.row_mut(2).copy_from_slice(&[9, 10, 11, 12]);
    screen
}

/// The points of a screen whose pixels can come from `delta` before them.
fn movable(rt: &(impl Abort + AllocGlobal), size: Size, delta: Point) -> Region
    requires wide { size.wide ≤ 1024 }
    requires high { size.high ≤ 1024 }
    requires west { neg_ℤ (pos 1024) ≤ℤ delta.h }
    requires east { delta.h ≤ℤ pos 1024 }
    requires north { neg_ℤ (pos 1024) ≤ℤ delta.v }
    requires south { delta.v ≤ℤ pos 1024 }
    ensures { MovesOn size delta (holds result) }
{
    let all = whole(size);
    made(rt, Region::of_rect(rt.alloc(), all.meet(&all.shift(delta))))
}

/// Whether a numbered screen has these rows.
fn shows(screen: &Screen, want: [[u8; 4]; 3]) -> bool
    requires { screen.now.size ≡ record { wide = 4; high = 3 } }
{
    let north = screen.row(0) == want[0].as_slice() && screen.row(1) == want[1].as_slice();
    north && screen.row(2) == want[2].as_slice()
}

/// Whether a numbered screen has these rows once all of it is moved.
fn becomes(rt: &(impl Abort + AllocGlobal), h: i32, v: i32, want: [[u8; 4]; 3]) -> bool
    requires west { neg_ℤ (pos 1024) ≤ℤ h }
    requires east { h ≤ℤ pos 1024 }
    requires north { neg_ℤ (pos 1024) ≤ℤ v }
    requires south { v ≤ℤ pos 1024 }
{
    let delta = Point { h, v };
    let mut screen = numbered(rt);
    let within = movable(rt, screen.size(), delta);
    move_pixels(&mut screen, &within, delta);
    shows(&screen, want)
}

/// Whether the points of a hole stay where others are moved to the east.
fn leaves_a_hole(rt: &(impl Abort + AllocGlobal)) -> bool {
    let delta = Point { h: 1, v: 0 };
    let mut screen = numbered(rt);
    let hole = made(rt, Region::of_rect(rt.alloc(), Rect::edges(2, 3, 0, 2)));
    let all = movable(rt, screen.size(), delta);
    let within = made(rt, all.minus(&hole));
    move_pixels(&mut screen, &within, delta);
    let want = [[1, 1, 3, 3], [5, 5, 7, 7], [9, 9, 10, 11]];
    shows(&screen, want)
}

#[test]
fn pixels_are_read_before_they_are_written(rt: HostRuntime) {
    for (h, v, want) in [
        (1, 1, [[1, 2, 3, 4], [5, 1, 2, 3], [9, 5, 6, 7]]),
        (-1, 1, [[1, 2, 3, 4], [2, 3, 4, 8], [6, 7, 8, 12]]),
        (1, -1, [[1, 5, 6, 7], [5, 9, 10, 11], [9, 10, 11, 12]]),
        (0, 1, [[1, 2, 3, 4], [1, 2, 3, 4], [5, 6, 7, 8]]),
        (0, -1, [[5, 6, 7, 8], [9, 10, 11, 12], [9, 10, 11, 12]]),
        (1, 0, [[1, 1, 2, 3], [5, 5, 6, 7], [9, 9, 10, 11]]),
        (-2, 0, [[3, 4, 3, 4], [7, 8, 7, 8], [11, 12, 11, 12]]),
        (4, 0, [[1, 2, 3, 4], [5, 6, 7, 8], [9, 10, 11, 12]]),
    ] {
        assert!(rt; becomes(&rt, h, v, want), "by {h} {v}");
    }
    assert!(rt; leaves_a_hole(&rt));
}

/// Whether just the good points are still good that stay in one region, or none where no region is left.
fn are_still_good(rt: &(impl Abort + AllocGlobal)) -> bool {
    let good = made(rt, Region::of_rect(rt.alloc(), Rect::edges(0, 4, 0, 2)));
    let west = made(rt, Region::of_rect(rt.alloc(), Rect::edges(0, 2, 0, 3)));
    let east = made(rt, Region::of_rect(rt.alloc(), Rect::edges(2, 4, 0, 3)));
    let more = made(rt, Region::of_rect(rt.alloc(), Rect::edges(0, 3, 0, 3)));
    let less = made(rt, Region::of_rect(rt.alloc(), Rect::edges(3, 4, 0, 3)));
    let still = made(
        rt,
        still_good(rt.alloc(), &good, &[west, east], &[more, less]),
    );
    let none = made(rt, still_good(rt.alloc(), &good, &[], &[]));
    let want = [Rect::edges(0, 2, 0, 2), Rect::edges(3, 4, 0, 2)];
    still.rects() == want.as_slice() && none.is_empty()
}

/// The points of the screen of 4 by 3 pixels in its first row and its first column.
fn corner(rt: &(impl Abort + AllocGlobal)) -> Region
    ensures { (p : Point) → holds result p ≡ true → IsAround p }
{
    let all = made(rt, Region::of_rect(rt.alloc(), Rect::edges(0, 4, 0, 3)));
    let rest = made(rt, Region::of_rect(rt.alloc(), Rect::edges(1, 4, 1, 3)));
    made(rt, all.minus(&rest))
}

/// Whether a region is moved both ways.
fn is_moved(rt: &(impl Abort + AllocGlobal)) -> bool {
    let moved = made(rt, shifted(&corner(rt), Point { h: 10, v: -2 }));
    let want = [Rect::edges(10, 14, -2, -1), Rect::edges(10, 11, -1, 1)];
    moved.rects() == want.as_slice()
}

#[test]
fn regions_are_moved_and_kept(rt: HostRuntime) {
    assert!(rt; are_still_good(&rt));
    assert!(rt; is_moved(&rt));
}
