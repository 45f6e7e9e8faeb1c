//! A brush that is led over a region.
ghost use Rattle.tr_region.specs.Points.{holds};
ghost use Rattle.tr_screen.specs.Runs.{Repaints};
ghost use Rattle.tr_exec.specs.Walks.{AreOn, in_area};

use super::ends::made;
use std::process::Abort;
use tr_base::{Kind, Rect, Size, whole};
use tr_exec::{Brush, paint_within};
use tr_region::Region;
use tr_screen::{Run, Screen};

/// One value for each pixel of an area.
#[derive(Clone, Copy)]
struct Fill {
    area: Rect,
    value: u8,
}

impl Brush for Fill {
    ghost area = { λ f. f.area };

    ghost pixel = { λ f _ _. f.value };

    fn area(&self) -> Rect {
        self.area
    }

    fn paint(&self, _run: Run, pixels: &mut [u8]) {
        pixels.fill(self.value);
    }
}

/// Gives the region's points in the area the pixel 7.
fn fill_area(screen: &mut Screen, region: &Region, area: Rect)
    requires { AreOn screen.old.size (holds region.now) }
    ensures { Repaints (in_area (holds region.now) area) (λ _. 7) screen.old screen.new }
{
    paint_within(screen, region, &Fill { area, value: 7 });
}

/// The points of a screen, but those of a rectangle.
fn without(rt: &(impl Abort + AllocGlobal), size: Size, hole: Rect) -> Region
    ensures { AreOn size (holds result) }
{
    let hole = made(rt, Region::of_rect(rt.alloc(), hole));
    let all = made(rt, Region::of_rect(rt.alloc(), whole(size)));
    made(rt, all.minus(&hole))
}

/// Whether a screen of six columns and three rows has these rows after an area is filled, but for a hole.
fn fills(rt: &(impl Abort + AllocGlobal), area: Rect, want: [[u8; 6]; 3]) -> bool {
    let size = Size { wide: 6, high: 3 };
    let mut screen = made(rt, Screen::blank(rt.alloc(), size, Kind::Map8));
    let region = without(rt, screen.size(), Rect::edges(2, 4, 0, 2));
    fill_area(&mut screen, &region, area);
    let north = screen.row(0) == want[0].as_slice() && screen.row(1) == want[1].as_slice();
    north && screen.row(2) == want[2].as_slice()
}

#[test]
fn a_region_is_filled_within_an_area(rt: HostRuntime) {
    let none = [0, 0, 0, 0, 0, 0];
    for (area, want) in [
        (
            Rect::edges(-3, 3, 1, 9),
            [none, [7, 7, 0, 0, 0, 0], [7, 7, 7, 0, 0, 0]],
        ),
        (
            Rect::edges(2, 9, -1, 2),
            [[0, 0, 0, 0, 7, 7], [0, 0, 0, 0, 7, 7], none],
        ),
        (
            Rect::edges(1, 5, 0, 3),
            [[0, 7, 0, 0, 7, 0], [0, 7, 0, 0, 7, 0], [0, 7, 7, 7, 7, 0]],
        ),
        (Rect::edges(2, 4, 0, 2), [none, none, none]),
        (Rect::edges(1, 1, 0, 4), [none, none, none]),
    ] {
        assert!(rt; fills(&rt, area, want), "{area:?}");
    }
}
