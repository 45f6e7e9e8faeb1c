ghost use Rattle.std.specs.Prelude.{◌≡◌, ◌+◌, ◌≤◌, pos, max, length, map};
ghost use Rattle.tr_base.specs.Rects.{IsRect, empty_rect, sides_of};
ghost use Rattle.tr_base.specs.Layouts.{longest, farthest, stopped, no_lengths, sums_of, maxima_of, along, shapes_of, turned, placed, preferred_place, IsDomain, IsOffset, IsNear};

use crate::points::Point;
use crate::rects::{Rect, moved};
use crate::shapes::{Shape, Shapes};

/// The greatest length of a window. Sums and products of lengths stop there.
pub const LONGEST: u16 = 4096;

/// The sums of the children's lengths along one axis, down or across.
pub fn sums(down: bool, children: &[Shapes]) -> Shape
    ensures { result ≡ sums_of (map (along down) children.now) }
{
    let mut all = no_lengths();
    for child in children {
        all = sum(&all, &along(down, child));
    }
    all
}

/// The greatest of the children's lengths along one axis, down or across; 0 without children.
pub fn maxima(down: bool, children: &[Shapes]) -> Shape
    ensures { result ≡ maxima_of (map (along down) children.now) }
{
    let mut all = no_lengths();
    for child in children {
        all = maximum(&all, &along(down, child));
    }
    all
}

/// The lengths of a window along one axis, down or across.
pub fn along(down: bool, shapes: &Shapes) -> Shape
    ensures { result ≡ along down shapes.now }
{
    if down { shapes.down } else { shapes.across }
}

/// The shapes of a window from its lengths along one axis, down or across, and along the other.
pub fn shapes_of(down: bool, main: Shape, other: Shape) -> Shapes
    ensures { result ≡ shapes_of down main other }
{
    if down {
        Shapes {
            across: other,
            down: main,
        }
    } else {
        Shapes {
            across: main,
            down: other,
        }
    }
}

/// The shape along one axis of a node without children.
pub fn no_lengths() -> Shape
    ensures { result ≡ no_lengths }
{
    Shape {
        lo: 0,
        pref: 0,
        hi: 0,
    }
}

fn sum(a: &Shape, b: &Shape) -> Shape
    ensures { result ≡ record {
      lo = stopped (a.now.lo + b.now.lo);
      pref = stopped (a.now.pref + b.now.pref);
      hi = stopped (a.now.hi + b.now.hi);
    } }
{
    Shape {
        lo: (a.lo + b.lo).min(LONGEST),
        pref: (a.pref + b.pref).min(LONGEST),
        hi: (a.hi + b.hi).min(LONGEST),
    }
}

fn maximum(a: &Shape, b: &Shape) -> Shape
    ensures { result ≡ record {
      lo = max a.now.lo b.now.lo;
      pref = max a.now.pref b.now.pref;
      hi = max a.now.hi b.now.hi;
    } }
{
    Shape {
        lo: a.lo.max(b.lo),
        pref: a.pref.max(b.pref),
        hi: a.hi.max(b.hi),
    }
}

/// The rectangle of a child that has no place.
pub fn empty_place() -> Rect
    ensures { result ≡ empty_rect }
{
    Rect::edges(0, 0, 0, 0)
}

/// The number of points of a node's rectangle from west to east, and from north to south: at most
/// 4096 each way.
pub fn sides(rect: &Rect) -> (u32, u32)
    requires { IsDomain rect.now }
    ensures sides { result ≡ sides_of rect.now }
    ensures wide { result.0 ≤ longest }
    ensures high { result.1 ≤ longest }
    ensures invariant { IsRect rect.now }
{
    if rect.is_empty() {
        return (0, 0);
    }
    rect.size()
}

/// The rectangle of this size, at most 4096 each way, whose corner is another's corner moved by at
/// most 4096 each way.
pub fn placed(rect: &Rect, by: Point, size: (u32, u32)) -> Rect
    requires domain { IsDomain rect.now }
    requires offset { IsOffset longest by }
    requires wide { size.0 ≤ longest }
    requires high { size.1 ≤ longest }
    ensures { result ≡ placed rect.now by.h by.v size }
{
    let west = moved(rect.west(), by.h);
    let north = moved(rect.north(), by.v);
    let east = moved(west, size.0 as i32);
    let south = moved(north, size.1 as i32);
    Rect::edges(west, east, north, south)
}

/// The place of a child with its preferred size. Its corner is the node's corner, moved by at most
/// 2048 each way. In an empty node the place is empty.
pub fn preferred_place(rect: &Rect, by: Point, child: &Shapes) -> Rect
    requires domain { IsDomain rect.now }
    requires offset { IsOffset farthest by }
    ensures place { result ≡ preferred_place rect.now by child.now }
    ensures near { IsNear farthest result rect.now }
{
    if rect.is_empty() {
        return *rect;
    }
    placed(rect, by, preferred_size(child))
}

fn preferred_size(child: &Shapes) -> (u32, u32)
    ensures size { result ≡ (child.now.across.pref, child.now.down.pref) }
    ensures wide { result.0 ≤ longest }
    ensures high { result.1 ≤ longest }
{
    let across = along(false, child);
    let down = along(true, child);
    (u32::from(across.pref), u32::from(down.pref))
}

/// The sides of a node's rectangle: the side along an axis, down or across, and the other side.
pub fn sides_along(down: bool, rect: &Rect) -> (u32, u32)
    requires { IsDomain rect.now }
    ensures sides { result ≡ sides_of (turned down rect.now) }
    ensures main { result.0 ≤ longest }
    ensures other { result.1 ≤ longest }
    ensures invariant { IsRect rect.now }
{
    let (wide, high) = sides(rect);
    if down { (high, wide) } else { (wide, high) }
}

/// The rectangle of this size whose corner is another's corner, moved. In both pairs the number along
/// the axis, down or across, comes first. Each is at most 4096.
pub fn placed_along(down: bool, rect: &Rect, by: (u32, u32), size: (u32, u32)) -> Rect
    requires domain { IsDomain rect.now }
    requires main { by.0 ≤ longest }
    requires other { by.1 ≤ longest }
    requires main_size { size.0 ≤ longest }
    requires other_size { size.1 ≤ longest }
    ensures { result ≡ turned down (placed (turned down rect.now) (pos by.0) (pos by.1) size) }
{
    let (main, other) = (by.0 as i32, by.1 as i32);
    if down {
        placed(rect, Point { h: other, v: main }, (size.1, size.0))
    } else {
        placed(rect, Point { h: main, v: other }, size)
    }
}
