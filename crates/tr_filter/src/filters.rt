ghost use Rattle.std.specs.Prelude.{◌≡◌, ◌≤◌, pos, neg_ℤ, ◌+ℤ◌, ◌-ℤ◌, ◌≤ℤ◌};
ghost use Rattle.tr_base.specs.Rects.{InReach, empty_rect};
ghost use Rattle.tr_base.specs.Layouts.{longest, farthest, preferred_place, IsDomain, IsOffset, IsPartOf, IsNear};
ghost use Rattle.tr_filter.specs.Filters.{widened, border_shape, fixed, rigid_shape, loosened, translate_shape, border_place};

use tr_base::{LONGEST, Point, Rect, Shape, Shapes, Size, preferred_place};

/// The shape of a border of this width on all four sides around a child. Without a child, pass the
/// shape of a node without children, 0 in all lengths.
pub fn border_shape(width: u8, child: Shapes) -> Shapes
    ensures { result ≡ border_shape width child }
{
    let both = 2 * u16::from(width);
    Shapes {
        across: widened(&child.across, both),
        down: widened(&child.down, both),
    }
}

/// The shape of a node of this size, of at most 4096 points each way.
pub fn rigid_shape(size: Size) -> Shapes
    requires wide { size.wide ≤ longest }
    requires high { size.high ≤ longest }
    ensures { result ≡ rigid_shape size }
{
    Shapes {
        across: fixed(size.wide),
        down: fixed(size.high),
    }
}

/// The shape of a node that moves its child. Without a child, pass 0 in all lengths.
pub fn translate_shape(child: Shapes) -> Shapes
    ensures { result ≡ translate_shape child }
{
    Shapes {
        across: loosened(&child.across),
        down: loosened(&child.down),
    }
}

/// The place of a border's child: empty, or within the node's rectangle.
pub fn border_place(rect: Rect, width: u8) -> Rect
    requires { IsDomain rect }
    ensures place { result ≡ border_place rect width }
    ensures part { IsPartOf result rect }
    ensures empty { rect ≡ empty_rect → result ≡ empty_rect }
{
    Rect::edges(
        raised(rect.west(), width),
        lowered(rect.east(), width),
        raised(rect.north(), width),
        lowered(rect.south(), width),
    )
}

/// The place of the child of a node with an offset of at most 2048 each way. The child may reach past
/// the node: it is empty, or its corner is within 2048 of the node's along each axis and its sides are
/// at most 4096.
pub fn translate_place(rect: Rect, by: Point, child: Shapes) -> Rect
    requires domain { IsDomain rect }
    requires offset { IsOffset farthest by }
    ensures place { result ≡ preferred_place rect by child }
    ensures near { IsNear farthest result rect }
    ensures empty { rect ≡ empty_rect → result ≡ empty_rect }
{
    preferred_place(&rect, by, &child)
}

fn raised(edge: i32, by: u8) -> i32
    requires low { neg_ℤ (pos 131072) ≤ℤ edge }
    requires high { edge ≤ℤ pos 131072 }
    ensures value { result ≡ edge +ℤ pos by }
    ensures reach { InReach result }
{
    edge + i32::from(by)
}

fn lowered(edge: i32, by: u8) -> i32
    requires low { neg_ℤ (pos 131072) ≤ℤ edge }
    requires high { edge ≤ℤ pos 131072 }
    ensures value { result ≡ edge -ℤ pos by }
    ensures reach { InReach result }
{
    edge - i32::from(by)
}

fn widened(lengths: &Shape, by: u16) -> Shape
    requires { by ≤ 510 }
    ensures { result ≡ widened by lengths.now }
{
    Shape {
        lo: (lengths.lo + by).min(LONGEST),
        pref: (lengths.pref + by).min(LONGEST),
        hi: (lengths.hi + by).min(LONGEST),
    }
}

fn fixed(length: u16) -> Shape
    requires { length ≤ longest }
    ensures { result ≡ fixed length }
{
    Shape {
        lo: length,
        pref: length,
        hi: length,
    }
}

fn loosened(lengths: &Shape) -> Shape
    ensures { result ≡ loosened lengths.now }
{
    Shape {
        lo: 0,
        pref: lengths.pref,
        hi: LONGEST,
    }
}
