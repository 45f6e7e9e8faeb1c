ghost use Rattle.std.specs.Prelude.{◌≡◌, ◌+◌, ◌≤◌, List, length, vec_len, map, All, AllPairs, IfOk, OnOk};
ghost use Rattle.tr_base.specs.Rects.{empty_rect};
ghost use Rattle.tr_base.specs.Layouts.{longest, along as along_of, IsDomain, IsPartOf, ShareNoPoint};
ghost use Rattle.tr_pack.specs.Cuts.{Extent, extents, cut, IsRowCut};
ghost use Rattle.tr_pack.specs.Packs.{lengths_along, lengths_beside, pack_shape, room_of, places_in, pack_places};
ghost use Rattle.tr_pack.specs.Pens.{moved_for, passed};

use std::alloc::Global;
use tr_base::{
    LONGEST, NoMemory, Rect, Shape, Shapes, along, empty_place, maxima, no_lengths, placed_along,
    shapes_of, sides_along, sums,
};

/// The shape of a node that packs its children in rows, which go across, or down if `down` is true, with
/// `gap` points between neighbours. Without children it is 0.
pub fn pack_shape(down: bool, gap: u8, children: &[Shapes]) -> Shapes
    requires { length children.now ≤ 255 }
    ensures { result ≡ pack_shape down gap children.now }
{
    shapes_of(
        down,
        lengths_along(down, gap, children),
        lengths_beside(!down, children),
    )
}

/// The places of the children of a node that packs them in rows. A row takes children as long as they
/// fit, one at least, and is as deep as its deepest child. The rows go across, one below another, or
/// down, one east of another, with `gap` points between neighbours in a row and between rows. The node
/// cuts everything that reaches past it.
pub fn pack_place(
    alloc: Global,
    rect: Rect,
    down: bool,
    gap: u8,
    children: &[Shapes],
) -> Result<Vec<Rect>, NoMemory>
    requires { IsDomain rect }
    ensures places { IfOk result (λ v. v.items ≡ pack_places down gap rect children.now) }

    // The rows are the right cut, and every right cut gives these rectangles.
    ensures cut { let room = room_of down rect in let xs = extents down room children.now in
        OnOk result (IsRowCut room gap xs (cut room gap xs)) }
    ensures only { let room = room_of down rect in let xs = extents down room children.now in
        IfOk result (λ v. (rows : List (List Extent)) →
        IsRowCut room gap xs rows → v.items ≡ places_in down gap rect rows) }

    ensures count { IfOk result (λ v. vec_len v ≡ length children.now) }
    ensures part { IfOk result (λ v. All (λ child. IsPartOf child rect) v.items) }
    ensures apart { IfOk result (λ v. AllPairs ShareNoPoint v.items) }
    ensures empty { rect ≡ empty_rect → IfOk result (λ v. All (λ child. child ≡ empty_rect) v.items) }
{
    let mut places = vec![in alloc; empty_place(); children.len()]?;
    pack_place_into(rect, Rows { down, gap }, children, &mut places);
    Ok(places)
}

/// The direction of a packing node's rows, and the number of points between neighbours.
#[derive(Clone, Copy, Debug, PartialEq, Eq)]
pub struct Rows {
    /// The rows go down, one east of another, and not across, one below another.
    pub down: bool,
    /// The points between neighbours in a row, and between rows.
    pub gap: u8,
}

/// The same as `pack_place`, put into a slice of the caller: it has as many rectangles as there are
/// children, of any value. Nothing is allocated.
pub fn pack_place_into(rect: Rect, rows: Rows, children: &[Shapes], rects: &mut [Rect])
    requires domain { IsDomain rect }
    requires room { length rects.old ≡ length children.now }
    ensures places { rects.new ≡ pack_places rows.down rows.gap rect children.now }
    ensures part { All (λ child. IsPartOf child rect) rects.new }
    ensures apart { AllPairs ShareNoPoint rects.new }
    ensures empty { rect ≡ empty_rect → All (λ child. child ≡ empty_rect) rects.new }
{
    let (room, side) = sides_along(rows.down, &rect);
    let mut pen = Pen {
        along: 0,
        start: 0,
        deep: 0,
    };
    for (i, child) in children.iter().enumerate() {
        let long = preferred(rows.down, child).min(room);
        let deep = preferred(!rows.down, child);
        pen = moved_for((room, side), rows.gap, &pen, long);
        let whole = placed_along(rows.down, &rect, (pen.along, pen.start), (long, deep));
        rects[i] = rect.meet(&whole);
        pen = passed(rows.gap, &pen, long, deep);
    }
}

/// The place for the next child.
#[derive(Clone, Copy, Debug, PartialEq, Eq)]
struct Pen {
    /// Its distance along its row.
    along: u32,
    /// The beginning of that row.
    start: u32,
    /// The depth of the row so far.
    deep: u32,
}

/// The place for a child of this length: the next one in its row, if the child fits there, or else
/// the first one in the next row.
fn moved_for(sides: (u32, u32), gap: u8, pen: &Pen, long: u32) -> Pen
    requires room { sides.0 ≤ longest }
    requires side { sides.1 ≤ longest }
    requires along { pen.now.along ≤ sides.0 + 255 }
    requires start { pen.now.start ≤ sides.1 }
    requires deep { pen.now.deep ≤ longest }
    requires long { long ≤ sides.0 }
    ensures pen { result ≡ moved_for sides.0 sides.1 gap pen.now long }
    ensures along { result.along + long ≤ sides.0 }
    ensures start { result.start ≤ sides.1 }
    ensures deep { result.deep ≤ pen.now.deep }
{
    if pen.along + long <= sides.0 {
        *pen
    } else {
        Pen {
            along: 0,
            start: (pen.start + pen.deep + u32::from(gap)).min(sides.1),
            deep: 0,
        }
    }
}

/// The place after a child.
fn passed(gap: u8, pen: &Pen, long: u32, deep: u32) -> Pen
    requires along { pen.now.along ≤ longest }
    requires long { long ≤ longest }
    ensures { result ≡ passed gap pen.now long deep }
{
    Pen {
        along: pen.along + long + u32::from(gap),
        start: pen.start,
        deep: pen.deep.max(deep),
    }
}

/// The length that a child prefers along one axis.
fn preferred(down: bool, child: &Shapes) -> u32
    ensures pref { result ≡ (along_of down child.now).pref }
    ensures limit { result ≤ longest }
{
    let lengths = along(down, child);
    u32::from(lengths.pref)
}

fn lengths_along(down: bool, gap: u8, children: &[Shapes]) -> Shape
    requires { length children.now ≤ 255 }
    ensures { result ≡ lengths_along gap (map (along_of down) children.now) }
{
    if children.is_empty() {
        return no_lengths();
    }
    let most = maxima(down, children);
    let all = sums(down, children);
    let gaps = u32::from(gap) * (children.len() as u32 - 1);
    Shape {
        lo: most.lo,
        pref: (u32::from(all.pref) + gaps).min(u32::from(LONGEST)) as u16,
        hi: LONGEST,
    }
}

fn lengths_beside(down: bool, children: &[Shapes]) -> Shape
    ensures { result ≡ lengths_beside (map (along_of down) children.now) }
{
    if children.is_empty() {
        return no_lengths();
    }
    let most = maxima(down, children);
    Shape {
        lo: most.lo,
        pref: most.pref,
        hi: LONGEST,
    }
}
