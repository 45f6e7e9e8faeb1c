ghost use Rattle.std.specs.Prelude.{◌≡◌, ◌+◌, ◌-◌, ◌*◌, ◌≤◌, min, length, vec_len, map, sum_by, All, AllPairs, IfOk};
ghost use Rattle.tr_base.specs.Rects.{empty_rect};
ghost use Rattle.tr_base.specs.Layouts.{longest, along as along_of, IsDomain, IsPartOf, ShareNoPoint};
ghost use Rattle.tr_hv.specs.Places.{hv_shape, places};
ghost use Rattle.tr_hv.specs.Sums.{AreAtMost};

use std::alloc::Global;
use tr_base::{
    NoMemory, Rect, Shape, Shapes, along, empty_place, maxima, placed_along, shapes_of,
    sides_along, sums,
};

/// The shape of a V, or of an H if `vertical` is false: along it the sums of the children's lengths,
/// which stop at 4096, and across it the greatest ones. Without children it is 0.
pub fn shape(vertical: bool, children: &[Shapes]) -> Shapes
    ensures { result ≡ hv_shape vertical children.now }
{
    shapes_of(
        vertical,
        sums(vertical, children),
        maxima(!vertical, children),
    )
}

/// The places of the children of a V, or of an H if `vertical` is false. First each child gets its `lo`
/// as far as length is left, then the rest of its `pref`, then the rest of its `hi`. They lie side by
/// side without space between them, and the node keeps the length that is left over.
pub fn place(
    alloc: Global,
    vertical: bool,
    rect: Rect,
    children: &[Shapes],
) -> Result<Vec<Rect>, NoMemory>
    requires domain { IsDomain rect }
    requires count { length children.now ≤ 255 }
    ensures places { IfOk result (λ v. v.items ≡ places vertical rect children.now) }
    ensures count { IfOk result (λ v. vec_len v ≡ length children.now) }
    ensures part { IfOk result (λ v. All (λ child. IsPartOf child rect) v.items) }
    ensures apart { IfOk result (λ v. AllPairs ShareNoPoint v.items) }
    ensures empty { rect ≡ empty_rect → IfOk result (λ v. All (λ child. child ≡ empty_rect) v.items) }
{
    let mut places = vec![in alloc; empty_place(); children.len()]?;
    place_into(vertical, rect, children, &mut places);
    Ok(places)
}

/// The same places, put into a slice of the caller: it has as many rectangles as there are children, of
/// any value. Nothing is allocated.
pub fn place_into(vertical: bool, rect: Rect, children: &[Shapes], rects: &mut [Rect])
    requires domain { IsDomain rect }
    requires count { length children.now ≤ 255 }
    requires room { length rects.old ≡ length children.now }
    ensures places { rects.new ≡ places vertical rect children.now }
    ensures part { All (λ child. IsPartOf child rect) rects.new }
    ensures apart { AllPairs ShareNoPoint rects.new }
    ensures empty { rect ≡ empty_rect → All (λ child. child ≡ empty_rect) rects.new }
{
    let (room, beside) = sides_along(vertical, &rect);
    let mut before = first_before(&totals(vertical, children));
    let mut start = 0;
    for (i, child) in children.iter().enumerate() {
        let wishes = wishes_of(&along(vertical, child));
        let length = granted(room, &before, &wishes);
        rects[i] = placed_along(vertical, &rect, (start, 0), (length, beside));
        before = sum_of(&before, &wishes);
        start += length;
    }
}

/// A child's wishes: its `lo`, the rest of its `pref`, and the rest of its `hi`. Or, for each of the
/// three, the sum over some children.
#[derive(Clone, Copy, Debug, PartialEq, Eq)]
struct Wishes {
    lo: u32,
    pref: u32,
    hi: u32,
}

fn wishes_of(lengths: &Shape) -> Wishes
    ensures lo { result.lo ≡ lengths.now.lo }
    ensures pref { result.pref ≡ lengths.now.pref - lengths.now.lo }
    ensures hi { result.hi ≡ lengths.now.hi - lengths.now.pref }
    ensures small { AreAtMost longest result }
{
    Wishes {
        lo: u32::from(lengths.lo),
        pref: u32::from(lengths.pref - lengths.lo),
        hi: u32::from(lengths.hi - lengths.pref),
    }
}

fn sum_of(a: &Wishes, b: &Wishes) -> Wishes
    requires first { AreAtMost (longest * 1000) a.now }
    requires second { AreAtMost longest b.now }
    ensures { result ≡ record {
      lo = a.now.lo + b.now.lo;
      pref = a.now.pref + b.now.pref;
      hi = a.now.hi + b.now.hi;
    } }
{
    Wishes {
        lo: a.lo + b.lo,
        pref: a.pref + b.pref,
        hi: a.hi + b.hi,
    }
}

/// The sums of all children's wishes.
fn totals(vertical: bool, children: &[Shapes]) -> Wishes
    requires { length children.now ≤ 255 }
    ensures lo { result.lo ≡ sum_by (λ c. c.lo) (map (along_of vertical) children.now) }
    ensures pref { result.pref ≡ sum_by (λ c. c.pref - c.lo) (map (along_of vertical) children.now) }
    ensures small { AreAtMost (longest * length children.now) result }
{
    let mut all = Wishes {
        lo: 0,
        pref: 0,
        hi: 0,
    };
    for child in children {
        all = sum_of(&all, &wishes_of(&along(vertical, child)));
    }
    all
}

/// The sums of the wishes that come before the first child's three.
fn first_before(all: &Wishes) -> Wishes
    requires { AreAtMost (longest * 255) all.now }
    ensures { result ≡ record { lo = 0; pref = all.now.lo; hi = all.now.lo + all.now.pref } }
{
    Wishes {
        lo: 0,
        pref: all.lo,
        hi: all.lo + all.pref,
    }
}

/// The part of the room for a child's wishes, after the sums of wishes that come before each of them.
fn granted(room: u32, before: &Wishes, wishes: &Wishes) -> u32
    requires { AreAtMost longest wishes.now }
    ensures { result ≡ min wishes.now.lo (room - before.now.lo)
        + min wishes.now.pref (room - before.now.pref)
        + min wishes.now.hi (room - before.now.hi) }
{
    wishes.lo.min(room.saturating_sub(before.lo))
        + wishes.pref.min(room.saturating_sub(before.pref))
        + wishes.hi.min(room.saturating_sub(before.hi))
}
