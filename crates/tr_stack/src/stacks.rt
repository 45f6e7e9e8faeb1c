ghost use Rattle.std.specs.Prelude.{◌≡◌, ◌≤◌, ◌+◌, ◌*◌, length, vec_len, All, AllPairs, IfOk};
ghost use Rattle.tr_base.specs.Rects.{IsRect, empty_rect};
ghost use Rattle.tr_base.specs.Layouts.{farthest, stopped, IsDomain, IsOffset, IsPartOf, IsNear, ShareNoPoint};
ghost use Rattle.tr_stack.specs.Stacks.{max_shape, repeated, page_shape, z_places, t_place as t_child, t_places, strip_size, page_strip, page_place as page_child, page_places};

use std::alloc::Global;
use tr_base::{
    LONGEST, NoMemory, Point, Rect, Shape, Shapes, empty_place, maxima, placed, preferred_place,
    sides,
};

/// The shape of a Z or a T: the greatest lengths of all its children, and 0 without children.
pub fn max_shape(children: &[Shapes]) -> Shapes
    ensures { result ≡ max_shape children.now }
{
    Shapes {
        across: maxima(false, children),
        down: maxima(true, children),
    }
}

/// The shape of a Page that shows `per` children at a time.
pub fn page_shape(per: u8, children: &[Shapes]) -> Shapes
    ensures { result ≡ page_shape per children.now }
{
    let most = max_shape(children);
    Shapes {
        across: most.across,
        down: repeated(per, &most.down),
    }
}

/// The places of a Z's children, from front to back, each at its offset of at most 2048 each way. A
/// child may reach past the node. It is empty, or its corner is within 2048 of the node's along
/// each axis and its sides are at most 4096.
pub fn z_place(
    alloc: Global,
    rect: Rect,
    at: &[Point],
    children: &[Shapes],
) -> Result<Vec<Rect>, NoMemory>
    requires domain { IsDomain rect }
    requires offsets { All (IsOffset farthest) at.now }
    requires count { length at.now ≡ length children.now }
    ensures places { IfOk result (λ v. v.items ≡ z_places rect at.now children.now) }
    ensures count { IfOk result (λ v. vec_len v ≡ length children.now) }
    ensures near { IfOk result (λ v. All (λ child. IsNear farthest child rect) v.items) }
    ensures empty { rect ≡ empty_rect → IfOk result (λ v. All (λ child. child ≡ empty_rect) v.items) }
{
    let mut places = Vec::with_capacity(alloc, children.len())?;
    for (i, child) in children.iter().enumerate() {
        places.push(preferred_place(&rect, at[i], child))?;
    }
    Ok(places)
}

/// The places of a T's children: the shown one has the whole rectangle, and the others are empty.
pub fn t_place(alloc: Global, rect: Rect, shown: usize, count: usize) -> Result<Vec<Rect>, NoMemory>
    ensures places { IfOk result (λ v. v.items ≡ t_places rect shown count) }
    ensures count { IfOk result (λ v. vec_len v ≡ count) }
    ensures part { IfOk result (λ v. All (λ child. IsPartOf child rect) v.items) }
    ensures apart { IfOk result (λ v. AllPairs ShareNoPoint v.items) }
    ensures empty { rect ≡ empty_rect → IfOk result (λ v. All (λ child. child ≡ empty_rect) v.items) }
{
    let mut places = Vec::with_capacity(alloc, count)?;
    for k in 0..count {
        places.push(t_child(rect, shown, k))?;
    }
    Ok(places)
}

/// The places of the children of a Page that shows `per` at a time: the children of the page, counted
/// from 0, lie in strips of one height from north to south, and the others are empty.
pub fn page_place(
    alloc: Global,
    rect: Rect,
    per: u8,
    page: u8,
    count: usize,
) -> Result<Vec<Rect>, NoMemory>
    requires domain { IsDomain rect }
    requires per { 1 ≤ per }
    ensures places { IfOk result (λ v. v.items ≡ page_places rect per page count) }
    ensures count { IfOk result (λ v. vec_len v ≡ count) }
    ensures part { IfOk result (λ v. All (λ child. IsPartOf child rect) v.items) }
    ensures apart { IfOk result (λ v. AllPairs ShareNoPoint v.items) }
    ensures empty { rect ≡ empty_rect → IfOk result (λ v. All (λ child. child ≡ empty_rect) v.items) }
{
    let mut places = Vec::with_capacity(alloc, count)?;
    for k in 0..count {
        places.push(page_child(rect, per, page, k))?;
    }
    Ok(places)
}

/// The place of a T's child number `k`, counted from 0: the shown one has the whole rectangle, and
/// any other is empty.
pub fn t_child(rect: Rect, shown: usize, k: usize) -> Rect
    ensures place { result ≡ t_child rect shown k }
    ensures part { IsPartOf result rect }
    ensures empty { rect ≡ empty_rect → result ≡ empty_rect }
{
    if k == shown { rect } else { empty_place() }
}

/// The place of child number `k` of a Page that shows `per` at a time, counted from 0 like the pages:
/// its strip of the page, or empty if it is on another page.
pub fn page_child(rect: Rect, per: u8, page: u8, k: usize) -> Rect
    requires domain { IsDomain rect }
    requires per { 1 ≤ per }
    ensures place { result ≡ page_child rect per page k }
    ensures part { IsPartOf result rect }
    ensures empty { rect ≡ empty_rect → result ≡ empty_rect }
{
    let count = usize::from(per);
    let size = strip_size(&rect, per);
    if k / count == usize::from(page) {
        strip(&rect, size, per, k % count)
    } else {
        empty_place()
    }
}

fn strip(rect: &Rect, size: (u32, u32), per: u8, k: usize) -> Rect
    requires domain { IsDomain rect.now }
    requires size { size ≡ strip_size rect.now per }
    requires per { k + 1 ≤ per }
    ensures { result ≡ page_strip rect.now per k }
{
    let by = Point {
        h: 0,
        v: (k as u32 * size.1) as i32,
    };
    placed(rect, by, size)
}

fn strip_size(rect: &Rect, per: u8) -> (u32, u32)
    requires domain { IsDomain rect.now }
    requires per { 1 ≤ per }
    ensures size { result ≡ strip_size rect.now per }
    ensures invariant { IsRect rect.now }
{
    let (wide, high) = sides(rect);
    (wide, high / u32::from(per))
}

fn repeated(times: u8, lengths: &Shape) -> Shape
    ensures { result ≡ repeated times lengths.now }
{
    Shape {
        lo: product(times, lengths.lo),
        pref: product(times, lengths.pref),
        hi: product(times, lengths.hi),
    }
}

fn product(times: u8, length: u16) -> u16
    ensures { result ≡ stopped (times * length) }
{
    (u32::from(times) * u32::from(length)).min(u32::from(LONGEST)) as u16
}
