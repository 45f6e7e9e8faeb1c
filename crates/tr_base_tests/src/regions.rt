//! Regions, held against the points that they have.
ghost use Rattle.std.specs.Prelude.{IsTrue};
ghost use Rattle.std.specs.List.{AllByRecursion};
ghost use Rattle.tr_region.specs.Points.{IsInSquare};

use super::ends::made;
use std::collections::BTreeSet;
use std::process::Abort;
use tr_base::{Point, Rect};
use tr_region::Region;

// The edges of rectangles in a square of 4 by 4, along one axis.
const SIDES: [(i8, i8); 10] = [
    (0, 1),
    (0, 2),
    (0, 3),
    (0, 4),
    (1, 2),
    (1, 3),
    (1, 4),
    (2, 3),
    (2, 4),
    (3, 4),
];

fn rect(west: i8, east: i8, north: i8, south: i8) -> Rect {
    Rect::edges(
        i32::from(west),
        i32::from(east),
        i32::from(north),
        i32::from(south),
    )
}

/// The region of a rectangle.
pub fn region_of(rt: &(impl Abort + AllocGlobal), rect: Rect) -> Region {
    made(rt, Region::of_rect(rt.alloc(), rect))
}

fn is_in(rect: &Rect) -> bool
    ensures { IsTrue result → IsInSquare rect.now }
{
    rect.west() >= 0 && rect.east() <= 1024 && rect.north() >= 0 && rect.south() <= 1024
}

fn is_in_square(region: &Region) -> bool
    ensures { IsTrue result → AllByRecursion IsInSquare region.now }
{
    for rect in region.rects() {
        if !is_in(rect) {
            return false;
        }
    }
    true
}

/// Whether a region has just these rectangles.
fn has_rects(region: &Region, want: &[Rect]) -> bool {
    region.rects() == want
}

/// Whether rectangles are cut, and joined where they touch.
fn are_cut_and_joined(rt: &(impl Abort + AllocGlobal)) -> bool {
    let square = region_of(rt, rect(0, 2, 0, 2));
    let corner = region_of(rt, rect(0, 1, 0, 1));
    let rest = made(rt, square.minus(&corner));
    let is_cut = has_rects(&rest, &[rect(1, 2, 0, 1), rect(0, 2, 1, 2)]);
    let is_copied = made(rt, rest.copy()).same(&rest);
    let is_common = is_met(rt, &rest);
    let all = made(rt, rest.union(&corner));
    let is_joined = has_rects(&all, &[rect(0, 2, 0, 2)]) && all.same(&square);
    is_cut && is_copied && is_common && is_joined && !all.same(&rest)
}

/// Whether a square without its first point has one point in its first row.
fn is_met(rt: &(impl Abort + AllocGlobal), rest: &Region) -> bool {
    let common = made(rt, rest.meet(&region_of(rt, rect(1, 3, 0, 1))));
    let has_point = common.has(Point { h: 1, v: 0 }) && !common.has(Point { h: 2, v: 0 });
    has_point && has_rects(&common, &[rect(1, 2, 0, 1)])
}

/// A region with a rectangle.
fn with(rt: &(impl Abort + AllocGlobal), region: &Region, rect: Rect) -> Region {
    made(rt, region.union(&region_of(rt, rect)))
}

/// Whether bands of rows are joined where they have the same rectangles.
fn are_bands_joined(rt: &(impl Abort + AllocGlobal)) -> bool {
    let west = region_of(rt, rect(0, 1, 0, 1));
    let two = with(rt, &west, rect(1, 2, 1, 2));
    let three = with(rt, &two, rect(1, 2, 0, 1));
    let four = with(rt, &three, rect(0, 1, 1, 2));
    let diagonal = [rect(0, 1, 0, 1), rect(1, 2, 1, 2)];
    has_rects(&two, &diagonal) && has_rects(&four, &[rect(0, 2, 0, 2)])
}

/// A square without the square in its middle.
fn ring(rt: &(impl Abort + AllocGlobal)) -> Region {
    let outer = region_of(rt, rect(0, 4, 0, 4));
    made(rt, outer.minus(&region_of(rt, rect(1, 3, 1, 3))))
}

/// A region moved by one point; none where it reaches beyond the square.
fn east_of(rt: &impl Abort, region: &Region) -> Option<Region> {
    if !is_in_square(region) {
        return None;
    }
    Some(one_east(rt, region))
}

fn one_east(rt: &impl Abort, region: &Region) -> Region
    requires { AllByRecursion IsInSquare region.now }
{
    made(rt, region.shift(Point { h: 1, v: 0 }))
}

/// The number of points of a region; none where it reaches beyond the square.
fn count_of(region: &Region) -> Option<u64> {
    if is_in_square(region) {
        Some(counted(region))
    } else {
        None
    }
}

fn counted(region: &Region) -> u64
    requires { AllByRecursion IsInSquare region.now }
{
    region.count()
}

/// Whether a ring is moved and counted.
fn is_ring_moved(rt: &(impl Abort + AllocGlobal)) -> bool {
    let ring = ring(rt);
    let Some(east) = east_of(rt, &ring) else {
        return false;
    };
    let want = [
        rect(1, 5, 0, 1),
        rect(1, 2, 1, 3),
        rect(4, 5, 1, 3),
        rect(1, 5, 3, 4),
    ];
    has_rects(&east, &want) && count_of(&ring) == Some(12)
}

/// Whether no rectangle is no point.
fn is_none_empty(rt: &(impl Abort + AllocGlobal)) -> bool {
    let none = Region::empty(rt.alloc());
    let is_counted = none.is_empty() && count_of(&none) == Some(0);
    is_counted && region_of(rt, rect(3, 3, 0, 9)).same(&none) && is_minus_itself_empty(rt)
}

/// Whether a region without its points is empty.
fn is_minus_itself_empty(rt: &(impl Abort + AllocGlobal)) -> bool {
    let some = region_of(rt, rect(3, 4, 0, 9));
    !some.is_empty() && made(rt, some.minus(&some)).is_empty()
}

#[test]
fn regions_are_lists_of_rectangles(rt: HostRuntime) {
    assert!(rt; are_cut_and_joined(&rt), "cut and joined");
    assert!(rt; are_bands_joined(&rt), "bands");
    assert!(rt; is_ring_moved(&rt), "a ring");
    assert!(rt; is_none_empty(&rt), "no rectangle");
}

fn place(cell: u8) -> Point {
    Point {
        h: i32::from(cell % 4),
        v: i32::from(cell / 4),
    }
}

// The points of the square that the region holds, by rows from the lowest bit on.
fn points_of(region: &Region) -> u16 {
    let mut points = 0;
    for cell in 0..16u8 {
        if region.has(place(cell)) {
            points |= 1u16 << cell;
        }
    }
    points
}

// The regions of all sets of points of the square, each built of its points.
fn built(rt: &(impl Abort + AllocGlobal)) -> Vec<Region> {
    let mut regions = Vec::new(rt.alloc());
    made(rt, regions.push(Region::empty(rt.alloc())));
    for v in 0..4i8 {
        for h in 0..4i8 {
            let point = region_of(rt, rect(h, h + 1, v, v + 1));
            double(rt, &mut regions, &point);
        }
    }
    regions
}

// Adds each region once more, with a point.
fn double(rt: &impl Abort, regions: &mut Vec<Region>, point: &Region) {
    for i in 0..regions.len() {
        if let Some(region) = regions.get(i) {
            let more = made(rt, region.union(point));
            made(rt, regions.push(more));
        }
    }
}

// The points of each rectangle in the square, and of none.
fn rect_points(rt: &(impl Abort + AllocGlobal)) -> Vec<u16> {
    let mut points = Vec::new(rt.alloc());
    made(rt, points.push(0));
    for (west, east) in SIDES {
        for (north, south) in SIDES {
            let region = region_of(rt, rect(west, east, north, south));
            made(rt, points.push(points_of(&region)));
        }
    }
    points
}

// The unions of one set of each list, each once.
fn unions(rt: &(impl Abort + AllocGlobal), first: &[u16], second: &[u16]) -> Vec<u16> {
    let mut sets = BTreeSet::new(rt.alloc());
    for a in first {
        for b in second {
            made(rt, sets.insert(*a | *b));
        }
    }
    let mut list = Vec::new(rt.alloc());
    for set in &sets {
        made(rt, list.push(*set));
    }
    list
}

fn is_built(regions: &[Region], region: &Region, points: u16) -> bool {
    match regions.get(usize::from(points)) {
        Some(want) => region.same(want),
        None => false,
    }
}

fn agrees(rt: &impl Abort, regions: &[Region], first: u16, second: u16) -> bool {
    let (Some(a), Some(b)) = (
        regions.get(usize::from(first)),
        regions.get(usize::from(second)),
    ) else {
        return false;
    };
    is_built(regions, &made(rt, a.union(b)), first | second)
        && is_built(regions, &made(rt, a.meet(b)), first & second)
        && is_built(regions, &made(rt, a.minus(b)), first & !second)
}

/// Whether each region has the points of its place.
fn have_their_points(regions: &[Region]) -> bool {
    for (points, region) in regions.iter().enumerate() {
        if usize::from(points_of(region)) != points {
            return false;
        }
    }
    true
}

/// Whether a region agrees with each of others.
fn agrees_with_all(rt: &impl Abort, regions: &[Region], first: u16, others: &[u16]) -> bool {
    for second in others {
        if !agrees(rt, regions, first, *second) {
            return false;
        }
    }
    true
}

/// Whether the answers for each second region of at most two rectangles, from the first or the second on,
/// beside each of at most three, are those of the points.
fn half_agrees(rt: &(impl Abort + AllocGlobal), start: usize) -> bool {
    let regions = built(rt);
    let ones = rect_points(rt);
    let twos = unions(rt, &ones, &ones);
    let threes = unions(rt, &twos, &ones);
    let are_all = twos.len() == 2_126 && threes.len() == 14_712;
    are_all && half_of_all_agree(rt, &regions, (&twos, &threes), start)
}

/// Whether each second region of the first, from this one on, agrees with all of the others.
fn half_of_all_agree(
    rt: &impl Abort,
    regions: &[Region],
    (firsts, others): (&[u16], &[u16]),
    start: usize,
) -> bool {
    for (i, first) in firsts.iter().enumerate() {
        if i % 2 == start && !agrees_with_all(rt, regions, *first, others) {
            return false;
        }
    }
    true
}

#[test]
fn regions_have_the_points_of_their_places(rt: HostRuntime) {
    let regions = built(&rt);
    assert!(rt; regions.len() == 65_536 && have_their_points(&regions));
}

// (two halves, since a test has a minute, and a slow machine takes half of that for all)
#[test]
fn answers_are_those_of_the_points(rt: HostRuntime) {
    assert!(rt; half_agrees(&rt, 0));
}

#[test]
fn answers_are_those_of_the_points_in_the_other_half(rt: HostRuntime) {
    assert!(rt; half_agrees(&rt, 1));
}
