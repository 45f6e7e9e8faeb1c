//! What positions a cage holds.
use tr_base::{Point, Rect};
use tr_cage::{Cage, holds};

fn cage_of(rect: Rect, here: bool, gone: bool) -> Cage {
    Cage::Only { rect, here, gone }
}

fn only(here: bool, gone: bool) -> Cage {
    cage_of(Rect::edges(-2, 4, -1, 1), here, gone)
}

fn nowhere() -> Cage {
    cage_of(Rect::edges(0, 0, 0, 5), true, true)
}

#[test]
fn a_cage_holds_positions(rt: HostRuntime) {
    let far = Point { h: -70_000, v: 9 };
    let inside = Point { h: 3, v: -1 };
    let beside = Point { h: 4, v: -1 };
    for (i, (cage, at, is_gone, want)) in [
        (Cage::Everywhere, far, false, true),
        (Cage::Everywhere, far, true, true),
        (only(true, false), inside, false, true),
        (only(true, false), inside, true, false),
        (only(false, true), inside, false, false),
        (only(false, true), inside, true, true),
        (only(true, true), inside, false, true),
        (only(true, true), inside, true, true),
        (only(false, false), inside, false, false),
        (only(true, true), beside, false, false),
        (only(true, true), beside, true, false),
        (nowhere(), Point { h: 0, v: 0 }, false, false),
        (nowhere(), Point { h: 0, v: 0 }, true, false),
    ]
    .iter()
    .enumerate()
    {
        assert!(rt; holds(cage, *at, *is_gone) == *want, "row {i}");
    }
}
