//! The order of levels, and what is held.
use tr_base::LeafId;
use tr_levels::{Held, Ladder, Level};

const SHARE: Level = Level::Share(LeafId(2));

const WINDOW: Level = Level::Win(LeafId(0));

/// Whether each level of a list is below the later ones alone.
fn is_rising(levels: &[Level]) -> bool {
    for (i, a) in levels.iter().enumerate() {
        for (j, b) in levels.iter().enumerate() {
            if a.is_below(*b) != (i < j) {
                return false;
            }
        }
    }
    true
}

#[test]
fn levels_have_an_order(rt: HostRuntime) {
    let rising = [
        Level::Mu,
        Level::Share(LeafId(0)),
        Level::Share(LeafId(255)),
        Level::Win(LeafId(0)),
        Level::Win(LeafId(9)),
    ];
    assert!(rt; is_rising(&rising));
}

/// Whether just these of the tree's lock, a share and a window are held, and just those may be taken.
fn holds(held: &Held, has: [bool; 3], admits: [bool; 3]) -> bool {
    for (i, level) in [Level::Mu, SHARE, WINDOW].iter().enumerate() {
        if held.has(*level) != has[i] || held.admits(*level) != admits[i] {
            return false;
        }
    }
    true
}

#[test]
fn held_levels_rise(rt: HostRuntime) {
    let ladder = Ladder::ground();
    let nothing = ladder.held();
    ladder.end();
    let mu = Held::none().with(Level::Mu);
    let painter = mu.with(SHARE);
    let all = painter.with(WINDOW);
    let window = Held::none().with(WINDOW);
    for (i, (held, has, admits)) in [
        (nothing, [false, false, false], [true, true, true]),
        (mu, [true, false, false], [false, true, true]),
        (painter, [true, true, false], [false, false, true]),
        (all, [true, true, true], [false, false, false]),
        (window, [false, false, true], [false, false, false]),
    ]
    .iter()
    .enumerate()
    {
        assert!(rt; holds(held, *has, *admits), "row {i}");
    }
    assert!(rt; nothing.same(&Held::none()) && !all.has(Level::Share(LeafId(0))));
    assert!(rt; !all.same(&painter) && all.parts() == (true, Some(LeafId(2)), Some(LeafId(0))));
}
