//! Who may make which steps, and which levels cover them.
use super::digits::Digit;
use super::steps::{A, steps};
use tr_base::LeafId;
use tr_journal::{Actor, Step, covers, may};
use tr_levels::{Held, Level};

const B: LeafId = LeafId(1);

/// Which of A, B, the desk, the painter and the player may make each of these steps.
const MAKERS: [[bool; 5]; 16] = [
    [true, false, false, false, false],
    [true, false, false, false, false],
    [true, false, false, false, false],
    [true, false, false, false, false],
    [true, false, false, false, false],
    [true, false, false, false, false],
    [true, false, false, false, false],
    [false, false, true, false, false],
    [false, false, true, false, false],
    [false, false, true, false, false],
    [false, false, true, false, false],
    [true, false, false, true, false],
    [true, false, false, true, false],
    [false, false, false, true, false],
    [false, false, false, false, true],
    [false, false, false, false, true],
];

/// Which of nothing, the tree's lock, A's window, both, the lock with B's window, A's share and B's
/// share cover each of these steps.
const COVERS: [[bool; 7]; 16] = [
    [false, false, true, true, false, false, false],
    [false, false, false, true, false, false, false],
    [false, false, false, true, false, false, false],
    [false, false, false, true, false, false, false],
    [false, false, false, true, false, false, false],
    [false, false, false, true, false, false, false],
    [false, false, false, true, false, false, false],
    [false, true, false, true, true, false, false],
    [false, true, false, true, true, false, false],
    [false, true, false, true, true, false, false],
    [false, true, false, true, true, false, false],
    [false, true, false, true, true, false, false],
    [false, true, false, true, true, true, false],
    [false, true, false, true, true, false, false],
    [false, true, false, true, true, false, false],
    [false, true, false, true, true, false, false],
];

/// Whether just these actors may make a step.
fn has_makers(step: &Step<Digit>, want: &[bool; 5]) -> bool {
    let actors = [
        Actor::Leaf(A),
        Actor::Leaf(B),
        Actor::Desk,
        Actor::Painter,
        Actor::Player,
    ];
    for (actor, want) in actors.iter().zip(want) {
        if may(*actor, step) != *want {
            return false;
        }
    }
    true
}

/// Whether just these of the levels cover a step.
fn has_levels(step: &Step<Digit>, levels: &[Held; 7], want: &[bool; 7]) -> bool {
    for (held, want) in levels.iter().zip(want) {
        if covers(*held, step) != *want {
            return false;
        }
    }
    true
}

#[test]
fn each_step_has_its_makers_and_levels(rt: HostRuntime) {
    let mu = Held::none().with(Level::Mu);
    let levels = [
        Held::none(),
        mu,
        Held::none().with(Level::Win(A)),
        mu.with(Level::Win(A)),
        mu.with(Level::Win(B)),
        Held::none().with(Level::Share(A)),
        Held::none().with(Level::Share(B)),
    ];
    for ((i, step), (makers, covered)) in steps()
        .iter()
        .enumerate()
        .zip(MAKERS.iter().zip(&COVERS))
    {
        assert!(rt; has_makers(step, makers), "who makes step {i}");
        assert!(rt; has_levels(step, &levels, covered), "what covers step {i}");
    }
}
