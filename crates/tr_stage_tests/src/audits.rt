//! What a stage has, against what is said of it.
use super::acts::{Act, step_of};
use super::openings::{Part, Shown};
use super::played::Played;
use super::runs::*;
use std::process::Abort;
use tr_base::Size;
use tr_journal::{Actor, Apart, Difference};
use tr_widget::WidgetCmd;
use w_plain::SolidCmd;

/// A is told a colour.
fn tint(n: u8) -> Act {
    Act::Tell(A, WidgetCmd::Solid(SolidCmd::Tint(n)))
}

/// Whether the first step of A is the second colour, and the first one in what was handed in.
fn is_told(
    rt: &(impl Abort + AllocGlobal),
    difference: &Option<Difference<WidgetCmd>>,
    made: u8,
    found: u8,
) -> bool {
    match difference {
        Some(
            Difference {
                place: 1,
                what: Apart::Own {
                    actor: Actor::Leaf(A),
                    made: Some(first),
                    found: Some(second),
                },
            },
        ) => first.same(&step_of(rt, &tint(made))) && second.same(&step_of(rt, &tint(found))),
        _ => false,
    }
}

/// Whether a stage on which A is told 7 differs from a list that says 8, and not from one that says 7.
fn is_audited<P: Played>(rt: &(impl Abort + AllocGlobal)) -> bool {
    let parts = [Part::Leaf([1; 3], [1; 3], Shown::Solid(1))];
    let mut stage: P = P::start(rt, Size { wide: 1, high: 1 }, &parts);
    make(rt, &mut stage, &tint(7));
    let wrong = stage.difference(rt, A, step_of(rt, &tint(8)));
    let right = stage.difference(rt, A, step_of(rt, &tint(7)));
    is_told(rt, &wrong, 8, 7) && right.is_none()
}

#[test]
fn a_wrong_list_is_told_and_a_true_one_not(rt: HostRuntime) {
    assert!(rt; is_audited::<Tested>(&rt));
}
