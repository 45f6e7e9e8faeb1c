//! Commands that are handed over, and bad points that are painted apart from the screen.
use super::played::Played;
use super::reserved::two_beside;
use super::runs::*;
use std::process::Abort;
use tr_journal::{Actor, Entry, Reply, Step};
use tr_levels::{Held, Level};
use tr_widget::WidgetCmd;
use w_plain::SolidCmd;

/// What a window is told.
const TOLD: WidgetCmd = WidgetCmd::Solid(SolidCmd::Tint(5));

/// The entry of a step that is done, and sends nothing.
fn done(actor: Actor, level: Held, step: Step<WidgetCmd>) -> Entry<WidgetCmd> {
    let reply = Reply {
        answer: DONE,
        sent: 0,
    };
    Entry {
        actor,
        level,
        step,
        reply,
    }
}

/// The entry of the command that A is told, and that of a repaint of B.
fn entries() -> [Entry<WidgetCmd>; 2] {
    let mu = Held::none().with(Level::Mu);
    let act = Step::Act { leaf: A, cmd: TOLD };
    let repaint = Step::Repaint { leaf: B };
    [
        done(Actor::Leaf(A), mu.with(Level::Win(A)), act),
        done(Actor::Painter, Held::none().with(Level::Share(B)), repaint),
    ]
}

/// A window is told something by one call, and another one repainted by two, each with its entry.
fn shared<P: Played>(rt: &(impl Abort + AllocGlobal)) {
    let mut stage: P = two_beside(rt, 4);
    let entries = entries();
    stage.hand_over(rt, A, TOLD);
    stage.repaint_apart(rt, B);
    assert!(rt; stage.has_entry(rt, 0, &entries[0]) && stage.has_entry(rt, 1, &entries[1]));
    has_rows(rt, &stage, &[&[0, 0, 2, 2]]);
    peeks(rt, &stage, (2, 1, 0));
    shows(rt, &mut stage, &[&[5, 5, 2, 2]]);
}

/// Commands are given away by one call: the first where nothing waits, the second where something does.
fn given<P: Played>(rt: &(impl Abort + AllocGlobal)) {
    let mut stage: P = two_beside(rt, 4);
    settle(rt, &mut stage);
    let before = stage.entries();
    let entries = entries();
    stage.give(rt, A, TOLD);
    stage.give(rt, A, TOLD);
    assert!(rt;
        stage.has_entry(rt, before, &entries[0])
            && stage.has_entry(rt, before.saturating_add(1), &entries[0])
    );
    has_rows(rt, &stage, &[&[1, 1, 2, 2]]);
    peeks(rt, &stage, (0, 2, 2));
    shows(rt, &mut stage, &[&[5, 5, 2, 2]]);
}

#[test]
fn commands_are_given_away(rt: HostRuntime) {
    given::<Tested>(&rt);
}

#[test]
fn commands_are_handed_over_and_bad_points_put(rt: HostRuntime) {
    shared::<Tested>(&rt);
}
