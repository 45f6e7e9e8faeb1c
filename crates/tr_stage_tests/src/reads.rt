//! Each sort of step, and each read, once.
use super::acts::Act;
use super::openings::{Part, Shown, line};
use super::played::Played;
use super::runs::*;
use std::process::Abort;
use tr_base::{Click, Event, NodeId, Point, Rect, Selection, Size};
use tr_cage::Cage;
use tr_forest::Edit;
use tr_journal::{Answer, Query};
use tr_widget::WidgetCmd;
use w_plain::SolidCmd;

const ORIGIN: Point = Point { h: 0, v: 0 };

const EAST: Point = Point { h: 1, v: 0 };

/// A key that is struck at time 2.
const STRUCK: Event = Event::Key { time: 2, code: 33 };

/// What a window is told of a button.
fn clicked(time: u32, click: Click, button: u8, h: i32) -> Event {
    let at = Point { h, v: 0 };
    Event::Mouse {
        time,
        click,
        button,
        at,
    }
}

/// The stage of a window with a text, and of another one east of it.
fn label_and_solid<P: Played>(rt: &(impl Abort + AllocGlobal)) -> P {
    let parts = [
        Part::Glyph,
        Part::Row(0),
        Part::Leaf([1; 3], [1; 3], Shown::Label),
        Part::Leaf([1; 3], [1; 3], Shown::Solid(2)),
        Part::Put(1, 0, 0, 0),
        Part::Put(2, 0, 0, 0),
    ];
    P::start(rt, Size { wide: 2, high: 1 }, &parts)
}

/// A step of each sort of the input devices, and each with selections, is done.
fn devices<P: Played>(rt: &(impl Abort + AllocGlobal), stage: &mut P) {
    let down = clicked(1, Click::FirstDown, 1, 0);
    let value = Answer::Value(line(rt, b"hi"));
    let rows = [
        (Act::Motion(1, 0, 0), DONE, None),
        (Act::Mouse(1, 1, true), DONE, Some((A, down))),
        (Act::Own(A, Selection::Key, 1), DONE, None),
        (Act::Own(A, Selection::Target, 1), DONE, None),
        (Act::Key(2, 33), DONE, Some((A, STRUCK))),
        (Act::Read(B, Selection::Key), value, None),
        (Act::Disown(A, Selection::Key), DONE, None),
        (Act::Take(A), Answer::Taken(down), None),
    ];
    plays(rt, stage, &rows);
}

/// A step of each other sort is done.
fn paintings<P: Played>(rt: &(impl Abort + AllocGlobal), stage: &mut P) {
    let tinted = WidgetCmd::Solid(SolidCmd::Tint(6));
    let node = NodeId(0);
    let rows = [
        (Act::SetCage(B, Cage::Everywhere), 0, None),
        (Act::Flush(B), 0, None),
        (Act::Repaint(A), 0, None),
        (Act::PaintFrame, 0, None),
        (Act::Tell(B, tinted), 0, None),
        (Act::Mark(B, Rect::edges(0, 1, 0, 1)), 0, None),
        (Act::Alter(Edit::Tint { node, tint: 3 }), 0, None),
        (Act::Report(Query::Peek), 0, None),
        (Act::Sync, 0, Some((1, 2, 0))),
    ];
    lags(rt, stage, &rows);
}

/// What is read of the windows then.
fn has_windows<P: Played>(rt: &(impl Abort + AllocGlobal), stage: &P) {
    assert!(rt; stage.value(rt, A).same(&line(rt, b"hi")));
    assert!(rt; stage.value(rt, B).same(&line(rt, b"6")));
    assert!(rt; stage.commands(rt, A) == 0 && stage.commands(rt, B) == 2);
    assert_eq!(rt; stage.leaf_size(rt, B), Size { wide: 1, high: 1 });
    waits(rt, stage, A, &[STRUCK]);
    assert_eq!(rt; stage.dropped(rt, A), 0);
}

/// What is read of all else.
fn has_devices<P: Played>(rt: &impl Abort, stage: &P) {
    let size = Size { wide: 2, high: 1 };
    assert!(rt; stage.size() == size && stage.tree_size() == size);
    assert!(rt; !stage.is_bad(ORIGIN) && stage.is_bad(EAST));
    assert_eq!(rt; stage.glyph(), [0xff; 8]);
    assert_eq!(rt; stage.cursor(), ORIGIN);
    assert_eq!(rt; stage.owner(Selection::Key), None);
    assert_eq!(rt; stage.owner(Selection::Target), Some(A));
    assert_eq!(rt; stage.entries(), 17);
}

fn all_done_and_read<P: Played>(rt: &(impl Abort + AllocGlobal)) {
    let mut stage: P = label_and_solid(rt);
    devices(rt, &mut stage);
    paintings(rt, &mut stage);
    has_windows(rt, &stage);
    has_devices(rt, &stage);
    shows(rt, &mut stage, &[&[1, 6]]);
}

#[test]
fn each_sort_of_step_is_done_and_each_read_answers(rt: HostRuntime) {
    all_done_and_read::<Tested>(&rt);
}
