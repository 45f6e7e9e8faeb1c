//! What is done with stages. What a test does is data: loops over it are proved once, where a test with as
//! many calls would be proved call by call.
use super::acts::{Act, By, maker_of, step_of};
use super::ends::made;
use super::played::Played;
use std::process::Abort;
use tr_base::{Event, LeafId, NoMemory};
use tr_journal::{Answer, Delivery, Entry, Reply};
use tr_stage::Stage;
use tr_widget::{Widget, WidgetCmd};

/// The stage that the tests are run on.
pub type Tested = Stage<Widget>;

pub const A: LeafId = LeafId(0);

pub const B: LeafId = LeafId(1);

pub const DONE: Answer = Answer::Done;

/// How many points are bad, how many commands wait, and how many points are stale.
pub type Counts = (u32, u64, u32);

/// A step that is done, how much it sends, and, where that is looked at, what there is to paint then.
pub type Lag = (Act, u16, Option<Counts>);

/// A step, what it answers, and what it sends, if it sends something.
pub type Row = (Act, Answer, Option<(LeafId, Event)>);

/// Makes the step, of which the journal has an entry then.
pub fn make<P: Played>(rt: &(impl Abort + AllocGlobal), stage: &mut P, act: &Act) -> Reply {
    let by = maker_of(rt, act);
    let before = stage.entries();
    let reply = match stage.make(rt, &by, step_of(rt, act)) {
        Ok(reply) => reply,
        Err(NoMemory) => make_again(rt, stage, act, before),
    };
    assert!(rt; stage.has_entry(rt, before, &entry_of(rt, &by, act, &reply)));
    reply
}

/// The entry of a step.
fn entry_of(
    rt: &(impl Abort + AllocGlobal),
    by: &By,
    act: &Act,
    reply: &Reply,
) -> Entry<WidgetCmd> {
    Entry {
        actor: by.actor,
        level: by.level,
        step: step_of(rt, act),
        reply: made(rt, reply.copy()),
    }
}

/// Makes a step for which memory was wanted once: the stage is as before, and so the test goes on.
fn make_again<P: Played>(
    rt: &(impl Abort + AllocGlobal),
    stage: &mut P,
    act: &Act,
    before: usize,
) -> Reply {
    assert_eq!(rt; stage.entries(), before);
    made(rt, stage.make(rt, &maker_of(rt, act), step_of(rt, act)))
}

/// Settles it. Where memory was wanted once, what was painted by then stands, and the rest follows.
pub fn settle<P: Played>(rt: &impl Abort, stage: &mut P) {
    match stage.settle() {
        Ok(()) => {}
        Err(NoMemory) => made(rt, stage.settle()),
    }
}

/// So many points are bad, so many commands wait, and so many points are stale.
pub fn peeks<P: Played>(rt: &impl Abort, stage: &P, (bad, waiting, stale): Counts) {
    let peek = match stage.peek() {
        Ok(peek) => peek,
        Err(NoMemory) => made(rt, stage.peek()),
    };
    assert!(rt;
        peek.bad == bad && peek.waiting == waiting && peek.stale == stale,
        "{peek:?}"
    );
}

/// The screen has these rows.
pub fn has_rows<P: Played>(rt: &impl Abort, stage: &P, rows: &[&[u8]]) {
    assert_eq!(rt; usize::from(stage.size().high), rows.len());
    for (v, row) in rows.iter().enumerate() {
        assert!(rt; v < 1024);
        assert_eq!(rt; stage.row(rt, v as u16), *row, "row {v}");
    }
}

/// Once it is settled, the screen has these rows.
pub fn shows<P: Played>(rt: &impl Abort, stage: &mut P, rows: &[&[u8]]) {
    settle(rt, stage);
    has_rows(rt, stage, rows);
    peeks(rt, stage, (0, 0, 0));
}

/// Each step is done, sends so much, and leaves so much to paint.
pub fn lags<P: Played>(rt: &(impl Abort + AllocGlobal), stage: &mut P, rows: &[Lag]) {
    for (i, (act, sent, peek)) in rows.iter().enumerate() {
        let reply = make(rt, stage, act);
        assert!(rt;
            reply.answer.same(&Answer::Done) && reply.sent == *sent,
            "row {i}: {reply:?}"
        );
        if let Some(peek) = peek {
            peeks(rt, stage, *peek);
        }
    }
}

/// Each step answers and sends what its row says.
pub fn plays<P: Played>(rt: &(impl Abort + AllocGlobal), stage: &mut P, rows: &[Row]) {
    for (i, (act, answer, sent)) in rows.iter().enumerate() {
        let before = stage.entries();
        let reply = make(rt, stage, act);
        assert!(rt; reply.answer.same(answer), "row {i}: {reply:?}");
        let found = stage.sent(rt, before);
        assert!(rt; is_sent(found, sent), "row {i}: {found:?}");
    }
}

/// Whether just this was sent, and not dropped.
fn is_sent(found: &[Delivery], sent: &Option<(LeafId, Event)>) -> bool {
    match sent {
        None => found.is_empty(),
        Some((leaf, event)) => {
            found.len() == 1
                && found[0].leaf == *leaf
                && found[0].event == *event
                && !found[0].dropped
        }
    }
}

/// These events wait for a leaf, and so many were dropped.
pub fn waits<P: Played>(rt: &impl Abort, stage: &P, leaf: LeafId, events: &[Event]) {
    assert_eq!(rt; stage.waiting(rt, leaf), events.len());
    for (i, event) in events.iter().enumerate() {
        assert_eq!(rt; stage.event(rt, leaf, i), *event);
    }
}

/// Whether the screens of two stages of one size have the same pixels.
pub fn have_same_rows<P: Played>(rt: &impl Abort, one: &P, other: &P) -> bool {
    for v in 0..one.size().high {
        if one.row(rt, v) != other.row(rt, v) {
            return false;
        }
    }
    true
}
