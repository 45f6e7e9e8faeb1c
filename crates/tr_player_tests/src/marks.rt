//! Marks of two windows behind an open gate, which isn't called before them. Two threads are seen where each
//! worker asks whether the gate is open.
use crate::ends::made;
use crate::gates::played_at;
use crate::waits::came;
use std::process::Abort;
use std::sync::Wait;
use std::sync::atomic::{AtomicU32, Ordering};
use std::thread::Threads;
use tr_journal::{Actor, Step};
use tr_play::Gate;
use tr_stage::Stage;
use tr_widget::Widget;

/// Two windows side by side.
const HEAD: &[u8] = b"trestle 1
screen 4 1 map8
node r h 0
leaf a 2 2 2 1 1 1 solid 1
leaf b 2 2 2 1 1 1 solid 2
put a r
put b r
root r
begin
";

/// Each client marks a point so often. After 16 steps its worker asks again whether the gate is open.
const MARKS: usize = 17;

/// The script in which both clients do so.
fn script(rt: &(impl Abort + AllocGlobal)) -> Vec<u8> {
    let mut script = made(rt, Vec::from_slice(rt.alloc(), HEAD));
    for _ in 0..MARKS {
        made(
            rt,
            script.extend_from_slice(b"@a mark 0 1 0 1\n@b mark 0 1 0 1\n"),
        );
    }
    made(rt, script.extend_from_slice(b"sync\nend\n"));
    script
}

/// An open gate at which workers meet: the second that asks whether it is open waits until the third one asks,
/// and so on by pairs.
#[derive(Drop)]
struct AskedGate {
    asked: AtomicU32,
    /// So often the next one came.
    met: AtomicU32,
}

impl Gate for AskedGate {
    fn turn<R: Wait>(&self, _rt: &R, _actor: Actor, _k: u32) {}

    /// The session asks first, to choose the number of threads, and then each worker before each 16 steps.
    fn is_open(&self) -> bool {
        let asked = self.asked.fetch_add(1, Ordering::SeqCst).wrapping_add(1);
        if asked % 2 == 0 && came(&self.asked, asked.wrapping_add(1)) {
            self.met.fetch_add(1, Ordering::SeqCst);
        }
        true
    }
}

/// How often in a journal a mark is another client's than the mark before it. The first mark counts, too.
fn turns_of(stage: &Stage<Widget>) -> usize {
    let journal = stage.journal();
    let mut turns: usize = 0;
    // The painter makes no mark.
    let mut last = Actor::Painter;
    for k in 0..journal.len() {
        let entry = journal.get(k);
        if matches!(entry.step, Step::Mark { .. }) && entry.actor != last {
            turns = turns.saturating_add(1);
            last = entry.actor;
        }
    }
    turns
}

/// Whether threads played the script at a gate, and neither client made all of its marks before the other one
/// made any.
fn are_mixed<R: Threads + Wait + Sync + Abort + AllocGlobal>(rt: &R, gate: &AskedGate) -> bool {
    let Some(stage) = played_at(rt, &script(rt), gate) else {
        return false;
    };
    let turns = turns_of(&stage);
    drop(stage);
    3 <= turns
}

/// Whether they were made so, and the workers met before each 16 of their steps.
fn have_met<R: Threads + Wait + Sync + Abort + AllocGlobal>(rt: &R) -> bool {
    let gate = AskedGate {
        asked: AtomicU32::new(0),
        met: AtomicU32::new(0),
    };
    are_mixed(rt, &gate) && gate.met.load(Ordering::SeqCst) == 2
}

#[test]
fn two_workers_make_marks_side_by_side(rt: HostRuntime) {
    assert!(rt; have_met(&rt));
}
