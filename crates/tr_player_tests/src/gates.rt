//! A script that threads play, and a gate that lets one client wait for another.
use crate::ends::made;
use crate::faults::words_of;
use crate::waits::came;
use std::process::Abort;
use std::sync::Wait;
use std::sync::atomic::{AtomicU32, Ordering};
use std::thread::Threads;
use tr_base::LeafId;
use tr_io::{MemorySink, SteadySource};
use tr_journal::{Actor, Step};
use tr_play::Gate;
use tr_player::trestle_call;
use tr_stage::Stage;
use tr_widget::Widget;

/// Two windows side by side. The first one's client marks one point, and a key is hit. The second one's
/// marks 18 points: more steps than its worker makes before it tells how far it has come.
const MARKS: &[u8] = b"trestle 1
screen 4 1 map8
node r h 0
leaf a 2 2 2 1 1 1 solid 1
leaf b 2 2 2 1 1 1 solid 2
put a r
put b r
root r
begin
@a mark 0 1 0 1
@b mark 0 1 0 1
@b mark 1 2 0 1
@b mark 0 1 0 1
@b mark 1 2 0 1
@b mark 0 1 0 1
@b mark 1 2 0 1
@b mark 0 1 0 1
@b mark 1 2 0 1
@b mark 0 1 0 1
@b mark 1 2 0 1
@b mark 0 1 0 1
@b mark 1 2 0 1
@b mark 0 1 0 1
@b mark 1 2 0 1
@b mark 0 1 0 1
@b mark 1 2 0 1
@b mark 0 1 0 1
@b mark 1 2 0 1
key 1 65
sync
end
";

/// The same two windows. The first one's client makes one command, and the second one's makes two.
const TINTS: &[u8] = b"trestle 1
screen 4 1 map8
node r h 0
leaf a 2 2 2 1 1 1 solid 1
leaf b 2 2 2 1 1 1 solid 2
put a r
put b r
root r
begin
@a tint 3
@b tint 4
@b tint 5
sync
end
";

/// How far the client of a window has come, and how long its first step waits.
#[derive(Drop)]
struct Progress {
    /// So many of its steps it has begun.
    begun: AtomicU32,
    /// So many steps the other one begins before this one's first step is made.
    awaits: u32,
}

impl Progress {
    /// Whether a step is the next one, and the other client came as far as this one waits for.
    fn begins(&self, other: &Progress, k: u32) -> bool {
        let is_next = self.begun.swap(k, Ordering::SeqCst) == k.wrapping_sub(1);
        is_next && (k != 1 || came(&other.begun, self.awaits))
    }
}

/// Two clients, those of the two windows, of which one may wait for the other.
#[derive(Drop)]
struct Meeting {
    first: Progress,
    second: Progress,
    /// So often it was asked, but for where a client waited in vain or a step hadn't the next number.
    asked: AtomicU32,
    /// Whether it is open, as the program's is: it is asked before commands then.
    is_open: bool,
}

impl Meeting {
    /// A gate that nobody has reached. The first step of each client waits until the other one has begun so
    /// many.
    fn new(awaits: (u32, u32), is_open: bool) -> Meeting {
        Meeting {
            first: Progress {
                begun: AtomicU32::new(0),
                awaits: awaits.0,
            },
            second: Progress {
                begun: AtomicU32::new(0),
                awaits: awaits.1,
            },
            asked: AtomicU32::new(0),
            is_open,
        }
    }
}

impl Gate for Meeting {
    fn turn<R: Wait>(&self, _rt: &R, actor: Actor, k: u32) {
        let is_due = match actor {
            Actor::Leaf(LeafId(0)) => self.first.begins(&self.second, k),
            Actor::Leaf(LeafId(1)) => self.second.begins(&self.first, k),
            _ => true,
        };
        if is_due {
            self.asked.fetch_add(1, Ordering::SeqCst);
        }
    }

    fn is_open(&self) -> bool {
        self.is_open
    }
}

/// In turn, the first client waits for the second step of the second one, and both meet at their first steps.
const MEETINGS: [(u32, u32); 2] = [(2, 0), (1, 1)];

/// Whether the first mark is that of the second window's client.
fn is_second_first(stage: &Stage<Widget>) -> bool {
    let journal = stage.journal();
    for k in 0..journal.len() {
        let entry = journal.get(k);
        if matches!(entry.step, Step::Mark { .. }) {
            return entry.actor == Actor::Leaf(LeafId(1));
        }
    }
    false
}

/// In which order threads played a script.
#[derive(Clone, Copy, PartialEq, Eq)]
enum Order {
    /// The text doesn't say that they did.
    Untold,
    /// They did, and the first mark, if any, is that of the first window's client.
    FirstFirst,
    /// They did, and it is that of the second one's.
    SecondFirst,
}

/// The stage of a script that is played at a gate, if the text says that threads played it.
pub fn played_at<R: Threads + Wait + Sync + Abort + AllocGlobal, G: Gate + Sync>(
    rt: &R,
    script: &[u8],
    gate: &G,
) -> Option<Stage<Widget>> {
    let alloc = rt.alloc();
    let words = words_of(rt, &["play"]);
    let mut source = SteadySource::new(made(rt, Vec::from_slice(alloc, script)));
    let mut sink = MemorySink::new(alloc, 4, Vec::new(alloc));
    let (status, stage) = trestle_call(
        rt,
        alloc,
        &words,
        &mut source,
        &mut sink,
        gate,
    ).into_stage();
    let is_told = status == 0 && sink.written().ends_with(b"played threads\n");
    if_told(is_told, stage)
}

/// A stage, if it is told that threads made it.
fn if_told(is_told: bool, stage: Option<Stage<Widget>>) -> Option<Stage<Widget>> {
    if is_told {
        stage
    } else {
        drop(stage);
        None
    }
}

/// The order in which a script is played at a gate.
fn order_of<R: Threads + Wait + Sync + Abort + AllocGlobal, G: Gate + Sync>(
    rt: &R,
    script: &[u8],
    gate: &G,
) -> Order {
    let Some(stage) = played_at(rt, script, gate) else {
        return Order::Untold;
    };
    let is_second_first = is_second_first(&stage);
    drop(stage);
    if is_second_first {
        Order::SecondFirst
    } else {
        Order::FirstFirst
    }
}

#[test]
fn the_gate_is_asked_before_each_step(rt: HostRuntime) {
    for (first, second) in MEETINGS {
        let gate = Meeting::new((first, second), false);
        let played = order_of(&rt, MARKS, &gate);
        let is_due = played == Order::SecondFirst || first != 2 && played != Order::Untold;
        assert!(rt;
            is_due && gate.asked.load(Ordering::SeqCst) == 20,
            "{first} {second}"
        );
    }
}

#[test]
fn an_open_gate_is_asked_before_each_command(rt: HostRuntime) {
    for (first, second) in MEETINGS {
        let open = Meeting::new((first, second), true);
        let is_told = order_of(&rt, TINTS, &open) != Order::Untold;
        assert!(rt;
            is_told && open.asked.load(Ordering::SeqCst) == 3,
            "{first} {second}"
        );
    }
}
