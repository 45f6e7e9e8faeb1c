//! A client to copy from, and a program that shows two of its windows: the mouse clicks in each, a key is
//! struck, and the windows take these events. It prints the screen at first and after each of the three,
//! and at the end the journal, which has every step with its answer.
//!
//! The client is `counters.rt`, with its meaning and its laws in specs/. The rest is generic over clients,
//! so that no proof of it looks into the laws of one.
#![tactic(auto)]

mod counters;
mod names;

ghost use Rattle.std.specs.Prelude.{◌≡◌, false, None};
ghost use Rattle.tr_forest.specs.Nodes.{IsNodeKind, is_leaf, shown_by};

use crate::counters::Counter;
use crate::names::Names;
use std::alloc::Global;
use std::io;
use std::io::ErrorKind;
use tr_base::{Kind, LeafId, NoMemory, NodeId, Point, Selection, Shape, Shapes, Size};
use tr_client::Client;
use tr_forest::{Edit, EditRefused, NodeKind};
use tr_io::StdSink;
use tr_journal::{Actor, Opening, Query, Step, is_edit, is_step, may};
use tr_output::{Output, WriteRefused};
use tr_run::{Finished, Mode, Run};

const SCREEN: Size = Size { wide: 24, high: 8 };

/// The shape of a window, each way: eleven points, half of the room that the border leaves across.
const ANY: Shape = Shape {
    lo: 0,
    pref: 11,
    hi: 4096,
};

/// The windows are numbered as they are added, and so are all nodes.
const WEST: LeafId = LeafId(0);

const EAST: LeafId = LeafId(1);

/// The cause of a missing text.
#[derive(Debug, Drop)]
enum Stopped {
    NoMemory,
    /// A node or a step isn't allowed. It doesn't happen here.
    Refused,
}

impl From<NoMemory> for Stopped {
    fn from(_e: NoMemory) -> Stopped {
        Stopped::NoMemory
    }
}

impl From<EditRefused> for Stopped {
    fn from(e: EditRefused) -> Stopped {
        match e {
            EditRefused::NoMemory => Stopped::NoMemory,
            EditRefused::Fault(_) => Stopped::Refused,
        }
    }
}

impl From<Stopped> for io::Error {
    fn from(e: Stopped) -> io::Error {
        match e {
            Stopped::NoMemory => io::Error::from(ErrorKind::OutOfMemory),
            Stopped::Refused => io::Error::from(ErrorKind::InvalidInput),
        }
    }
}

fn main(rt: HostRuntime) -> io::Result<()> {
    let text = text(rt.alloc(), Counter::new(5), Counter::new(7))?;
    let mut sink = StdSink::new(rt.stdout());
    match text.write_to(&mut sink) {
        Ok(()) => Ok(()),
        Err(WriteRefused::NoMemory) => Err(io::Error::from(ErrorKind::OutOfMemory)),
        Err(WriteRefused::Failed) => Err(io::Error::from(ErrorKind::Other)),
    }
}

/// The text that the program prints.
fn text<C: Client>(alloc: Global, west: C, east: C) -> Result<Output, Stopped> {
    let run = start(alloc, opening(alloc, west, east)?)?;
    play(run)
}

/// Plays a run to its end. It answers the text.
fn play<C: Client>(mut run: Run<'static, C, Names>) -> Result<Output, Stopped> {
    let made = make_all(&mut run);
    let text = text_of(run);
    made?;
    Ok(text)
}

/// Makes all steps.
fn make_all<C: Client>(run: &mut Run<C, Names>) -> Result<(), Stopped> {
    show(run)?;
    click(run, WEST, Point { h: 4, v: 4 }, 1)?;
    show(run)?;
    click(run, EAST, Point { h: 18, v: 4 }, 2)?;
    show(run)?;
    strike(run, EAST, b'+', 3)?;
    show(run)?;
    list(run)
}

/// The text of a run. This function is there for the prover: it alone drops a run. A proof of `play` is
/// slow if `play` takes a run apart, or may return before.
fn text_of<C: Client>(run: Run<'static, C, Names>) -> Output {
    let Finished { stage, text, .. } = run.finish();
    drop(stage);
    text
}

// ---- The opening: a border around two windows side by side.

fn opening<C: Client>(alloc: Global, west: C, east: C) -> Result<Opening<C>, Stopped> {
    let mut opening = Opening::new(alloc, SCREEN, Kind::Map8)?;
    match fill(&mut opening, west, east) {
        Ok(()) => Ok(opening),
        Err(stopped) => {
            drop(opening);
            Err(stopped)
        }
    }
}

/// Adds all nodes. This function is there for the prover: a proof is slow if an early return would drop an
/// opening.
fn fill<C: Client>(opening: &mut Opening<C>, west: C, east: C) -> Result<(), Stopped> {
    let border = add_frame(opening, NodeKind::Border { width: 1 })?;
    let row = add_frame(opening, NodeKind::H)?;
    let west = add_window(opening, west)?;
    let east = add_window(opening, east)?;
    put(opening, west, row)?;
    put(opening, east, row)?;
    put(opening, row, border)?;
    set_root(opening, border)
}

/// Adds a node that isn't a window.
fn add_frame<C: Client>(opening: &mut Opening<C>, kind: NodeKind) -> Result<NodeId, Stopped>
    requires kind { IsNodeKind kind }
    requires shown { shown_by kind ≡ None }
    requires inner { is_leaf kind ≡ false }
{
    if opening.tree().count() >= 256 {
        return Err(Stopped::Refused);
    }
    Ok(opening.node(kind, 255)?)
}

/// Adds a window with its content.
fn add_window<C: Client>(opening: &mut Opening<C>, content: C) -> Result<NodeId, Stopped> {
    let nodes = opening.tree().count();
    if nodes >= 256 || opening.tree().leaves() >= 32 {
        return Err(Stopped::Refused);
    }
    let shapes = Shapes {
        across: ANY,
        down: ANY,
    };
    opening.leaf(shapes, content)?;
    Ok(NodeId(nodes as u16))
}

/// Makes a node the last child of another.
fn put<C: Client>(opening: &mut Opening<C>, child: NodeId, parent: NodeId) -> Result<(), Stopped> {
    // The place matters only to the children of a Z.
    let at = Point { h: 0, v: 0 };
    if !is_edit(opening.tree(), &Edit::Attach { child, parent, at }) {
        return Err(Stopped::Refused);
    }
    opening.put(child, parent, at)?;
    Ok(())
}

/// Makes a node the root.
fn set_root<C: Client>(opening: &mut Opening<C>, node: NodeId) -> Result<(), Stopped> {
    if usize::from(node.0) >= opening.tree().count() {
        return Err(Stopped::Refused);
    }
    opening.root(node)?;
    Ok(())
}

/// A run that begins with this opening. Each node needs a name, since texts name them.
fn start<C: Client>(alloc: Global, opening: Opening<C>) -> Result<Run<'static, C, Names>, Stopped> {
    let tree = opening.tree();
    if tree.count() != 4 || tree.leaves() != 2 || tree.root().is_none() {
        drop(opening);
        return Err(Stopped::Refused);
    }
    Ok(Run::start(alloc, opening, &Names, Mode::Serial)?)
}

// ---- The steps: events come from the desk, and each window takes its own.

/// The mouse goes over a window, and a button goes down and up. The window takes both events, and becomes
/// the owner of the keys.
fn click<C: Client>(
    run: &mut Run<C, Names>,
    leaf: LeafId,
    at: Point,
    time: u32,
) -> Result<(), Stopped> {
    make(run, Actor::Desk, Step::Motion { time, at })?;
    press(run, leaf, true, time)?;
    press(run, leaf, false, time)?;
    // The time has to be that of the last event of the window.
    let selection = Selection::Key;
    let own = Step::Own {
        leaf,
        selection,
        time,
    };
    make(run, Actor::Leaf(leaf), own)
}

/// A button goes down or up, and the window takes the event.
fn press<C: Client>(
    run: &mut Run<C, Names>,
    leaf: LeafId,
    down: bool,
    time: u32,
) -> Result<(), Stopped> {
    let button = 1;
    make(run, Actor::Desk, Step::Mouse { time, button, down })?;
    make(run, Actor::Leaf(leaf), Step::Take { leaf })
}

/// A key is struck, and the owner of the keys takes the event.
fn strike<C: Client>(
    run: &mut Run<C, Names>,
    leaf: LeafId,
    code: u8,
    time: u32,
) -> Result<(), Stopped> {
    make(run, Actor::Desk, Step::Key { time, code })?;
    make(run, Actor::Leaf(leaf), Step::Take { leaf })
}

/// Makes a step, if it is allowed. Its answer is in the journal.
fn make<C: Client>(
    run: &mut Run<C, Names>,
    actor: Actor,
    step: Step<C::Cmd>,
) -> Result<(), Stopped> {
    if let Step::Report { .. } = step {
        return Err(Stopped::Refused);
    }
    if !may(actor, &step) || !is_step(run.stage().opening().tree(), &step) {
        return Err(Stopped::Refused);
    }
    run.make(actor, step)?;
    Ok(())
}

/// Prints the screen, after it is brought up to date.
fn show<C: Client>(run: &mut Run<C, Names>) -> Result<(), Stopped> {
    Ok(run.report(Query::Dump)?)
}

/// Prints the journal.
fn list<C: Client>(run: &mut Run<C, Names>) -> Result<(), Stopped> {
    Ok(run.report(Query::Journal)?)
}
