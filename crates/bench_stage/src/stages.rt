ghost use Rattle.std.specs.Prelude.{◌≤◌, IsTrue};
ghost use Rattle.tr_forest.specs.Nodes.{IsNode};
ghost use Rattle.tr_journal.specs.Openings.{tree_of};
ghost use Rattle.tr_journal.specs.Steps.{IsFor};

use crate::plans::{node_of, place_of};
use std::alloc::Global;
use std::io;
use tr_base::{Kind, LeafId, NoMemory, NodeId, Point, Shape, Shapes, Size};
use tr_client::Client;
use tr_forest::{Edit, EditRefused, NodeKind};
use tr_journal::{
    Actor, Answer, Attempt, Opening, Step, are_levels, covers, is_edit, is_step, may, stated,
};
use tr_stage::Stage;
use tr_tree::Tree;

/// The screen of each stage.
const SCREEN: Size = Size {
    wide: 640,
    high: 480,
};

/// The size of each window.
const WINDOW: Size = Size {
    wide: 160,
    high: 120,
};

/// The root of each stage.
const ROOT: NodeId = NodeId(0);

/// The cause of a missing measurement.
#[derive(Debug, Drop)]
pub enum Stopped {
    NoMemory,
    /// A step isn't allowed, or its answer says that it wasn't done.
    Refused,
    Io(io::Error),
}

impl From<NoMemory> for Stopped {
    fn from(_e: NoMemory) -> Stopped {
        Stopped::NoMemory
    }
}

impl From<EditRefused> for Stopped {
    fn from(e: EditRefused) -> Stopped {
        match e {
            EditRefused::NoMemory => Stopped::NoMemory,
            EditRefused::Fault(_) => Stopped::Refused,
        }
    }
}

impl From<io::Error> for Stopped {
    fn from(e: io::Error) -> Stopped {
        Stopped::Io(e)
    }
}

/// A stage whose windows lie on a Z, each in front of the windows before it, and a bit further south-east.
pub fn stage_of<C: Client>(alloc: Global, contents: &[C]) -> Result<Stage<C>, Stopped> {
    let mut opening = Opening::new(alloc, SCREEN, Kind::Map8)?;
    match fill(alloc, &mut opening, contents) {
        Ok(()) => start(alloc, opening),
        Err(stopped) => {
            drop(opening);
            Err(stopped)
        }
    }
}

/// Puts the glyphs, the root and the windows into an opening that has nothing.
fn fill<C: Client>(alloc: Global, opening: &mut Opening<C>, contents: &[C]) -> Result<(), Stopped> {
    write_glyphs(opening)?;
    add_root(opening)?;
    for content in contents {
        add(opening, content.copy(alloc)?)?;
    }
    Ok(())
}

/// Writes a glyph for each byte that can have one.
fn write_glyphs<C: Client>(opening: &mut Opening<C>) -> Result<(), NoMemory> {
    for byte in 32..127 {
        opening.glyph(byte, [byte; 8])?;
    }
    Ok(())
}

/// Adds the root to an opening without nodes.
fn add_root<C: Client>(opening: &mut Opening<C>) -> Result<(), Stopped> {
    if opening.tree().count() > 0 {
        return Err(Stopped::Refused);
    }
    opening.node(NodeKind::Z, 255)?;
    if !has_node(opening.tree(), ROOT) {
        return Err(Stopped::Refused);
    }
    opening.root(ROOT)?;
    Ok(())
}

/// Adds a window in front of the others.
fn add<C: Client>(opening: &mut Opening<C>, content: C) -> Result<(), Stopped> {
    let n = u16::from(opening.tree().leaves());
    if opening.tree().count() >= 256 || n >= 32 {
        return Err(Stopped::Refused);
    }
    opening.leaf(just(WINDOW), content)?;
    put(opening, node_of(n), place_of(n))
}

/// Puts a window onto the root.
fn put<C: Client>(opening: &mut Opening<C>, child: NodeId, at: Point) -> Result<(), Stopped> {
    let parent = ROOT;
    if !is_edit(opening.tree(), &Edit::Attach { child, parent, at }) {
        return Err(Stopped::Refused);
    }
    opening.put(child, parent, at)?;
    Ok(())
}

/// The stage of an opening with a root.
fn start<C: Client>(alloc: Global, opening: Opening<C>) -> Result<Stage<C>, Stopped> {
    if !opening.is_ready() {
        drop(opening);
        return Err(Stopped::Refused);
    }
    match Stage::start(alloc, opening) {
        Ok(stage) => Ok(stage),
        Err(opening) => {
            drop(opening);
            Err(Stopped::NoMemory)
        }
    }
}

/// Whether the number is that of a node.
fn has_node(tree: &Tree, node: NodeId) -> bool
    ensures { IsTrue result → IsNode tree.now.nodes node }
{
    usize::from(node.0) < tree.count()
}

/// The shape that allows only this size.
fn just(size: Size) -> Shapes
    requires wide { size.wide ≤ 4096 }
    requires high { size.high ≤ 4096 }
{
    Shapes {
        across: same_lengths(size.wide),
        down: same_lengths(size.high),
    }
}

fn same_lengths(length: u16) -> Shape
    requires { length ≤ 4096 }
{
    Shape {
        lo: length,
        pref: length,
        hi: length,
    }
}

/// Makes steps, one after another.
pub fn make_all<C: Client>(stage: &mut Stage<C>, steps: Vec<Step<C::Cmd>>) -> Result<(), Stopped> {
    for step in steps {
        make(stage, step)?;
    }
    Ok(())
}

/// Makes copies of steps, one after another.
pub fn make_copies<C: Client>(
    alloc: Global,
    stage: &mut Stage<C>,
    steps: &[Step<C::Cmd>],
) -> Result<(), Stopped> {
    for step in steps {
        make(stage, step.copy(alloc)?)?;
    }
    Ok(())
}

/// Makes a step, which must be done.
pub fn make<C: Client>(stage: &mut Stage<C>, step: Step<C::Cmd>) -> Result<(), Stopped> {
    let actor = maker_of(&step);
    let level = stated(&step);
    let attempt = Attempt { actor, level, step };
    if !is_allowed(stage, &attempt) {
        drop(attempt);
        return Err(Stopped::Refused);
    }
    let reply = stage.step(attempt)?;
    if reply.answer.same(&Answer::Done) {
        Ok(())
    } else {
        Err(Stopped::Refused)
    }
}

/// The actor of the step.
fn maker_of<M>(step: &Step<M>) -> Actor {
    match *step {
        Step::Act { leaf, .. } | Step::Flush { leaf } => Actor::Leaf(leaf),
        Step::Motion { .. } | Step::Alter { .. } => Actor::Desk,
        _ => Actor::Player,
    }
}

/// Whether the actor may make the step at its levels.
fn is_allowed<C: Client>(stage: &Stage<C>, attempt: &Attempt<C::Cmd>) -> bool
    ensures { IsTrue result → IsFor (tree_of stage.now.opening).nodes
        attempt.now.actor attempt.now.level attempt.now.step }
{
    let tree = stage.opening().tree();
    let is_made_so = may(attempt.actor, &attempt.step) && covers(attempt.level, &attempt.step);
    is_made_so && are_levels(tree, &attempt.level) && is_step(tree, &attempt.step)
}
