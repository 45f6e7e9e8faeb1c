ghost use Rattle.std.specs.Prelude.{◌≡◌, false, None};

use crate::stops::Stopped;
use std::alloc::Global;
use tr_base::{Kind, NodeId, Point, Shape, Shapes, Size};
use tr_client::Client;
use tr_forest::{Edit, NodeKind};
use tr_journal::{Actor, Attempt, Opening, Step, is_edit, is_step, may, stated};
use tr_stage::Stage;

const SCREEN: Size = Size { wide: 64, high: 4 };

/// The nodes are numbered as they are added: the ground, on which the window lies, is the first.
const GROUND: NodeId = NodeId(0);

const WINDOW: NodeId = NodeId(1);

/// The window's width: exactly four points.
const WIDE: Shape = Shape {
    lo: 4,
    pref: 4,
    hi: 4,
};

/// Its height: exactly two.
const HIGH: Shape = Shape {
    lo: 2,
    pref: 2,
    hi: 2,
};

/// A stage with one window.
pub fn start<C: Client>(alloc: Global, content: C) -> Result<Stage<C>, Stopped> {
    let opening = opening(alloc, content)?;
    if !opening.is_ready() {
        drop(opening);
        return Err(Stopped::Refused);
    }
    match Stage::start(alloc, opening) {
        Ok(stage) => Ok(stage),
        Err(opening) => {
            drop(opening);
            Err(Stopped::NoMemory)
        }
    }
}

fn opening<C: Client>(alloc: Global, content: C) -> Result<Opening<C>, Stopped> {
    let mut opening = Opening::new(alloc, SCREEN, Kind::Map8)?;
    match fill(&mut opening, content) {
        Ok(()) => Ok(opening),
        Err(stopped) => {
            drop(opening);
            Err(stopped)
        }
    }
}

/// Adds the ground, and a window of four by two points on it.
fn fill<C: Client>(opening: &mut Opening<C>, content: C) -> Result<(), Stopped> {
    if opening.tree().count() > 0 || opening.tree().leaves() > 0 {
        return Err(Stopped::Refused);
    }
    opening.node(NodeKind::Z, 0)?;
    let shapes = Shapes {
        across: WIDE,
        down: HIGH,
    };
    opening.leaf(shapes, content)?;
    let put = Edit::Attach {
        child: WINDOW,
        parent: GROUND,
        at: Point { h: 0, v: 1 },
    };
    if !is_edit(opening.tree(), &put) {
        return Err(Stopped::Refused);
    }
    opening.put(WINDOW, GROUND, Point { h: 0, v: 1 })?;
    opening.root(GROUND)?;
    Ok(())
}

/// The desk moves the window along the screen, and begins again at its west edge.
pub fn move_window<C: Client>(stage: &mut Stage<C>, number: u16) -> Result<(), Stopped> {
    let at = Point {
        h: i32::from(number % SCREEN.wide),
        v: 1,
    };
    make(
        stage,
        Actor::Desk,
        Step::Alter {
            edit: Edit::Move { child: WINDOW, at },
        },
    )
}

/// Makes a step, if it is allowed. The journal has the answer.
fn make<C: Client>(stage: &mut Stage<C>, actor: Actor, step: Step<C::Cmd>) -> Result<(), Stopped> {
    if !may(actor, &step) || !is_step(stage.opening().tree(), &step) {
        return Err(Stopped::Refused);
    }
    let level = stated(&step);
    stage.step(Attempt { actor, level, step })?;
    Ok(())
}
