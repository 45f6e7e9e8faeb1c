//! The stage of one window, and what tests ask of its client.
ghost use Rattle.std.specs.Prelude.{◌≤◌};

use super::ends::made;
use std::process::Abort;
use tr_base::{Kind, NodeId, Shape, Shapes, Size};
use tr_client::Client;
use tr_journal::Opening;
use tr_stage::Stage;
use w_plain::{Solid, SolidCmd};

/// A content of one colour, and its command for another. So what tests do with a session is proved of the
/// contents of every client, whose pictures it needn't know.
pub trait Coloured: Client {
    /// A content of this colour.
    fn of(tint: u8) -> Self;

    /// The command for another.
    fn tint(tint: u8) -> Self::Cmd;
}

impl Coloured for Solid {
    fn of(tint: u8) -> Solid {
        Solid::new(tint)
    }

    fn tint(tint: u8) -> SolidCmd {
        SolidCmd::Tint(tint)
    }
}

/// Just this length.
pub fn exactly(length: u16) -> Shape
    requires { length ≤ 4096 }
{
    Shape {
        lo: length,
        pref: length,
        hi: length,
    }
}

/// Adds a leaf of two by two points.
fn add_leaf<C: Client>(rt: &impl Abort, opening: &mut Opening<C>, content: C) {
    assert!(rt; opening.tree().count() < 256 && opening.tree().leaves() < 32);
    let shapes = Shapes {
        across: exactly(2),
        down: exactly(2),
    };
    made(rt, opening.leaf(shapes, content));
}

/// Makes the first node the root.
fn set_root<C: Client>(rt: &impl Abort, opening: &mut Opening<C>) {
    assert!(rt; 0 < opening.tree().count());
    made(rt, opening.root(NodeId(0)));
}

/// One window of the colour 1, that fills a screen of two by two points.
fn one_window<C: Coloured>(rt: &(impl Abort + AllocGlobal)) -> Opening<C> {
    let size = Size { wide: 2, high: 2 };
    let mut opening = made(rt, Opening::new(rt.alloc(), size, Kind::Map8));
    add_leaf(rt, &mut opening, C::of(1));
    set_root(rt, &mut opening);
    opening
}

/// The stage of that.
pub fn stage_of_one<C: Coloured>(rt: &(impl Abort + AllocGlobal)) -> Stage<C> {
    let opening = one_window(rt);
    assert!(rt; opening.is_ready());
    made(rt, Stage::start(rt.alloc(), opening))
}
