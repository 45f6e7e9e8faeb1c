//! Openings for tests, made of parts as a script's lines are.
use super::ends::{accepted, made};
use std::process::Abort;
use tr_base::{Kind, Line, NodeId, Point, Shape, Shapes, Size, is_printable};
use tr_client::Client;
use tr_forest::{Edit, EditRefused, NodeKind};
use tr_journal::{Opening, is_edit};
use tr_widget::Widget;
use w_lines::Lines;
use w_plain::{Label, Solid};

/// One of the things that make an opening. The first node is the root.
#[derive(Clone, Copy)]
pub enum Part {
    /// The glyph of A is full.
    Glyph,
    /// A row of children, and its tint.
    Row(u8),
    /// A leaf that wants these lengths across and down, at least, by preference and at most, and what it
    /// shows.
    Leaf([u16; 3], [u16; 3], Shown),
    /// The node of the first number becomes a child of the second, and stands there if that is a Z.
    Put(u16, u16, i32, i32),
}

/// What a leaf shows at first.
#[derive(Clone, Copy)]
pub enum Shown {
    /// One colour.
    Solid(u8),
    /// The text `hi`.
    Label,
    /// No line.
    Lines,
}

/// A content that tests can make. So what they do with a stage is proved of the contents of every client,
/// whose pictures it needn't know.
pub trait Sample: Sized {
    /// A content that shows this.
    fn showing(rt: &(impl Abort + AllocGlobal), shown: Shown) -> Self;
}

impl Sample for Widget {
    fn showing(rt: &(impl Abort + AllocGlobal), shown: Shown) -> Widget {
        match shown {
            Shown::Solid(tint) => Widget::Solid(Solid::new(tint)),
            Shown::Label => Widget::Label(made(rt, Label::new(line(rt, b"hi")))),
            Shown::Lines => Widget::Lines(made(rt, Lines::new(rt.alloc()))),
        }
    }
}

/// The line of these bytes.
pub fn line(rt: &(impl Abort + AllocGlobal), bytes: &[u8]) -> Line {
    assert!(rt; bytes.len() <= 80 && bytes.iter().all(|byte| is_printable(*byte)));
    made(rt, Line::of(rt.alloc(), bytes))
}

/// Lengths of at least, by preference, and at most.
fn shape(rt: &impl Abort, lengths: &[u16; 3]) -> Shape {
    let [lo, pref, hi] = *lengths;
    assert!(rt; lo <= pref && pref <= hi && hi <= 4096);
    Shape { lo, pref, hi }
}

/// The shapes of these lengths.
fn shapes(rt: &impl Abort, across: &[u16; 3], down: &[u16; 3]) -> Shapes {
    let (across, down) = (shape(rt, across), shape(rt, down));
    Shapes { across, down }
}

/// Adds a row of children.
fn add_row<C: Client>(rt: &impl Abort, opening: &mut Opening<C>, tint: u8) {
    assert!(rt; opening.tree().count() < 256);
    made(rt, opening.node(NodeKind::H, tint));
}

/// Adds a leaf.
fn add_leaf<C: Client>(rt: &impl Abort, opening: &mut Opening<C>, shapes: Shapes, content: C) {
    assert!(rt; opening.tree().count() < 256 && opening.tree().leaves() < 32);
    made(rt, opening.leaf(shapes, content));
}

/// Makes a node the child of another.
fn put<C: Client>(
    rt: &impl Abort,
    opening: &mut Opening<C>,
    child: NodeId,
    parent: NodeId,
    at: Point,
) -> Result<(), EditRefused> {
    assert!(rt; is_edit(opening.tree(), &Edit::Attach { child, parent, at }));
    opening.put(child, parent, at)
}

/// Makes the first node the root.
fn set_root<C: Client>(rt: &impl Abort, opening: &mut Opening<C>) {
    assert!(rt; 0 < opening.tree().count());
    accepted(rt, opening.root(NodeId(0)));
}

fn add<C: Client + Sample>(rt: &(impl Abort + AllocGlobal), opening: &mut Opening<C>, part: &Part) {
    match part {
        Part::Glyph => made(rt, opening.glyph(b'A', [0xff; 8])),
        Part::Row(tint) => add_row(rt, opening, *tint),
        Part::Leaf(across, down, shown) => {
            let shapes = shapes(rt, across, down);
            add_leaf(rt, opening, shapes, C::showing(rt, *shown));
        }
        Part::Put(child, parent, h, v) => {
            let at = Point { h: *h, v: *v };
            accepted(rt, put(rt, opening, NodeId(*child), NodeId(*parent), at));
        }
    }
}

/// The screen alone.
fn blank<C: Client>(rt: &(impl Abort + AllocGlobal), size: Size) -> Opening<C> {
    assert!(rt; 1 <= size.wide && size.wide <= 1024 && 1 <= size.high && size.high <= 1024);
    made(rt, Opening::new(rt.alloc(), size, Kind::Map8))
}

/// The opening of a screen of this size.
pub fn opening_of<C: Client + Sample>(
    rt: &(impl Abort + AllocGlobal),
    size: Size,
    parts: &[Part],
) -> Opening<C> {
    let mut opening = blank(rt, size);
    for part in parts {
        add(rt, &mut opening, part);
    }
    set_root(rt, &mut opening);
    opening
}
