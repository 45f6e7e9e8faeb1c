ghost use Rattle.std.specs.Prelude.{◌≡◌, ◌++◌, OnOk, OnErr};
ghost use Rattle.std.specs.List.{flat_map};
ghost use Rattle.w_canvas.specs.Canvases as spec;

use crate::areas::Area;
use itoa::Buffer;
use std::alloc::Global;
use tr_base::{Command, NoMemory};
use tr_client::append_all;

/// A command of a Canvas.
#[derive(Clone, Copy, Debug)]
pub enum CanvasCmd {
    /// Draws a rectangle whose points are set to the tint, cut to the kind of the pixels.
    Rect { area: Area, tint: u8 },
    /// Draws a rectangle in which the two pixel values are exchanged.
    Exchange { area: Area, a: u8, b: u8 },
    /// Removes the last figure.
    Undo,
}

/// Appends a word, the edges of a rectangle and then the texts to `out`, or nothing.
fn append_with_edges(
    out: &mut Vec<u8>,
    word: &[u8],
    area: &Area,
    rest: &[&[u8]],
) -> Result<(), NoMemory>
    ensures ok { OnOk result (out.new.items ≡
        out.old.items ++ (word.now ++ spec.edge_words area.now ++ flat_map (λ text. text.now) rest.now)) }
    ensures err { OnErr result (out.new.items ≡ out.old.items) }
{
    let len = out.len();
    let rect = area.rect();
    let (mut first, mut second) = (Buffer::new(), Buffer::new());
    let (mut third, mut fourth) = (Buffer::new(), Buffer::new());
    let west = first.format(rect.west());
    let east = second.format(rect.east());
    let north = third.format(rect.north());
    let south = fourth.format(rect.south());
    append_all(
        out,
        &[
            word,
            west.as_bytes(),
            b" ",
            east.as_bytes(),
            b" ",
            north.as_bytes(),
            b" ",
            south.as_bytes(),
        ],
    )?;
    match append_all(out, rest) {
        Ok(()) => Ok(()),
        Err(NoMemory) => {
            out.truncate(len);
            Err(NoMemory)
        }
    }
}

impl Command for CanvasCmd {
    ghost use Rattle.w_canvas.specs.Canvases.{IsCanvasCmd, canvas_words};

    ghost valid = { IsCanvasCmd };

    ghost words = { canvas_words };

    fn known(&self) {
        match self {
            CanvasCmd::Rect { area, tint } => {
                let (_rect, _tint) = (area.rect(), *tint);
            }
            CanvasCmd::Exchange { area, a, b } => {
                let (_rect, _a, _b) = (area.rect(), *a, *b);
            }
            CanvasCmd::Undo => {}
        }
    }

    fn copy(&self, _alloc: Global) -> Result<CanvasCmd, NoMemory> {
        Ok(*self)
    }

    fn same(&self, other: &CanvasCmd) -> bool {
        match (self, other) {
            (
                CanvasCmd::Rect { area, tint },
                CanvasCmd::Rect {
                    area: other_area,
                    tint: other_tint,
                },
            ) => { area.same(other_area) && tint == other_tint }
            (
                CanvasCmd::Exchange { area, a, b },
                CanvasCmd::Exchange {
                    area: other_area,
                    a: other_a,
                    b: other_b,
                },
            ) => { area.same(other_area) && a == other_a && b == other_b }
            (CanvasCmd::Undo, CanvasCmd::Undo) => true,
            _ => false,
        }
    }

    fn print(&self, out: &mut Vec<u8>) -> Result<(), NoMemory> {
        let (mut first, mut second) = (Buffer::new(), Buffer::new());
        match self {
            CanvasCmd::Rect { area, tint } => {
                append_with_edges(out, b"rect ", area, &[b" ", first.format(*tint).as_bytes()])
            }
            CanvasCmd::Exchange { area, a: 0, b: 1 } => append_with_edges(out, b"swap ", area, &[]),
            CanvasCmd::Exchange { area, a, b } => {
                let a = first.format(*a);
                let b = second.format(*b);
                append_with_edges(
                    out,
                    b"exchange ",
                    area,
                    &[b" ", a.as_bytes(), b" ", b.as_bytes()],
                )
            }
            CanvasCmd::Undo => append_all(out, &[b"undo"]),
        }
    }
}
