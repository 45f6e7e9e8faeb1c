//! Small batches on a row of four points.
ghost use Rattle.tr_exec.specs.Executions.{RegionLiesOn};

use super::ends::made;
use std::process::Abort;
use tr_base::{Env, Font, Kind, Line, Op, Pair, Pixmap, Point, Rect, Size, Tile, whole};
use tr_exec::execute;
use tr_paint::{Batch, Paint, SharedPixmap};
use tr_region::Region;
use tr_screen::Screen;

const CORNER: Point = Point { h: 0, v: 0 };

const BACKGROUND_OR_NOTHING: Pair = Pair {
    zero: Op::Bg,
    one: Op::Transparent,
};

const F: Pair = Pair {
    zero: Op::Bg,
    one: Op::Fg,
};

/// The points of a rectangle that lie on a screen.
fn part(rt: &(impl Abort + AllocGlobal), size: Size, rect: Rect) -> Region
    ensures { RegionLiesOn size result }
{
    let all = made(rt, Region::of_rect(rt.alloc(), whole(size)));
    let part = made(rt, Region::of_rect(rt.alloc(), rect));
    made(rt, all.meet(&part))
}

/// The pixels of a screen of four points in a row, after the batch, and its bad points.
fn executed(
    rt: &(impl Abort + AllocGlobal),
    before: [u8; 4],
    bad: Rect,
    batch: &Batch,
) -> (Vec<u8>, Region) {
    let alloc = rt.alloc();
    let size = Size { wide: 4, high: 1 };
    let mut screen = made(rt, Screen::blank(alloc, size, Kind::Map8));
    screen.row_mut(0).copy_from_slice(&before);
    let font = made(rt, Font::empty(alloc));
    let env = Env {
        kind: Kind::Map8,
        font: &font,
    };
    let visible = part(rt, screen.size(), whole(screen.size()));
    let mut bad = part(rt, screen.size(), bad);
    made(
        rt,
        execute(alloc, batch, &env, CORNER, &visible, &mut screen, &mut bad),
    );
    (made(rt, Vec::from_slice(alloc, screen.row(0))), bad)
}

/// A batch of one command.
fn scroll(rt: &(impl Abort + AllocGlobal)) -> Batch {
    let clip = Rect::edges(0, 4, 0, 1);
    let mut batch = Batch::new(rt.alloc());
    made(
        rt,
        batch.push(Paint::Scroll {
            clip,
            delta: Point { h: 1, v: 0 },
        }),
    );
    batch
}

fn exchange(rt: &(impl Abort + AllocGlobal)) -> Batch {
    let clip = Rect::edges(0, 4, 0, 1);
    let mut batch = Batch::new(rt.alloc());
    made(
        rt,
        batch.push(Paint::Tint {
            clip,
            op: Op::Exchange(0, 1),
        }),
    );
    batch
}

fn texture(rt: &(impl Abort + AllocGlobal)) -> Batch {
    let clip = Rect::edges(0, 4, 0, 1);
    let mut batch = Batch::new(rt.alloc());
    made(
        rt,
        batch.push(Paint::Texture {
            clip,
            ops: BACKGROUND_OR_NOTHING,
            tile: Tile { rows: [0xcc; 8] },
            delta: Point { h: 0, v: 0 },
        }),
    );
    batch
}

fn spoil_and_tint(rt: &(impl Abort + AllocGlobal)) -> Batch {
    let mut batch = Batch::new(rt.alloc());
    made(
        rt,
        batch.push(Paint::Spoil {
            clip: Rect::edges(0, 2, 0, 1),
        }),
    );
    made(
        rt,
        batch.push(Paint::Tint {
            clip: Rect::edges(1, 3, 0, 1),
            op: Op::Set(9),
        }),
    );
    batch
}

fn picture(rt: &(impl Abort + AllocGlobal)) -> Batch {
    let clip = Rect::edges(0, 4, 0, 1);
    let mut batch = Batch::new(rt.alloc());
    let pixels = made(rt, Vec::from_slice(rt.alloc(), &[3, 4]));
    let pixmap = Pixmap::new(Size { wide: 2, high: 1 }, pixels);
    made(
        rt,
        batch.push(Paint::Pixels {
            clip,
            src: made(rt, SharedPixmap::of(rt.alloc(), pixmap)),
            delta: Point { h: 1, v: 0 },
        }),
    );
    made(
        rt,
        batch.push(Paint::Text {
            clip: Rect::edges(3, 4, 0, 1),
            at: Point { h: 3, v: -1 },
            ops: F,
            text: made(rt, Line::of(rt.alloc(), b"A")),
        }),
    );
    batch
}

/// Whether each point of a row has its pixel, or is bad where none is wanted.
fn is_left(row: &[u8], bad: &Region, want: [Option<u8>; 4]) -> bool {
    for ((h, pixel), shown) in (0..4).zip(want).zip(row) {
        let p = Point { h, v: 0 };
        if bad.has(p) != pixel.is_none() || pixel.unwrap_or(*shown) != *shown {
            return false;
        }
    }
    true
}

/// Whether a batch leaves this of a row, of which some points were bad.
fn leaves(
    rt: &(impl Abort + AllocGlobal),
    before: [u8; 4],
    bad: Rect,
    batch: &Batch,
    want: [Option<u8>; 4],
) -> bool {
    let (row, bad) = executed(rt, before, bad, batch);
    is_left(&row, &bad, want)
}

#[test]
fn a_row_is_painted(rt: HostRuntime) {
    let none = Rect::edges(0, 0, 0, 0);
    let third = Rect::edges(2, 3, 0, 1);
    let all = Rect::edges(0, 4, 0, 1);
    let cases = [
        (
            [5, 6, 7, 8],
            third,
            scroll(&rt),
            [None, Some(5), Some(6), None],
        ),
        (
            [0, 1, 7, 8],
            third,
            exchange(&rt),
            [Some(1), Some(0), None, Some(8)],
        ),
        (
            [5, 6, 7, 8],
            none,
            texture(&rt),
            [Some(5), Some(6), Some(0), Some(0)],
        ),
        ([5, 6, 7, 8], all, texture(&rt), [None, None, None, None]),
        (
            [5, 6, 7, 8],
            none,
            spoil_and_tint(&rt),
            [None, Some(9), Some(9), Some(8)],
        ),
        (
            [5, 6, 7, 8],
            all,
            picture(&rt),
            [None, Some(3), Some(4), Some(1)],
        ),
    ];
    for (before, bad, batch, want) in cases {
        assert!(rt;
            leaves(&rt, before, bad, &batch, want),
            "{want:?} of {before:?}"
        );
    }
}
