//! Paint commands and batches of them.
ghost use Rattle.tr_paint.specs.Paints.{IsNearPaint, IsNearRect, IsNearZero};

use super::ends::made;
use std::process::Abort;
use tr_base::{Line, Op, Pair, Pixmap, Point, Rect, Size, Tile};
use tr_paint::{Batch, Paint, PaintView, SharedPixmap};

const F: Pair = Pair {
    zero: Op::Bg,
    one: Op::Fg,
};

/// One command of each kind, all with the clip (0, 12, 0, 6), and before them one with an empty area.
fn all(rt: &(impl Abort + AllocGlobal)) -> Batch {
    let clip = Rect::edges(0, 12, 0, 6);
    let delta = Point { h: 2, v: -1 };
    let mut batch = Batch::new(rt.alloc());
    made(
        rt,
        batch.push(Paint::Text {
            clip,
            at: delta,
            ops: F,
            text: made(rt, Line::of(rt.alloc(), b"")),
        }),
    );
    made(
        rt,
        batch.push(Paint::Tint {
            clip,
            op: Op::Exchange(0, 1),
        }),
    );
    made(
        rt,
        batch.push(Paint::Texture {
            clip,
            ops: F,
            tile: Tile { rows: [0xcc; 8] },
            delta,
        }),
    );
    let pixels = made(rt, Vec::from_slice(rt.alloc(), &[1, 2, 3, 4, 5, 6]));
    let pixmap = Pixmap::new(Size { wide: 2, high: 3 }, pixels);
    made(
        rt,
        batch.push(Paint::Pixels {
            clip,
            src: made(rt, SharedPixmap::of(rt.alloc(), pixmap)),
            delta,
        }),
    );
    made(
        rt,
        batch.push(Paint::Text {
            clip,
            at: delta,
            ops: F,
            text: made(rt, Line::of(rt.alloc(), b"A")),
        }),
    );
    made(rt, batch.push(Paint::Scroll { clip, delta }));
    made(rt, batch.push(Paint::Spoil { clip }));
    batch
}

/// Whether each command has the area of its place, and paints its points whatever was there or not.
fn have_areas(batch: &Batch) -> bool {
    // Names `Paint`, so that the borrow checker knows the types that a view lends.
    let _none: Option<Paint> = None;
    let clip = Rect::edges(0, 12, 0, 6);
    let cases = [
        (clip, false),
        (clip, true),
        (Rect::edges(2, 4, 0, 2), true),
        (Rect::edges(2, 10, 0, 6), true),
        (clip, false),
        (clip, false),
    ];
    for (i, (area, is_opaque)) in cases.iter().enumerate() {
        if i >= batch.len() {
            return false;
        }
        let paint = batch.get(i);
        if paint.area() != *area || paint.is_opaque() != *is_opaque {
            return false;
        }
    }
    batch.len() == cases.len()
}

/// Whether a batch is copied, put behind itself, and cleared.
fn is_doubled(rt: &impl Abort, batch: &mut Batch) -> bool {
    let copy = made(rt, batch.copy());
    made(rt, batch.append(&copy));
    let is_twice = batch.len() == 12 && copy.len() == 6 && is_text(batch, 9);
    batch.clear();
    is_twice && batch.is_empty()
}

/// Whether a command paints text.
fn is_text(batch: &Batch, place: usize) -> bool {
    place < batch.len() && matches!(batch.get(place), PaintView::Text { .. })
}

/// Whether a command scrolls.
fn is_scroll(batch: &Batch, place: usize) -> bool {
    place < batch.len() && matches!(batch.get(place), PaintView::Scroll { .. })
}

/// A text in this row.
fn text(clip: Rect, v: i32, text: Line) -> Paint
    requires clip { IsNearRect clip }
    requires v { IsNearZero v }
    ensures { IsNearPaint result }
{
    Paint::Text {
        ops: F,
        clip,
        at: Point { h: 0, v },
        text,
    }
}

/// Texts at two points, of two clips in turn, with the background between them and a scroll that repeats.
fn page(rt: &(impl Abort + AllocGlobal)) -> Batch {
    let wide = Rect::edges(0, 24, 0, 16);
    let half = Rect::edges(0, 12, 0, 16);
    let delta = Point { h: 1, v: 0 };
    let one = made(rt, Line::of(rt.alloc(), b"one"));
    let same = made(rt, Line::of(rt.alloc(), b"one"));
    let two = made(rt, Line::of(rt.alloc(), b"two"));
    let six = made(rt, Line::of(rt.alloc(), b"six"));
    let clip = wide;
    let mut batch = Batch::new(rt.alloc());
    made(rt, batch.push(text(wide, 0, one)));
    made(rt, batch.push(Paint::Tint { clip, op: Op::Bg }));
    made(rt, batch.push(text(wide, 8, same)));
    made(rt, batch.push(Paint::Tint { clip, op: Op::Bg }));
    made(rt, batch.push(text(half, 0, two)));
    made(rt, batch.push(Paint::Scroll { clip, delta }));
    made(rt, batch.push(Paint::Scroll { clip, delta }));
    made(rt, batch.push(text(wide, 0, six)));
    batch
}

/// Whether a command is a text of these bytes, with this clip, at this point.
fn says(batch: &Batch, place: usize, bytes: &[u8], parts: (Rect, Point)) -> bool {
    if place >= batch.len() {
        return false;
    }
    match batch.get(place) {
        PaintView::Text { clip, at, text, .. } => {
            clip == parts.0 && at == parts.1 && text.bytes() == bytes
        }
        _ => false,
    }
}

/// Whether the commands of a page have their own clips, points and bytes.
fn is_page(batch: &Batch) -> bool {
    let wide = Rect::edges(0, 24, 0, 16);
    let half = Rect::edges(0, 12, 0, 16);
    let top = Point { h: 0, v: 0 };
    let low = Point { h: 0, v: 8 };
    says(batch, 0, b"one", (wide, top))
        && says(batch, 2, b"one", (wide, low))
        && says(batch, 4, b"two", (half, top))
        && says(batch, 7, b"six", (wide, top))
        && is_scroll(batch, 5)
        && is_scroll(batch, 6)
        && !is_text(batch, 1)
        && !is_text(batch, 3)
}

#[test]
fn commands_that_share_a_stored_one_stay_apart(rt: HostRuntime) {
    let wide = Rect::edges(0, 24, 0, 16);
    let half = Rect::edges(0, 12, 0, 16);
    let top = Point { h: 0, v: 0 };
    let low = Point { h: 0, v: 8 };
    let mut batch = page(&rt);
    let copy = made(&rt, batch.copy());
    assert!(rt; is_page(&batch) && is_page(&copy) && copy.len() == 8);
    made(&rt, batch.append(&copy));
    assert!(rt; is_page(&batch) && says(&batch, 12, b"two", (half, top)));
    batch.truncate(8);
    let new = made(&rt, Line::of(rt.alloc(), b"new"));
    made(&rt, batch.push(text(wide, 8, new)));
    assert!(rt; is_page(&batch) && says(&batch, 8, b"new", (wide, low)));
}

#[test]
fn batches_leave_out_empty_areas(rt: HostRuntime) {
    let mut batch = all(&rt);
    assert!(rt; have_areas(&batch));
    assert!(rt; batch.touches(Point { h: 11, v: 5 }) && !batch.touches(Point { h: 12, v: 5 }));
    assert!(rt; is_doubled(&rt, &mut batch));
}
