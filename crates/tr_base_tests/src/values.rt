//! Operations, rectangles, tiles, fonts, pixmaps and lines.
ghost use Rattle.std.specs.Prelude.{◌≤◌, length};
ghost use Rattle.std.specs.List.{AllPass};
ghost use Rattle.tr_base.specs.Lines.{is_printable};

use super::ends::made;
use std::alloc::Global;
use std::process::Abort;
use tr_base::{
    Command, Font, Kind, LINE, Line, NoMemory, Op, Pixmap, Point, REACH, Rect, Size, Tile, eff,
    is_set, place_of, tile_bit, whole,
};

#[test]
fn operations_leave_their_pixels(rt: HostRuntime) {
    for (kind, op, old, want) in [
        (Kind::Map8, Op::Bg, 9, 0),
        (Kind::Map8, Op::Fg, 9, 1),
        (Kind::Map8, Op::Transparent, 9, 9),
        (Kind::Map8, Op::Set(200), 9, 200),
        (Kind::Map4, Op::Set(200), 9, 15),
        (Kind::Mono, Op::Set(200), 0, 1),
        (Kind::Mono, Op::Set(0), 1, 0),
        (Kind::Map8, Op::Exchange(3, 9), 9, 3),
        (Kind::Map8, Op::Exchange(3, 9), 3, 9),
        (Kind::Map8, Op::Exchange(3, 9), 4, 4),
        (Kind::Map4, Op::Exchange(3, 200), 15, 3),
        (Kind::Map4, Op::Exchange(16, 0), 0, 15),
        (Kind::Mono, Op::Exchange(0, 7), 0, 1),
    ] {
        assert!(rt; eff(kind, op, old) == want, "{op:?} of {old}");
    }
}

/// Whether a rectangle has these edges: west, east, north, south.
fn has_edges(rect: &Rect, want: (i32, i32, i32, i32)) -> bool {
    (rect.west(), rect.east(), rect.north(), rect.south()) == want
}

#[test]
fn rectangles_hold_their_points(rt: HostRuntime) {
    let rect = Rect::edges(-2, 3, 1, 5);
    assert!(rt; REACH == 1_048_576 && has_edges(&rect, (-2, 3, 1, 5)) && !rect.is_empty());
    assert!(rt; rect.size() == (5, 4) && rect.corner() == Point { h: -2, v: 1 });
    for (h, v, want) in [
        (-2, 1, true),
        (2, 4, true),
        (-3, 1, false),
        (3, 1, false),
        (0, 0, false),
        (0, 5, false),
    ] {
        assert!(rt; rect.has(Point { h, v }) == want, "at {h} {v}");
    }
}

#[test]
fn rectangles_meet_and_move(rt: HostRuntime) {
    let empty = Rect::edges(4, 4, 0, 9);
    let left = Rect::edges(0, 4, 0, 4);
    let right = Rect::edges(2, 9, 1, 3);
    for (found, want) in [
        (empty, (0, 0, 0, 0)),
        (Rect::edges(7, 2, 0, 9), (0, 0, 0, 0)),
        (empty.shift(Point { h: 5, v: 6 }), (0, 0, 0, 0)),
        (left.meet(&right), (2, 4, 1, 3)),
        (left.meet(&Rect::edges(4, 9, 1, 3)), (0, 0, 0, 0)),
        (right.shift(Point { h: -3, v: 10 }), (-1, 6, 11, 13)),
        (whole(Size { wide: 3, high: 2 }), (0, 3, 0, 2)),
        (whole(Size { wide: 3, high: 0 }), (0, 0, 0, 0)),
    ] {
        assert!(rt; has_edges(&found, want), "{found:?} in place of {want:?}");
    }
}

#[test]
fn tiles_repeat_in_all_directions(rt: HostRuntime) {
    let tile = Tile {
        rows: [0x80, 0x40, 0x20, 0x10, 8, 4, 2, 1],
    };
    for (h, v, want) in [
        (0, 0, true),
        (7, 7, true),
        (1, 0, false),
        (0, 1, false),
        (8, 16, true),
        (-1, -1, true),
        (-8, 0, true),
        (-1, 0, false),
        (i32::MIN, 0, true),
    ] {
        assert!(rt; tile_bit(&tile, h, v) == want, "at {h} {v}");
    }
    assert!(rt; place_of(-3) == 5 && place_of(13) == 5);
    assert!(rt; is_set(0x81, 0) && !is_set(0x81, 1) && is_set(0x81, 7));
}

/// The glyph of a byte that was given none.
const BOXED: [u8; 8] = [255, 129, 129, 129, 129, 129, 129, 255];

/// Whether all bytes of a table have this glyph.
fn have_glyph(font: &Font, bytes: &[u8], glyph: [u8; 8]) -> bool {
    for byte in bytes {
        if font.glyph_of(*byte) != glyph {
            return false;
        }
    }
    true
}

/// Whether a font keeps the glyph that it is given, and no other one.
fn keeps_its_glyph(rt: &(impl Abort + AllocGlobal)) -> bool {
    let glyph = [1, 2, 3, 4, 5, 6, 7, 8];
    let mut font = made(rt, Font::empty(rt.alloc()));
    let empty = made(rt, font.copy());
    let is_empty = have_glyph(&font, &[0, 31, 32, 65, 126, 127, 255], BOXED);
    font.set(65, glyph);
    let is_kept = have_glyph(&font, &[65], glyph) && have_glyph(&font, &[66], BOXED);
    let is_new = is_copied(rt, &font) && !font.same(&empty);
    font.set(65, BOXED);
    is_empty && is_kept && is_new && font.same(&empty)
}

/// Whether a font's copy is the same.
fn is_copied(rt: &impl Abort, font: &Font) -> bool {
    font.same(&made(rt, font.copy()))
}

/// Whether a pixmap has the pixels that it is given, row after row.
fn has_its_pixels(rt: &(impl Abort + AllocGlobal)) -> bool {
    let bytes = [3, 4, 5, 6, 7, 8];
    let pixmap = Pixmap::new(
        Size { wide: 2, high: 3 },
        made(rt, Vec::from_slice(rt.alloc(), &bytes)),
    );
    let other = Pixmap::new(
        Size { wide: 3, high: 2 },
        made(rt, Vec::from_slice(rt.alloc(), &bytes)),
    );
    let copy = made(rt, pixmap.copy());
    let points = pixmap.at(Point { h: 1, v: 2 }) == 8 && pixmap.at(Point { h: 1, v: 0 }) == 4;
    points && pixmap.row(1) == [5, 6].as_slice() && pixmap.same(&copy) && !pixmap.same(&other)
}

/// Whether a line of text has the bytes that it is given.
fn has_its_bytes(rt: &(impl Abort + AllocGlobal), bytes: &[u8]) -> bool
    requires short { length bytes.now ≤ LINE }
    requires printable { AllPass is_printable bytes.now }
{
    let line = made(rt, Line::of(rt.alloc(), bytes));
    line.bytes() == bytes && line.same(&made(rt, line.copy()))
}

#[test]
fn fonts_pixmaps_and_lines_keep_what_they_were_given(rt: HostRuntime) {
    assert!(rt; keeps_its_glyph(&rt));
    assert!(rt; has_its_pixels(&rt));
    assert!(rt; has_its_bytes(&rt, b"") && has_its_bytes(&rt, b" ~"));
    assert!(rt; has_its_bytes(&rt, &[126; 79]) && has_its_bytes(&rt, &[126; LINE]));
}

/// A command with a number below 10.
#[derive(Drop)]
struct Digit(u8);

impl Command for Digit {
    ghost use Rattle.std.specs.Prelude.{◌≡◌, ◌∷◌, []};

    ghost valid = { λ d. Unit {0} };

    ghost words = { λ d. d.0 ∷ [] };

    fn known(&self) {}

    fn copy(&self, _alloc: Global) -> Result<Digit, NoMemory> {
        Ok(Digit(self.0))
    }

    fn same(&self, other: &Digit) -> bool {
        self.0 == other.0
    }

    fn print(&self, out: &mut Vec<u8>) -> Result<(), NoMemory> {
        Ok(out.push(self.0)?)
    }
}

/// Whether a command is copied, compared and printed, through the bound.
fn is_printed<M: Command>(rt: &(impl Abort + AllocGlobal), command: &M, words: &[u8]) -> bool {
    command.known();
    let mut out = Vec::new(rt.alloc());
    made(rt, command.print(&mut out));
    made(rt, command.copy(rt.alloc())).same(command) && out.as_slice() == words
}

#[test]
fn commands_are_copied_compared_and_printed(rt: HostRuntime) {
    assert!(rt; is_printed(&rt, &Digit(7), &[7]));
}
