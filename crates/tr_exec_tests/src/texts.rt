//! A text on a screen that shows all of it, and on one that shows a part.
ghost use Rattle.std.specs.Prelude.{◌≡◌};
ghost use Rattle.tr_exec.specs.Executions.{RegionLiesOn};

use super::ends::made;
use std::process::Abort;
use tr_base::{Env, Font, Kind, Line, Op, Pair, Point, Rect, Size, whole};
use tr_exec::execute;
use tr_paint::{Batch, Paint};
use tr_region::Region;
use tr_screen::Screen;

const SIZE: Size = Size { wide: 26, high: 10 };

/// The pixels for a bit that is set, and for one that isn't.
const INKS: Pair = Pair {
    zero: Op::Set(b'.'),
    one: Op::Set(b'#'),
};

/// A font with a cross and steps.
fn font(rt: &(impl Abort + AllocGlobal)) -> Font {
    let mut font = made(rt, Font::empty(rt.alloc()));
    font.set(b'a', [0x81, 0x42, 0x24, 0x18, 0x18, 0x24, 0x42, 0x81]);
    font.set(b'b', [0x01, 0x03, 0x07, 0x0f, 0x1f, 0x3f, 0x7f, 0xff]);
    font
}

/// A text of three letters.
fn letters(rt: &(impl Abort + AllocGlobal)) -> Batch {
    let mut batch = Batch::new(rt.alloc());
    made(
        rt,
        batch.push(Paint::Text {
            clip: Rect::edges(0, 26, 0, 10),
            at: Point { h: 1, v: 1 },
            ops: INKS,
            text: made(rt, Line::of(rt.alloc(), b"aba")),
        }),
    );
    batch
}

/// The points of a screen, but those of a rectangle.
fn without(rt: &(impl Abort + AllocGlobal), size: Size, hole: Rect) -> Region
    ensures { RegionLiesOn size result }
{
    let hole = made(rt, Region::of_rect(rt.alloc(), hole));
    let all = made(rt, Region::of_rect(rt.alloc(), whole(size)));
    made(rt, all.minus(&hole))
}

/// A screen after the text, where a rectangle was covered.
fn written(rt: &(impl Abort + AllocGlobal), covered: Rect) -> Screen
    ensures { result.size ≡ SIZE }
{
    let alloc = rt.alloc();
    let mut screen = made(rt, Screen::blank(alloc, SIZE, Kind::Map8));
    screen.fill(b' ');
    let font = font(rt);
    let env = Env {
        kind: Kind::Map8,
        font: &font,
    };
    let batch = letters(rt);
    let visible = without(rt, screen.size(), covered);
    let mut bad = Region::empty(alloc);
    let corner = Point { h: 0, v: 0 };
    made(
        rt,
        execute(alloc, &batch, &env, corner, &visible, &mut screen, &mut bad),
    );
    screen
}

/// Whether the rows of the screen are these.
fn shows(screen: &Screen, rows: [&[u8; 26]; 10]) -> bool
    requires { screen.now.size ≡ SIZE }
{
    for v in 0..10 {
        if screen.row(v) != rows[usize::from(v)].as_slice() {
            return false;
        }
    }
    true
}

#[test]
fn a_text_is_written(rt: HostRuntime) {
    let shown = [
        b"                          ",
        b" #......#.......##......# ",
        b" .#....#.......##.#....#. ",
        b" ..#..#.......###..#..#.. ",
        b" ...##.......####...##... ",
        b" ...##......#####...##... ",
        b" ..#..#....######..#..#.. ",
        b" .#....#..#######.#....#. ",
        b" #......##########......# ",
        b"                          ",
    ];
    let cut = [
        b"                          ",
        b" #......#.......##......# ",
        b" .#....#.......##.#....#. ",
        b" ..#..      ..###..#..#.. ",
        b" ...##      .####...##... ",
        b" ...##      #####...##... ",
        b" ..#..#....######..#..#.. ",
        b" .#....#..#######.#....#. ",
        b" #......##########......# ",
        b"                          ",
    ];
    for (covered, want) in [
        (Rect::edges(0, 0, 0, 0), shown),
        (Rect::edges(6, 12, 3, 6), cut),
    ] {
        let screen = written(&rt, covered);
        assert!(rt; shows(&screen, want), "{covered:?} is covered");
    }
}
