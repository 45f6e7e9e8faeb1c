//! Batches, regions and screens that are drawn at random.
ghost use Rattle.std.specs.Prelude.{◌≡◌};
ghost use Rattle.tr_base.specs.Rects.{IsScreenSize};
ghost use Rattle.tr_paint.specs.Paints.{IsNearZero, IsNearPaint, IsNearPoint, IsNearRect};
ghost use Rattle.tr_exec.specs.Executions.{IsOrigin, RegionLiesOn};

use super::ends::made;
use std::process::Abort;
use tr_base::{Font, Kind, Line, Op, Pair, Pixmap, Point, Rect, Size, Tile, whole};
use tr_paint::{Batch, Paint, SharedPixmap};
use tr_region::Region;
use tr_screen::Screen;
use tr_testing::Numbers;

/// What is drawn. A copy of it draws the same once more.
#[derive(Clone, Copy)]
pub struct Draw {
    numbers: Numbers,
}

impl Draw {
    pub fn new(state: u32) -> Draw {
        Draw {
            numbers: Numbers::new(state),
        }
    }

    fn byte(&mut self) -> u8 {
        self.numbers.byte()
    }

    /// A coordinate on a small screen, or a little beside it.
    fn coordinate(&mut self) -> i32
        ensures { IsNearZero result }
    {
        i32::from(self.byte() % 14) - 2
    }

    /// A small distance in any direction.
    pub fn step(&mut self) -> Point
        ensures near { IsNearPoint result }
        ensures origin { IsOrigin result }
    {
        Point {
            h: i32::from(self.byte() % 9) - 4,
            v: i32::from(self.byte() % 9) - 4,
        }
    }

    /// Two coordinates, the lesser one first.
    fn sides(&mut self) -> (i32, i32)
        ensures low { IsNearZero result.0 }
        ensures high { IsNearZero result.1 }
    {
        let (a, b) = (self.coordinate(), self.coordinate());
        if a < b { (a, b) } else { (b, a) }
    }

    fn rect(&mut self) -> Rect
        ensures { IsNearRect result }
    {
        let (west, east) = self.sides();
        let (north, south) = self.sides();
        Rect::edges(west, east, north, south)
    }

    pub fn size(&mut self) -> Size
        ensures { IsScreenSize result }
    {
        Size {
            wide: u16::from(self.byte() % 12) + 1,
            high: u16::from(self.byte() % 8) + 1,
        }
    }

    pub fn kind(&mut self) -> Kind {
        match self.byte() % 3 {
            0 => Kind::Mono,
            1 => Kind::Map4,
            _ => Kind::Map8,
        }
    }

    fn op(&mut self) -> Op {
        match self.byte() % 6 {
            0 => Op::Bg,
            1 => Op::Fg,
            2 => Op::Transparent,
            3 => Op::Set(self.byte()),
            _ => Op::Exchange(self.byte() % 18, self.byte() % 18),
        }
    }

    fn pair(&mut self) -> Pair {
        Pair {
            zero: self.op(),
            one: self.op(),
        }
    }

    fn tile(&mut self) -> Tile {
        let mut rows = [0; 8];
        for row in &mut rows {
            *row = self.byte();
        }
        Tile { rows }
    }

    fn text(&mut self, rt: &(impl Abort + AllocGlobal)) -> Line {
        match self.byte() % 3 {
            0 => made(rt, Line::of(rt.alloc(), b"")),
            1 => made(rt, Line::of(rt.alloc(), b"a")),
            _ => made(rt, Line::of(rt.alloc(), b"~a")),
        }
    }

    pub fn font(&mut self, rt: &(impl Abort + AllocGlobal)) -> Font {
        let mut font = made(rt, Font::empty(rt.alloc()));
        font.set(b'a', self.tile().rows);
        font
    }

    /// A picture of four columns and two rows.
    fn pixmap(&mut self, rt: &(impl Abort + AllocGlobal)) -> SharedPixmap {
        let pixels = made(rt, Vec::from_slice(rt.alloc(), &self.tile().rows));
        let pixmap = Pixmap::new(Size { wide: 4, high: 2 }, pixels);
        made(rt, SharedPixmap::of(rt.alloc(), pixmap))
    }

    fn paint(&mut self, rt: &(impl Abort + AllocGlobal)) -> Paint
        ensures { IsNearPaint result }
    {
        let clip = self.rect();
        let delta = self.step();
        match self.byte() % 8 {
            0 => Paint::Tint {
                clip,
                op: self.op(),
            },
            1 => Paint::Texture {
                clip,
                ops: self.pair(),
                tile: self.tile(),
                delta,
            },
            2 => Paint::Pixels {
                clip,
                src: self.pixmap(rt),
                delta,
            },
            3 => Paint::Text {
                clip,
                at: delta,
                ops: self.pair(),
                text: self.text(rt),
            },
            4 => Paint::Spoil { clip },
            _ => Paint::Scroll { clip, delta },
        }
    }

    /// Up to eleven commands.
    pub fn batch(&mut self, rt: &(impl Abort + AllocGlobal)) -> Batch {
        let mut batch = Batch::new(rt.alloc());
        for done in 0..self.byte() % 12 {
            made(rt, batch.push(self.paint(rt)));
        }
        batch
    }

    /// Some points of a screen.
    pub fn region(&mut self, rt: &(impl Abort + AllocGlobal), size: Size) -> Region
        ensures { RegionLiesOn size result }
    {
        let alloc = rt.alloc();
        let mut points = Region::empty(alloc);
        for done in 0..self.byte() % 8 {
            let more = made(rt, Region::of_rect(alloc, self.rect()));
            points = made(rt, points.union(&more));
        }
        let all = made(rt, Region::of_rect(alloc, whole(size)));
        made(rt, all.meet(&points))
    }

    /// A screen with any pixels, some beyond those of its kind.
    pub fn screen(&mut self, rt: &(impl Abort + AllocGlobal), size: Size, kind: Kind) -> Screen
        requires { IsScreenSize size }
        ensures size { result.size ≡ size }
        ensures kind { result.kind ≡ kind }
    {
        let mut screen = made(rt, Screen::blank(rt.alloc(), size, kind));
        for v in 0..size.high {
            self.pixels(screen.row_mut(v));
        }
        screen
    }

    fn pixels(&mut self, row: &mut [u8]) {
        for pixel in row {
            *pixel = self.byte() % 20;
        }
    }
}
