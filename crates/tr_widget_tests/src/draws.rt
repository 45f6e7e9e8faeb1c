//! Numbers that look random, and what is made of them.
ghost use Rattle.std.specs.Prelude.{◌≤◌};
ghost use Rattle.tr_client.specs.Laws.{IsWindowSize};
ghost use Rattle.w_plain.specs.Shifts.{IsShift};
ghost use Rattle.w_canvas.specs.Areas.{IsFigureEdge};

use super::ends::made;
use std::process::Abort;
use tr_base::{Font, Kind, Line, Point, Size, Tile};
use tr_testing::Numbers;
use tr_widget::WidgetCmd;
use w_canvas::{Area, CanvasCmd};
use w_edit::EditorCmd;
use w_lines::LinesCmd;
use w_meter::{BarNumber, MeterCmd};
use w_plain::{BoardCmd, LabelCmd, Shift, SolidCmd};

#[derive(Drop)]
pub struct Draw {
    numbers: Numbers,
}

impl Draw {
    pub fn new(state: u32) -> Draw {
        Draw {
            numbers: Numbers::new(state),
        }
    }

    fn byte(&mut self) -> u8 {
        self.numbers.byte()
    }

    fn tile(&mut self) -> Tile {
        let mut rows = [0; 8];
        for row in &mut rows {
            *row = self.byte();
        }
        Tile { rows }
    }

    fn point(&mut self) -> Point
        ensures { IsShift result }
    {
        Point {
            h: i32::from(self.byte()) - 100,
            v: i32::from(self.byte()) - 100,
        }
    }

    fn line(&mut self, rt: &(impl Abort + AllocGlobal)) -> Line {
        let line = match self.byte() % 4 {
            0 => Line::of(rt.alloc(), b""),
            1 => Line::of(rt.alloc(), b"a"),
            2 => Line::of(rt.alloc(), b"Zz~"),
            _ => Line::of(rt.alloc(), b" to be "),
        };
        made(rt, line)
    }

    pub fn font(&mut self, rt: &(impl Abort + AllocGlobal)) -> Font {
        let mut font = made(rt, Font::empty(rt.alloc()));
        font.set(b'a', self.tile().rows);
        font.set(b'~', self.tile().rows);
        font
    }

    pub fn kind(&mut self) -> Kind {
        match self.byte() % 3 {
            0 => Kind::Mono,
            1 => Kind::Map4,
            _ => Kind::Map8,
        }
    }

    fn side(&mut self) -> u16
        ensures { result ≤ 255 }
    {
        let drawn = u16::from(self.byte());
        if drawn < 40 { 0 } else { drawn % 28 }
    }

    pub fn size(&mut self) -> Size
        ensures { IsWindowSize result }
    {
        Size {
            wide: self.side(),
            high: self.side(),
        }
    }

    /// An edge in a small window or a little beside it, and now and then a far one.
    fn edge(&mut self) -> i32
        ensures { IsFigureEdge result }
    {
        match self.byte() {
            0..10 => -8192,
            10..20 => 8192,
            drawn => i32::from(drawn % 30) - 2,
        }
    }

    fn area(&mut self) -> Area {
        Area::edges(self.edge(), self.edge(), self.edge(), self.edge())
    }

    /// Commands of all widgets.
    pub fn commands(&mut self, rt: &(impl Abort + AllocGlobal)) -> Vec<WidgetCmd> {
        let mut commands = Vec::new(rt.alloc());
        for _ in 0..100 {
            let cmd = self.command(rt);
            made(rt, commands.push(cmd));
        }
        commands
    }

    /// A command of any widget.
    fn command(&mut self, rt: &(impl Abort + AllocGlobal)) -> WidgetCmd {
        match self.byte() % 20 {
            0 => WidgetCmd::Solid(SolidCmd::Tint(self.byte())),
            1 => WidgetCmd::Board(BoardCmd::Tile(self.tile())),
            2 => WidgetCmd::Board(BoardCmd::Shift(Shift::by(self.point()))),
            3 => WidgetCmd::Label(LabelCmd::Text(self.line(rt))),
            4..9 => WidgetCmd::Lines(LinesCmd::Line(self.line(rt))),
            9 => WidgetCmd::Lines(LinesCmd::Clear),
            10 | 11 => WidgetCmd::Canvas(CanvasCmd::Rect {
                area: self.area(),
                tint: self.byte() % 20,
            }),
            12 => WidgetCmd::Canvas(CanvasCmd::Exchange {
                area: self.area(),
                a: self.byte() % 20,
                b: self.byte() % 20,
            }),
            13 => WidgetCmd::Canvas(CanvasCmd::Undo),
            14 | 15 => WidgetCmd::Meter(MeterCmd::Bar {
                bar: BarNumber::of(self.byte() % 5),
                height: self.byte() % 32,
            }),
            16 | 17 => WidgetCmd::Editor(EditorCmd::Insert(self.line(rt))),
            18 => WidgetCmd::Editor(EditorCmd::Split),
            _ => WidgetCmd::Editor(EditorCmd::Erase),
        }
    }
}
