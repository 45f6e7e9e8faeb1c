//! Each widget, and commands of each.
use super::ends::made;
use std::process::Abort;
use std::test::Fail;
use tr_base::{Command, Env, Font, Kind, Line, Op, Point, Rect, Size, Tile};
use tr_client::{Client, Prepared};
use tr_paint::{Batch, PaintView};
use tr_widget::{Widget, WidgetCmd};
use w_canvas::{Area, Canvas, CanvasCmd};
use w_edit::{Editor, EditorCmd};
use w_lines::{Lines, LinesCmd};
use w_meter::{BarNumber, Meter, MeterCmd};
use w_plain::{Board, BoardCmd, Label, LabelCmd, Solid, SolidCmd};

pub const SQUARE: Size = Size { wide: 16, high: 16 };

pub const TILE: Tile = Tile {
    rows: [0x80, 0x40, 0x20, 0x10, 8, 4, 2, 1],
};

/// A content of each widget.
pub fn contents(rt: &(impl Abort + AllocGlobal)) -> Vec<Widget> {
    let alloc = rt.alloc();
    let mut contents = Vec::new(alloc);
    made(rt, contents.push(Widget::Solid(Solid::new(5))));
    made(
        rt,
        contents.push(Widget::Board(Board::new(TILE, Point { h: 1, v: 0 }))),
    );
    made(
        rt,
        contents.push(Widget::Label(made(rt, Label::new(made(rt, Line::of(rt.alloc(), b"hi")))))),
    );
    made(
        rt,
        contents.push(Widget::Lines(made(rt, Lines::new(alloc)))),
    );
    made(
        rt,
        contents.push(Widget::Canvas(made(rt, Canvas::new(alloc)))),
    );
    made(
        rt,
        contents.push(Widget::Meter(made(rt, Meter::new(alloc, 2)))),
    );
    made(
        rt,
        contents.push(Widget::Editor(made(rt, Editor::new(alloc)))),
    );
    contents
}

/// A command for each of them that changes it, in the same order.
pub fn commands(rt: &(impl Abort + AllocGlobal)) -> Vec<WidgetCmd> {
    let mut commands = Vec::new(rt.alloc());
    made(rt, commands.push(WidgetCmd::Solid(SolidCmd::Tint(7))));
    made(
        rt,
        commands.push(WidgetCmd::Board(BoardCmd::Tile(Tile { rows: [0; 8] }))),
    );
    made(
        rt,
        commands.push(WidgetCmd::Label(LabelCmd::Text(made(rt, Line::of(rt.alloc(), b"a"))))),
    );
    made(
        rt,
        commands.push(WidgetCmd::Lines(LinesCmd::Line(made(rt, Line::of(rt.alloc(), b"a"))))),
    );
    made(
        rt,
        commands.push(WidgetCmd::Canvas(CanvasCmd::Rect {
            area: Area::edges(0, 9, 0, 9),
            tint: 3,
        })),
    );
    made(
        rt,
        commands.push(WidgetCmd::Meter(MeterCmd::Bar {
            bar: BarNumber::of(1),
            height: 3,
        })),
    );
    made(
        rt,
        commands.push(WidgetCmd::Editor(EditorCmd::Insert(made(rt, Line::of(rt.alloc(), b"a"))))),
    );
    commands
}

/// Whether a content is changed by the command of its place alone, and is the same as the content there
/// alone.
fn hears_its_own<C: Client>(
    rt: &(impl Abort + AllocGlobal),
    place: usize,
    content: &C,
    contents: &[C],
    commands: &[C::Cmd],
) -> bool {
    let font = made(rt, Font::empty(rt.alloc()));
    let env = Env {
        kind: Kind::Mono,
        font: &font,
    };
    for (i, cmd) in commands.iter().enumerate() {
        let (next, patch) = made(rt, content.change(rt.alloc(), &env, SQUARE, cmd));
        if next.same(content) == (i == place) || patch.is_empty() == (i == place) {
            return false;
        }
    }
    for (i, other) in contents.iter().enumerate() {
        if made(rt, content.copy(rt.alloc())).same(other) != (i == place) {
            return false;
        }
    }
    true
}

/// Whether a command is the same as that of its place alone.
fn is_alone<M: Command>(
    rt: &(impl Abort + AllocGlobal),
    place: usize,
    cmd: &M,
    commands: &[M],
) -> bool {
    for (i, other) in commands.iter().enumerate() {
        if made(rt, cmd.copy(rt.alloc())).same(other) != (i == place) {
            return false;
        }
    }
    true
}

#[test]
fn a_command_of_another_widget_does_nothing(rt: HostRuntime) -> Result<(), Fail> {
    let contents = contents(&rt);
    let commands = commands(&rt);
    for (i, content) in contents.iter().enumerate() {
        assert!(rt;
            hears_its_own(&rt, i, content, &contents, &commands),
            "content {i}"
        );
    }
    for (i, cmd) in commands.iter().enumerate() {
        assert!(rt; is_alone(&rt, i, cmd, &commands), "command {i}");
    }
    Ok(())
}

/// Whether a batch is this one tint.
fn is_tint_alone(batch: &Batch, want: (Rect, Op)) -> bool {
    if batch.len() != 1 {
        return false;
    }
    match batch.get(0) {
        PaintView::Tint { clip, op } => (clip, op) == want,
        _ => false,
    }
}

/// Whether a command that is prepared for a square of two by two, and fitted anew to a row of three, has this
/// one tint as its patch.
fn is_fitted_anew<C: Client>(
    rt: &(impl Abort + AllocGlobal),
    content: &C,
    cmd: &C::Cmd,
    want: (Rect, Op),
) -> bool {
    let alloc = rt.alloc();
    let font = made(rt, Font::empty(alloc));
    let first = made(rt, content.copy(alloc));
    let size = Size { wide: 2, high: 2 };
    let mut prepared = made(rt, Prepared::fresh(alloc, first, &font, size, Kind::Map8));
    made(rt, prepared.add(made(rt, cmd.copy(alloc))));
    let again = made(rt, content.copy(alloc));
    let row = Size { wide: 3, high: 1 };
    made(rt, prepared.refit(again, &font, row, Kind::Map8));
    is_tint_alone(&prepared.batch, want) && !prepared.to.same(&prepared.from)
}

#[test]
fn a_prepared_command_is_fitted_anew(rt: HostRuntime) -> Result<(), Fail> {
    let solid = Widget::Solid(Solid::new(5));
    let cmd = WidgetCmd::Solid(SolidCmd::Tint(7));
    let want = (Rect::edges(0, 3, 0, 1), Op::Set(7));
    assert!(rt; is_fitted_anew(&rt, &solid, &cmd, want));
    Ok(())
}
