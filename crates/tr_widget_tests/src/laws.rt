//! The laws of clients, each called once at each widget, and those that an editor has of its own: they are
//! proved in general, and here of the widgets.
use super::ends::made;
use super::widgets::{SQUARE, TILE, commands, contents};
use std::process::Abort;
use std::test::Fail;
use tr_base::{Env, Event, Font, Kind, Line, Point, Size, Tile};
use tr_client::Client;
use w_canvas::{Area, Canvas, CanvasCmd};
use w_edit::{Editor, EditorCmd};
use w_lines::{Lines, LinesCmd};
use w_meter::{BarNumber, Meter, MeterCmd};
use w_plain::{Board, BoardCmd, Label, LabelCmd, Solid, SolidCmd};

const TALL: Size = Size { wide: 12, high: 24 };

const FLAT: Size = Size { wide: 0, high: 16 };

/// Calls each law at a content and a command, behind the call that tells that they are valid. Whether the
/// command changes the content and has a patch.
fn obeys_its_laws<C: Client>(rt: &(impl Abort + AllocGlobal), content: &C, cmd: &C::Cmd) -> bool {
    let font = made(rt, Font::empty(rt.alloc()));
    let env = Env {
        kind: Kind::Map8,
        font: &font,
    };
    let (next, patch) = made(rt, content.change(rt.alloc(), &env, SQUARE, cmd));
    content.obeys_next(cmd);
    content.obeys_patch(&env, SQUARE, cmd);
    content.obeys_empty_patch(&env, FLAT, cmd);
    content.obeys_keeping(&env, SQUARE, TALL);
    content.obeys_kinds(&env, SQUARE);
    content.obeys_answer(&Event::Key { time: 7, code: 65 });
    !next.same(content) && !patch.is_empty()
}

/// Whether the widgets of one colour, of a tile and of a text do.
fn plain_ones_obey(rt: &(impl Abort + AllocGlobal)) -> bool {
    let board = Board::new(TILE, Point { h: 1, v: 0 });
    let label = made(rt, Label::new(made(rt, Line::of(rt.alloc(), b"hi"))));
    let text = LabelCmd::Text(made(rt, Line::of(rt.alloc(), b"a")));
    obeys_its_laws(rt, &Solid::new(5), &SolidCmd::Tint(7))
        && obeys_its_laws(rt, &board, &BoardCmd::Tile(Tile { rows: [0; 8] }))
        && obeys_its_laws(rt, &label, &text)
}

/// Calls the laws that an editor has of its own.
fn call_own_laws(editor: &Editor, cmd: &EditorCmd) {
    editor.obeys_flat();
    editor.obeys_effects(cmd);
}

/// Whether those of lines, of figures, of bars and of an edited text do.
fn other_ones_obey(rt: &(impl Abort + AllocGlobal)) -> bool {
    let lines = made(rt, Lines::new(rt.alloc()));
    let line = LinesCmd::Line(made(rt, Line::of(rt.alloc(), b"a")));
    let canvas = made(rt, Canvas::new(rt.alloc()));
    let figure = CanvasCmd::Rect {
        area: Area::edges(0, 9, 0, 9),
        tint: 3,
    };
    let editor = made(rt, Editor::new(rt.alloc()));
    let inserted = EditorCmd::Insert(made(rt, Line::of(rt.alloc(), b"a")));
    let meter = made(rt, Meter::new(rt.alloc(), 2));
    let bar = MeterCmd::Bar {
        bar: BarNumber::of(1),
        height: 3,
    };
    call_own_laws(&editor, &inserted);
    obeys_its_laws(rt, &lines, &line)
        && obeys_its_laws(rt, &canvas, &figure)
        && obeys_its_laws(rt, &meter, &bar)
        && obeys_its_laws(rt, &editor, &inserted)
}

#[test]
fn each_widget_obeys_the_laws_of_clients(rt: HostRuntime) -> Result<(), Fail> {
    assert!(rt; plain_ones_obey(&rt));
    assert!(rt; other_ones_obey(&rt));
    let contents = contents(&rt);
    let commands = commands(&rt);
    for (i, (content, cmd)) in contents.iter().zip(&commands).enumerate() {
        assert!(rt; obeys_its_laws(&rt, content, cmd), "content {i}");
    }
    Ok(())
}
