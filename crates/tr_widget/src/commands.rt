use std::alloc::Global;
use tr_base::{Command, NoMemory};
use w_canvas::CanvasCmd;
use w_edit::EditorCmd;
use w_lines::LinesCmd;
use w_meter::MeterCmd;
use w_plain::{BoardCmd, LabelCmd, SolidCmd};

/// A command of one of the widgets.
#[derive(Debug, Drop)]
pub enum WidgetCmd {
    Solid(SolidCmd),
    Board(BoardCmd),
    Label(LabelCmd),
    Lines(LinesCmd),
    Canvas(CanvasCmd),
    Meter(MeterCmd),
    Editor(EditorCmd),
}

impl Command for WidgetCmd {
    ghost use Rattle.tr_widget.specs.Widgets.{IsWidgetCmd, widget_words};

    ghost valid = { IsWidgetCmd };

    ghost words = { widget_words };

    fn known(&self) {
        match self {
            WidgetCmd::Solid(cmd) => cmd.known(),
            WidgetCmd::Board(cmd) => cmd.known(),
            WidgetCmd::Label(cmd) => cmd.known(),
            WidgetCmd::Lines(cmd) => cmd.known(),
            WidgetCmd::Canvas(cmd) => cmd.known(),
            WidgetCmd::Meter(cmd) => cmd.known(),
            WidgetCmd::Editor(cmd) => cmd.known(),
        }
    }

    fn copy(&self, alloc: Global) -> Result<WidgetCmd, NoMemory> {
        Ok(match self {
            WidgetCmd::Solid(cmd) => WidgetCmd::Solid(cmd.copy(alloc)?),
            WidgetCmd::Board(cmd) => WidgetCmd::Board(cmd.copy(alloc)?),
            WidgetCmd::Label(cmd) => WidgetCmd::Label(cmd.copy(alloc)?),
            WidgetCmd::Lines(cmd) => WidgetCmd::Lines(cmd.copy(alloc)?),
            WidgetCmd::Canvas(cmd) => WidgetCmd::Canvas(cmd.copy(alloc)?),
            WidgetCmd::Meter(cmd) => WidgetCmd::Meter(cmd.copy(alloc)?),
            WidgetCmd::Editor(cmd) => WidgetCmd::Editor(cmd.copy(alloc)?),
        })
    }

    fn same(&self, other: &WidgetCmd) -> bool {
        match (self, other) {
            (WidgetCmd::Solid(cmd), WidgetCmd::Solid(other)) => cmd.same(other),
            (WidgetCmd::Board(cmd), WidgetCmd::Board(other)) => cmd.same(other),
            (WidgetCmd::Label(cmd), WidgetCmd::Label(other)) => cmd.same(other),
            (WidgetCmd::Lines(cmd), WidgetCmd::Lines(other)) => cmd.same(other),
            (WidgetCmd::Canvas(cmd), WidgetCmd::Canvas(other)) => cmd.same(other),
            (WidgetCmd::Meter(cmd), WidgetCmd::Meter(other)) => cmd.same(other),
            (WidgetCmd::Editor(cmd), WidgetCmd::Editor(other)) => cmd.same(other),
            _ => false,
        }
    }

    fn print(&self, out: &mut Vec<u8>) -> Result<(), NoMemory> {
        match self {
            WidgetCmd::Solid(cmd) => cmd.print(out),
            WidgetCmd::Board(cmd) => cmd.print(out),
            WidgetCmd::Label(cmd) => cmd.print(out),
            WidgetCmd::Lines(cmd) => cmd.print(out),
            WidgetCmd::Canvas(cmd) => cmd.print(out),
            WidgetCmd::Meter(cmd) => cmd.print(out),
            WidgetCmd::Editor(cmd) => cmd.print(out),
        }
    }
}
