ghost use Rattle.tr_widget.specs.Widgets as spec;

use crate::commands::WidgetCmd;
use std::alloc::Global;
use tr_base::{Command, Env, Event, Line, NoMemory, Rect, Size};
use tr_client::Client;
use tr_paint::Batch;
use w_canvas::Canvas;
use w_edit::Editor;
use w_lines::Lines;
use w_meter::Meter;
use w_plain::{Board, Label, Solid};

/// A window with one of the widgets.
#[derive(Debug, Drop)]
pub enum Widget {
    Solid(Solid),
    Board(Board),
    Label(Label),
    Lines(Lines),
    Canvas(Canvas),
    Meter(Meter),
    Editor(Editor),
}

impl Widget {
    /// Tells that the content is valid for its widget. Nothing runs.
    fn known(&self)
        ensures { spec.IsWidget self.now }
    {
        match self {
            Widget::Solid(x) => x.invariant(),
            Widget::Board(x) => x.invariant(),
            Widget::Label(x) => x.invariant(),
            Widget::Lines(x) => x.invariant(),
            Widget::Canvas(x) => x.invariant(),
            Widget::Meter(x) => x.invariant(),
            Widget::Editor(x) => x.invariant(),
        }
    }
}

impl Client for Widget {
    ghost use Rattle.tr_widget.specs.Widgets.{IsWidget, widget_pic, widget_next, widget_patch, widget_answer, widget_value, widget_keeps};
    ghost use Rattle.tr_widget.specs.WidgetLaws.{widget_contents, widget_answers, widget_patches, widget_empty_patches, widget_keeping, widget_kinds};

    type Cmd = WidgetCmd;

    ghost valid = { IsWidget };

    ghost pic = { widget_pic };

    ghost next = { widget_next };

    ghost patch = { widget_patch };

    ghost answer = { widget_answer };

    ghost value = { widget_value };

    ghost keeps = { widget_keeps };

    fn copy(&self, alloc: Global) -> Result<Widget, NoMemory> {
        Ok(match self {
            Widget::Solid(x) => Widget::Solid(x.copy(alloc)?),
            Widget::Board(x) => Widget::Board(x.copy(alloc)?),
            Widget::Label(x) => Widget::Label(x.copy(alloc)?),
            Widget::Lines(x) => Widget::Lines(x.copy(alloc)?),
            Widget::Canvas(x) => Widget::Canvas(x.copy(alloc)?),
            Widget::Meter(x) => Widget::Meter(x.copy(alloc)?),
            Widget::Editor(x) => Widget::Editor(x.copy(alloc)?),
        })
    }

    fn same(&self, other: &Widget) -> bool {
        match (self, other) {
            (Widget::Solid(x), Widget::Solid(other)) => x.same(other),
            (Widget::Board(x), Widget::Board(other)) => x.same(other),
            (Widget::Label(x), Widget::Label(other)) => x.same(other),
            (Widget::Lines(x), Widget::Lines(other)) => x.same(other),
            (Widget::Canvas(x), Widget::Canvas(other)) => x.same(other),
            (Widget::Meter(x), Widget::Meter(other)) => x.same(other),
            (Widget::Editor(x), Widget::Editor(other)) => x.same(other),
            _ => {
                self.known();
                other.known();
                false
            }
        }
    }

    fn paint(&self, alloc: Global, env: &Env, size: Size, clip: Rect) -> Result<Batch, NoMemory> {
        match self {
            Widget::Solid(x) => x.paint(alloc, env, size, clip),
            Widget::Board(x) => x.paint(alloc, env, size, clip),
            Widget::Label(x) => x.paint(alloc, env, size, clip),
            Widget::Lines(x) => x.paint(alloc, env, size, clip),
            Widget::Canvas(x) => x.paint(alloc, env, size, clip),
            Widget::Meter(x) => x.paint(alloc, env, size, clip),
            Widget::Editor(x) => x.paint(alloc, env, size, clip),
        }
    }

    fn change(
        &self,
        alloc: Global,
        env: &Env,
        size: Size,
        cmd: &WidgetCmd,
    ) -> Result<(Widget, Batch), NoMemory> {
        match (self, cmd) {
            (Widget::Solid(x), WidgetCmd::Solid(cmd)) => {
                let (next, patch) = x.change(alloc, env, size, cmd)?;
                Ok((Widget::Solid(next), patch))
            }
            (Widget::Board(x), WidgetCmd::Board(cmd)) => {
                let (next, patch) = x.change(alloc, env, size, cmd)?;
                Ok((Widget::Board(next), patch))
            }
            (Widget::Label(x), WidgetCmd::Label(cmd)) => {
                let (next, patch) = x.change(alloc, env, size, cmd)?;
                Ok((Widget::Label(next), patch))
            }
            (Widget::Lines(x), WidgetCmd::Lines(cmd)) => {
                let (next, patch) = x.change(alloc, env, size, cmd)?;
                Ok((Widget::Lines(next), patch))
            }
            (Widget::Canvas(x), WidgetCmd::Canvas(cmd)) => {
                let (next, patch) = x.change(alloc, env, size, cmd)?;
                Ok((Widget::Canvas(next), patch))
            }
            (Widget::Meter(x), WidgetCmd::Meter(cmd)) => {
                let (next, patch) = x.change(alloc, env, size, cmd)?;
                Ok((Widget::Meter(next), patch))
            }
            (Widget::Editor(x), WidgetCmd::Editor(cmd)) => {
                let (next, patch) = x.change(alloc, env, size, cmd)?;
                Ok((Widget::Editor(next), patch))
            }
            _ => {
                cmd.known();
                Ok((self.copy(alloc)?, Batch::new(alloc)))
            }
        }
    }

    fn apply(
        &mut self,
        alloc: Global,
        env: &Env,
        size: Size,
        cmd: &WidgetCmd,
        batch: &mut Batch,
    ) -> Result<(), NoMemory> {
        self.known();
        cmd.known();
        match (self, cmd) {
            (Widget::Solid(x), WidgetCmd::Solid(cmd)) => x.apply(alloc, env, size, cmd, batch),
            (Widget::Board(x), WidgetCmd::Board(cmd)) => x.apply(alloc, env, size, cmd, batch),
            (Widget::Label(x), WidgetCmd::Label(cmd)) => x.apply(alloc, env, size, cmd, batch),
            (Widget::Lines(x), WidgetCmd::Lines(cmd)) => x.apply(alloc, env, size, cmd, batch),
            (Widget::Canvas(x), WidgetCmd::Canvas(cmd)) => x.apply(alloc, env, size, cmd, batch),
            (Widget::Meter(x), WidgetCmd::Meter(cmd)) => x.apply(alloc, env, size, cmd, batch),
            (Widget::Editor(x), WidgetCmd::Editor(cmd)) => x.apply(alloc, env, size, cmd, batch),
            _ => Ok(()),
        }
    }

    fn react(&self, alloc: Global, event: &Event) -> Result<Option<WidgetCmd>, NoMemory> {
        Ok(match self {
            Widget::Solid(x) => x.react(alloc, event)?.map(|cmd| WidgetCmd::Solid(cmd)),
            Widget::Board(x) => x.react(alloc, event)?.map(|cmd| WidgetCmd::Board(cmd)),
            Widget::Label(x) => x.react(alloc, event)?.map(|cmd| WidgetCmd::Label(cmd)),
            Widget::Lines(x) => x.react(alloc, event)?.map(|cmd| WidgetCmd::Lines(cmd)),
            Widget::Canvas(x) => x.react(alloc, event)?.map(|cmd| WidgetCmd::Canvas(cmd)),
            Widget::Meter(x) => x.react(alloc, event)?.map(|cmd| WidgetCmd::Meter(cmd)),
            Widget::Editor(x) => x.react(alloc, event)?.map(|cmd| WidgetCmd::Editor(cmd)),
        })
    }

    fn value(&self, alloc: Global) -> Result<Line, NoMemory> {
        match self {
            Widget::Solid(x) => x.value(alloc),
            Widget::Board(x) => x.value(alloc),
            Widget::Label(x) => x.value(alloc),
            Widget::Lines(x) => x.value(alloc),
            Widget::Canvas(x) => x.value(alloc),
            Widget::Meter(x) => x.value(alloc),
            Widget::Editor(x) => x.value(alloc),
        }
    }

    fn keeps(&self, from: Size, to: Size) -> Rect {
        match self {
            Widget::Solid(x) => x.keeps(from, to),
            Widget::Board(x) => x.keeps(from, to),
            Widget::Label(x) => x.keeps(from, to),
            Widget::Lines(x) => x.keeps(from, to),
            Widget::Canvas(x) => x.keeps(from, to),
            Widget::Meter(x) => x.keeps(from, to),
            Widget::Editor(x) => x.keeps(from, to),
        }
    }

    ghost contents = { widget_contents };

    ghost answers = { widget_answers };

    ghost patches = { widget_patches };

    ghost empty_patches = { widget_empty_patches };

    ghost keeping = { widget_keeping };

    ghost kinds = { widget_kinds };
}
