use crate::plans::Plan;
use std::alloc::Global;
use std::fmt;
use tr_base::{Line, NoMemory};
use tr_widget::{Widget, WidgetCmd};
use w_canvas::{Area, Canvas, CanvasCmd};
use w_lines::{Lines, LinesCmd};
use w_plain::{Solid, SolidCmd};

/// The number of lines that are kept.
const LINES: u8 = 200;

/// The number of figures that a canvas has room for.
const FIGURES: u8 = 64;

/// The number of times that a window gets its commands in a round.
const ROUND: u8 = 32;

/// A window of one colour.
const SOLID: Widget = Widget::Solid(Solid { tint: 7 });

/// The window gets its first colour again.
const TINT: WidgetCmd = WidgetCmd::Solid(SolidCmd::Tint(7));

/// The window gets another colour.
const OTHER_TINT: WidgetCmd = WidgetCmd::Solid(SolidCmd::Tint(200));

/// The canvas loses its last figure.
const UNDO: WidgetCmd = WidgetCmd::Canvas(CanvasCmd::Undo);

/// A measured workload.
#[derive(Clone, Copy)]
pub enum Workload {
    /// A window of one colour gets a colour.
    ActOnSolid,
    /// A typescript with all lines that are kept gets one more.
    ActOnLines,
    /// A canvas with all figures that it has room for loses the last one, and gets it back.
    ActOnCanvas,
    /// This number of commands that wait for a window of one colour are executed.
    Flush(u8),
    /// Among this number of windows the rearmost and the foremost move to and fro.
    Move(u8),
    /// The cursor goes across this number of windows.
    Motion(u8),
}

impl Workload {
    /// The plan of its measurement.
    pub fn plan(self, alloc: Global) -> Result<Plan<Widget>, NoMemory> {
        let mut plan = self.windows(alloc)?;
        match self.add_steps(alloc, &mut plan) {
            Ok(()) => Ok(plan),
            Err(NoMemory) => {
                drop(plan);
                Err(NoMemory)
            }
        }
    }

    /// Its windows, and no step.
    fn windows(self, alloc: Global) -> Result<Plan<Widget>, NoMemory> {
        let content = self.content(alloc)?;
        let plan = Plan::of(alloc, &content, self.count());
        drop(content);
        plan
    }

    /// The content of each window.
    fn content(self, alloc: Global) -> Result<Widget, NoMemory> {
        match self {
            Workload::ActOnLines => Ok(Widget::Lines(Lines::new(alloc)?)),
            Workload::ActOnCanvas => Ok(Widget::Canvas(Canvas::new(alloc)?)),
            _ => Ok(SOLID),
        }
    }

    /// The number of windows.
    fn count(self) -> u8 {
        match self {
            Workload::Move(count) | Workload::Motion(count) => count,
            _ => 1,
        }
    }

    /// Adds its steps.
    fn add_steps(self, alloc: Global, plan: &mut Plan<Widget>) -> Result<(), NoMemory> {
        match self {
            Workload::ActOnSolid => act_on_solid(plan),
            Workload::ActOnLines => act_on_lines(alloc, plan),
            Workload::ActOnCanvas => act_on_canvas(plan),
            Workload::Flush(count) => plan.flush(&[OTHER_TINT], count),
            Workload::Move(_) => plan.move_windows(),
            Workload::Motion(_) => plan.move_cursor(),
        }
    }
}

fn act_on_solid(plan: &mut Plan<Widget>) -> Result<(), NoMemory> {
    plan.prepare(&[TINT])?;
    plan.act(&[OTHER_TINT], ROUND)
}

fn act_on_lines(alloc: Global, plan: &mut Plan<Widget>) -> Result<(), NoMemory> {
    let cmds = [line(Line::of(alloc, b"trestle> dump the screen")?)];
    plan.fill(&cmds, LINES)?;
    plan.prepare(&[line(Line::of(alloc, b"dumped")?)])?;
    plan.act(&cmds, ROUND)
}

fn act_on_canvas(plan: &mut Plan<Widget>) -> Result<(), NoMemory> {
    plan.fill(&[figure(9)], FIGURES)?;
    plan.prepare(&[UNDO, figure(200)])?;
    plan.act(&[UNDO, figure(9)], ROUND)
}

/// The typescript gets a line.
fn line(text: Line) -> WidgetCmd {
    WidgetCmd::Lines(LinesCmd::Line(text))
}

/// The canvas gets a figure of this colour.
fn figure(tint: u8) -> WidgetCmd {
    let area = Area::edges(10, 110, 10, 90);
    WidgetCmd::Canvas(CanvasCmd::Rect { area, tint })
}

impl fmt::Display for Workload {
    fn fmt<W: fmt::Write>(&self, f: &mut fmt::Formatter<W>) -> fmt::Result {
        match *self {
            Workload::ActOnSolid => f.write_str("act on a solid"),
            Workload::ActOnLines => f.write_str("act on 200 lines"),
            Workload::ActOnCanvas => f.write_str("act on a canvas of 64 figures"),
            Workload::Flush(count) => write!(f, "flush of {count}"),
            Workload::Move(count) => write!(f, "move among {count}"),
            Workload::Motion(count) => write!(f, "motion among {count}"),
        }
    }
}
