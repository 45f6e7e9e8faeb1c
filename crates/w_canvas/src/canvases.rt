ghost use Rattle.std.specs.Prelude.{◌≡◌, ◌↔◌, ◌++◌, [], true, pos, length, take, IsTrue, IfOk, IfSome, OnOk, OnErr};
ghost use Rattle.tr_base.specs.Layouts.{longest};
ghost use Rattle.tr_base.specs.Rects.{between};
ghost use Rattle.tr_paint.specs.Paints.{IsNearPaint, IsNearRect};
ghost use Rattle.tr_paint.specs.Traces.{Look};
ghost use Rattle.tr_client.specs.Laws.{IsWindowSize};
ghost use Rattle.w_canvas.specs.Areas.{IsArea};
ghost use Rattle.w_canvas.specs.Canvases as spec;

use crate::areas::Area;
use crate::commands::CanvasCmd;
use std::alloc::Global;
use std::marker::Model;
use tr_base::{Click, Command, Env, Event, LONGEST, Line, NoMemory, Op, Point, Rect, Size, moved};
use tr_client::{Client, decimal_line, kept_part, part_of_window, window};
use tr_paint::{Batch, Paint};

/// The most figures of a Canvas.
pub const FIGURES: usize = 64;

/// The side of the square that a button draws.
const SIDE: i32 = 2;

/// The key that removes the last figure.
const BACKSPACE: u8 = 8;

/// A rectangle of a Canvas, with an operation on the pixels in it: it sets them all to one value, or
/// exchanges two values.
#[derive(Clone, Copy, Debug)]
pub struct Figure {
    pub area: Area,
    pub op: Op,
}

/// A window with at most 64 figures; its model is their list. Each lies over those before it.
#[derive(Debug, Drop)]
pub struct Canvas {
    figures: Vec<Figure>,
}

impl Model for Canvas {
    ghost use Rattle.std.specs.Prelude.{List};
    ghost use Rattle.w_canvas.specs.declared.canvases.Figure.{Figure};
    ghost use Rattle.w_canvas.specs.Canvases.{IsCanvas};

    ghost Value = { List Figure };

    ghost view = { λ c. c.figures.items };

    ghost invariant = { λ c. IsCanvas c.figures.items };
}

impl Figure {
    /// Whether both are the same figure.
    pub fn same(&self, other: &Figure) -> bool
        ensures { IsTrue result ↔ (self.now ≡ other.now) }
    {
        self.area.same(&other.area) && self.op == other.op
    }

    /// The command that paints its points in a part of the window.
    fn paint(&self, part: &Rect) -> Paint
        requires { IsNearRect part.now }
        ensures value { result ≡ spec.figure_paint part.now self.now }
        ensures near { IsNearPaint result }
    {
        Paint::Tint {
            clip: part.meet(&self.area.rect()),
            op: self.op,
        }
    }
}

/// The commands that paint figures in a part of the window: the background, and over it each figure
/// that lies there.
fn paints(alloc: Global, part: &Rect, figures: &[Figure]) -> Result<Batch, NoMemory>
    requires { IsNearRect part.now }
    ensures { IfOk result (λ batch. batch ≡ spec.canvas_paints part.now figures.now) }
{
    let mut batch = Batch::new(alloc);
    put_paints(part, figures, &mut batch)?;
    Ok(batch)
}

/// Puts these commands after those of a batch.
fn put_paints(part: &Rect, figures: &[Figure], batch: &mut Batch) -> Result<(), NoMemory>
    requires { IsNearRect part.now }
    ensures ok { OnOk result (batch.new ≡ batch.old ++ spec.canvas_paints part.now figures.now) }
    ensures err { OnErr result (batch.new ≡ batch.old) }
{
    let before = batch.len();
    if let Err(error) = push_paints(part, figures, batch) {
        batch.truncate(before);
        return Err(error);
    }
    Ok(())
}

/// The same, but if memory runs out the first of them stay in the batch.
fn push_paints(part: &Rect, figures: &[Figure], batch: &mut Batch) -> Result<(), NoMemory>
    requires { IsNearRect part.now }
    ensures ok { OnOk result (batch.new ≡ batch.old ++ spec.canvas_paints part.now figures.now) }
    ensures err { OnErr result (take (length batch.old) batch.new ≡ batch.old) }
{
    batch.push(Paint::Tint {
        clip: *part,
        op: Op::Bg,
    })?;
    for figure in figures {
        let clip = part.meet(&figure.area.rect());
        if !clip.is_empty() {
            batch.push(Paint::Tint {
                clip,
                op: figure.op,
            })?;
        }
    }
    Ok(())
}

impl Canvas {
    /// No figures.
    pub fn new(alloc: Global) -> Result<Canvas, NoMemory>
        ensures { IfOk result (λ canvas. canvas ≡ []) }
    {
        Ok(Canvas {
            figures: Vec::new(alloc),
        })
    }

    /// Tells the invariant of canvases. Nothing runs.
    pub fn invariant(&self)
        ensures { spec.IsCanvas self.now }
    {
        let _figures = self.figures();
    }

    /// Its figures, the lowest one first.
    pub fn figures(&self) -> &[Figure]
        ensures value { result.now ≡ self.now }
        ensures invariant { spec.IsCanvas self.now }
    {
        &self.figures
    }

    /// The content with a figure over all others, if there is room for it.
    fn with(&self, alloc: Global, figure: Figure) -> Result<Canvas, NoMemory>
        requires { spec.IsFigure figure }
        ensures { IfOk result (λ canvas. canvas ≡ spec.with_figure self.now figure) }
    {
        let figures = self.figures();
        if figures.len() < FIGURES {
            let mut more = Vec::with_capacity(alloc, figures.len() + 1)?;
            more.extend_from_slice(figures)?;
            more.push(figure)?;
            Ok(Canvas { figures: more })
        } else {
            self.copy(alloc)
        }
    }

    /// The content without its last figure.
    fn without_last(&self, alloc: Global) -> Result<Canvas, NoMemory>
        ensures { IfOk result (λ canvas. canvas ≡ spec.without_last self.now) }
    {
        let figures = self.figures();
        let left = figures.len().saturating_sub(1);
        Ok(Canvas {
            figures: Vec::from_slice(alloc, &figures[..left])?,
        })
    }

    /// The content after a command.
    fn after(&self, alloc: Global, cmd: &CanvasCmd) -> Result<Canvas, NoMemory>
        ensures { IfOk result (λ canvas. canvas ≡ spec.canvas_next self.now cmd.now) }
    {
        cmd.known();
        match *cmd {
            CanvasCmd::Rect { area, tint } => self.with(alloc, filled(area, tint)),
            CanvasCmd::Exchange { area, a, b } => self.with(alloc, exchanging(area, a, b)),
            CanvasCmd::Undo => self.without_last(alloc),
        }
    }

    /// Adds a figure over all others in place, if there is room for it.
    fn add(&mut self, figure: Figure) -> Result<(), NoMemory>
        requires { spec.IsFigure figure }
        ensures ok { OnOk result (self.new ≡ spec.with_figure self.old figure) }
        ensures err { OnErr result (self.new ≡ self.old) }
    {
        if self.figures.len() < FIGURES {
            self.figures.push(figure)?;
        }
        Ok(())
    }

    /// Removes the last figure in place.
    fn remove_last(&mut self)
        ensures { self.new ≡ spec.without_last self.old }
    {
        let left = self.figures.len().saturating_sub(1);
        self.figures.truncate(left);
    }

    /// Changes the content by a command in place.
    fn take(&mut self, cmd: &CanvasCmd) -> Result<(), NoMemory>
        ensures ok { OnOk result (self.new ≡ spec.canvas_next self.old cmd.now) }
        ensures err { OnErr result (self.new ≡ self.old) }
    {
        cmd.known();
        match *cmd {
            CanvasCmd::Rect { area, tint } => self.add(filled(area, tint)),
            CanvasCmd::Exchange { area, a, b } => self.add(exchanging(area, a, b)),
            CanvasCmd::Undo => {
                self.remove_last();
                Ok(())
            }
        }
    }

    /// Puts the patch for a figure over all others after the commands of a batch.
    fn put_figure(&self, size: Size, figure: &Figure, batch: &mut Batch) -> Result<(), NoMemory>
        requires { IsWindowSize size }
        ensures ok { OnOk result (batch.new ≡ batch.old ++ spec.with_patch size self.now figure.now) }
        ensures err { OnErr result (batch.new ≡ batch.old) }
    {
        if self.figures().len() < FIGURES {
            batch.push(figure.paint(&window(size)))?;
        }
        Ok(())
    }

    /// Puts the patch for the removal of the last figure after the commands of a batch.
    fn put_undo(&self, size: Size, batch: &mut Batch) -> Result<(), NoMemory>
        requires { IsWindowSize size }
        ensures ok { OnOk result (batch.new ≡ batch.old ++ spec.undo_patch size self.now) }
        ensures err { OnErr result (batch.new ≡ batch.old) }
    {
        let figures = self.figures();
        if figures.is_empty() {
            return Ok(());
        }
        let last = figures.len() - 1;
        let part = part_of_window(size, &figures[last].area.rect());
        put_paints(&part, &figures[..last], batch)
    }

    /// Puts the patch of a command after the commands of a batch.
    fn put_patch(&self, size: Size, cmd: &CanvasCmd, batch: &mut Batch) -> Result<(), NoMemory>
        requires { IsWindowSize size }
        ensures ok { (look : Look) →
            OnOk result (batch.new ≡ batch.old ++ spec.canvas_patch look size self.now cmd.now) }
        ensures err { OnErr result (batch.new ≡ batch.old) }
    {
        match *cmd {
            CanvasCmd::Rect { area, tint } => self.put_figure(size, &filled(area, tint), batch),
            CanvasCmd::Exchange { area, a, b } => {
                self.put_figure(size, &exchanging(area, a, b), batch)
            }
            CanvasCmd::Undo => self.put_undo(size, batch),
        }
    }
}

/// A rectangle whose points are set to a tint.
fn filled(area: Area, tint: u8) -> Figure
    ensures { result ≡ spec.filled area tint }
{
    Figure {
        area,
        op: Op::Set(tint),
    }
}

/// A rectangle in which two pixel values are exchanged.
fn exchanging(area: Area, a: u8, b: u8) -> Figure
    ensures { result ≡ spec.exchanging area a b }
{
    Figure {
        area,
        op: Op::Exchange(a, b),
    }
}

/// Whether the figures are the same, one by one.
fn are_same(figures: &[Figure], others: &[Figure]) -> bool
    ensures { IsTrue result ↔ (figures.now ≡ others.now) }
{
    if figures.len() != others.len() {
        return false;
    }
    for (i, figure) in figures.iter().enumerate() {
        if !figure.same(&others[i]) {
            return false;
        }
    }
    true
}

/// Whether the point lies in the greatest window.
fn is_drawable(at: Point) -> bool
    ensures { result ≡ spec.is_drawable at }
{
    is_within(at.h) && is_within(at.v)
}

fn is_within(x: i32) -> bool
    ensures { result ≡ between (pos 0) (pos longest) x }
{
    0 <= x && x < i32::from(LONGEST)
}

/// The small square at a point.
fn square_at(at: Point) -> Area
    requires { spec.is_drawable at ≡ true }
    ensures value { result ≡ spec.square_at at }
    ensures valid { IsArea result }
{
    let (east, south) = (moved(at.h, SIDE), moved(at.v, SIDE));
    let square = Area::edges(at.h, east, at.v, south);
    square.invariant();
    square
}

/// The command that a button asks for.
fn drawn_by(click: Click, at: Point) -> Option<CanvasCmd>
    ensures command { IfSome result (λ cmd. spec.IsCanvasCmd cmd) }
    ensures answer { result ≡ spec.click_answer click at }
{
    if click == Click::FirstDown && is_drawable(at) {
        Some(CanvasCmd::Rect {
            area: square_at(at),
            tint: 1,
        })
    } else {
        None
    }
}

/// The command that a key asks for.
fn undone_by(code: u8) -> Option<CanvasCmd>
    ensures command { IfSome result (λ cmd. spec.IsCanvasCmd cmd) }
    ensures answer { result ≡ spec.key_answer code }
{
    if code == BACKSPACE {
        Some(CanvasCmd::Undo)
    } else {
        None
    }
}

impl Client for Canvas {
    ghost use Rattle.w_canvas.specs.Canvases.{IsCanvas, canvas_pic, canvas_next, canvas_patch, canvas_answer, canvas_value, canvas_keeps};
    ghost use Rattle.w_canvas.specs.CanvasLaws.{canvas_contents, canvas_answers, canvas_patches, canvas_empty_patches, canvas_keeping, canvas_kinds};

    type Cmd = CanvasCmd;

    ghost valid = { IsCanvas };

    ghost pic = { canvas_pic };

    ghost next = { canvas_next };

    ghost patch = { canvas_patch };

    ghost answer = { canvas_answer };

    ghost value = { canvas_value };

    ghost keeps = { canvas_keeps };

    fn copy(&self, alloc: Global) -> Result<Canvas, NoMemory> {
        let figures = Vec::from_slice(alloc, self.figures())?;
        Ok(Canvas { figures })
    }

    fn same(&self, other: &Canvas) -> bool {
        let (figures, others) = (self.figures(), other.figures());
        are_same(figures, others)
    }

    fn paint(&self, alloc: Global, _env: &Env, size: Size, clip: Rect) -> Result<Batch, NoMemory> {
        let batch = paints(alloc, &part_of_window(size, &clip), self.figures())?;
        Ok(batch)
    }

    fn change(
        &self,
        alloc: Global,
        _env: &Env,
        size: Size,
        cmd: &CanvasCmd,
    ) -> Result<(Canvas, Batch), NoMemory> {
        self.invariant();
        cmd.known();
        let next = self.after(alloc, cmd)?;
        let mut patch = Batch::new(alloc);
        self.put_patch(size, cmd, &mut patch)?;
        Ok((next, patch))
    }

    fn apply(
        &mut self,
        alloc: Global,
        _env: &Env,
        size: Size,
        cmd: &CanvasCmd,
        batch: &mut Batch,
    ) -> Result<(), NoMemory> {
        self.invariant();
        cmd.known();
        let before = batch.len();
        self.put_patch(size, cmd, batch)?;
        if let Err(error) = self.take(cmd) {
            batch.truncate(before);
            return Err(error);
        }
        Ok(())
    }

    fn react(&self, _alloc: Global, event: &Event) -> Result<Option<CanvasCmd>, NoMemory> {
        self.invariant();
        match *event {
            Event::Mouse { click, at, .. } => Ok(drawn_by(click, at)),
            Event::Key { code, .. } => Ok(undone_by(code)),
            _ => Ok(None),
        }
    }

    fn value(&self, alloc: Global) -> Result<Line, NoMemory> {
        decimal_line(alloc, self.figures().len() as u8)
    }

    fn keeps(&self, from: Size, to: Size) -> Rect {
        self.invariant();
        kept_part(from, to)
    }

    ghost contents = { canvas_contents };

    ghost answers = { canvas_answers };

    ghost patches = { canvas_patches };

    ghost empty_patches = { canvas_empty_patches };

    ghost keeping = { canvas_keeping };

    ghost kinds = { canvas_kinds };
}
