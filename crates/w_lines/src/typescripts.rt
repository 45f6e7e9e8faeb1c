ghost use Rattle.std.specs.Prelude.{◌≡◌, ◌*◌, ◌++◌, ◌∷◌, [], ◌<◌, ◌≤◌, ◌↔◌, true, length, take, drop, IfOk, IsTrue, OnOk, OnErr};
ghost use Rattle.tr_base.specs.declared.points.Point.{Point};
ghost use Rattle.tr_base.specs.Rects.{has_point, whole_of};
ghost use Rattle.tr_base.specs.Layouts.{longest};
ghost use Rattle.tr_paint.specs.Paints.{IsNearRect};
ghost use Rattle.tr_paint.specs.Traces.{Look};
ghost use Rattle.tr_paint.specs.Paintings.{IsPainting};
ghost use Rattle.tr_client.specs.Laws.{IsWindowSize};
ghost use Rattle.tr_client.specs.Texts.{cleared as background};
ghost use Rattle.w_lines.specs.Lines as spec;

use crate::commands::LinesCmd;
use std::alloc::Global;
use std::marker::Model;
use tr_base::{Command, Env, Event, Line, NoMemory, Op, Rect, Size, is_printable};
use tr_client::{
    Client, MOST_LINES, PLAIN, append_lines, area_of, begin_of, keeps_nothing, kept_part,
    paint_lines, part_of_window, room, same_lines, upwards, window,
};
use tr_paint::{Batch, Paint};

/// A window with the last lines of a typescript; its model is their list. They lie in one block, after
/// lines that are no longer kept. When there are 200 of these, they leave the block, so one more line
/// costs little more than adding it, and seldom moves the kept lines.
#[derive(Debug, Drop)]
pub struct Lines {
    block: Vec<Line>,
    /// The number of lines of the block that are no longer kept.
    stale: usize,
}

impl Model for Lines {
    ghost use Rattle.std.specs.Prelude.{List, ℕ, drop};
    ghost use Rattle.w_lines.specs.Lines.{IsBlock};

    ghost Value = { List (List ℕ) };

    ghost view = { λ l. drop l.stale l.block.items };

    ghost invariant = { λ l. IsBlock l.stale l.block.items };
}

impl Lines {
    /// A typescript without a line.
    pub fn new(alloc: Global) -> Result<Lines, NoMemory>
        ensures { IfOk result (λ typescript. typescript ≡ []) }
    {
        Ok(Lines {
            block: Vec::new(alloc),
            stale: 0,
        })
    }

    /// Tells the invariant of typescripts. Nothing runs.
    pub fn invariant(&self)
        ensures { spec.IsLines self.now }
    {
        let _lines = self.lines();
    }

    /// Its lines, the oldest first.
    pub fn lines(&self) -> &[Line]
        ensures value { result.now ≡ self.now }
        ensures invariant { spec.IsLines self.now }
    {
        &self.block[self.stale..]
    }

    /// Adds one line.
    fn take_line(&mut self, line: &Line) -> Result<(), NoMemory>
        ensures ok { OnOk result (self.new ≡ spec.newest_lines MOST_LINES (self.old ++ line.now ∷ [])) }
        ensures err { OnErr result (self.new ≡ self.old) }
    {
        line.invariant();
        self.block.push(line.copy()?)?;
        self.stale = without_stale(&mut self.block, self.stale);
        Ok(())
    }

    /// Changes the content by a command.
    fn take(&mut self, cmd: &LinesCmd) -> Result<(), NoMemory>
        ensures ok { OnOk result (self.new ≡ spec.lines_next self.old cmd.now) }
        ensures err { OnErr result (self.new ≡ self.old) }
    {
        match cmd {
            LinesCmd::Line(line) => self.take_line(line),
            LinesCmd::Clear => {
                self.block.clear();
                self.stale = 0;
                Ok(())
            }
        }
    }

    /// Puts the patch of one more line after the commands of a batch. If memory runs out, some of it may
    /// stay there.
    fn put_line_patch(&self, size: Size, line: &Line, batch: &mut Batch) -> Result<(), NoMemory>
        requires { IsWindowSize size }
        ensures ok { OnOk result (batch.new ≡ batch.old ++ spec.line_patch size self.now line.now) }
        ensures err { OnErr result (take (length batch.old) batch.new ≡ batch.old) }
    {
        let count = room(size).min(MOST_LINES);
        let above = self.lines().len();
        if count == 0 {
            Ok(())
        } else if above < count {
            put_below(batch, size, above, line)
        } else {
            put_moved_up(batch, size, count, line)
        }
    }

    /// The same for the patch of a command.
    fn put_patch(&self, size: Size, cmd: &LinesCmd, batch: &mut Batch) -> Result<(), NoMemory>
        requires { IsWindowSize size }
        ensures ok { (look : Look) →
            OnOk result (batch.new ≡ batch.old ++ spec.lines_patch look size self.now cmd.now) }
        ensures err { OnErr result (take (length batch.old) batch.new ≡ batch.old) }
    {
        match cmd {
            LinesCmd::Line(line) => self.put_line_patch(size, line, batch),
            LinesCmd::Clear => put_cleared(batch, size),
        }
    }

    /// Commands that paint a part of the picture: the background, and each line that is shown over it.
    fn paints(&self, alloc: Global, size: Size, part: &Rect) -> Result<Batch, NoMemory>
        requires near { IsNearRect part.now }
        requires size { IsWindowSize size }
        ensures { (look : Look) →
            IfOk result (λ batch. IsPainting look part.now batch (spec.lines_pic look size self.now)) }
    {
        paint_lines(alloc, *part, last_of(self.lines(), room(size)))
    }
}

/// The last `n` lines, or all if there are fewer.
fn last_of(lines: &[Line], n: usize) -> &[Line]
    ensures { result.now ≡ spec.newest_lines n lines.now }
{
    &lines[lines.len().saturating_sub(n)..]
}

/// The place in a block at which the last 200 of its kept lines begin. The lines before them leave the
/// block when there are 200 or more.
fn without_stale(block: &mut Vec<Line>, stale: usize) -> usize
    requires { stale ≤ length block.old.items }
    ensures lines { drop result block.new.items ≡ spec.newest_lines MOST_LINES (drop stale block.old.items) }
    ensures within { result ≤ length block.new.items }
    ensures few { result < MOST_LINES }
{
    let stale = stale + (block.len() - stale).saturating_sub(MOST_LINES);
    if stale < MOST_LINES {
        return stale;
    }
    let stay = block.len() - stale;
    block.rotate_left(stale);
    block.truncate(stay);
    0
}

/// Writes a line below `above` others.
fn put_below(batch: &mut Batch, size: Size, above: usize, line: &Line) -> Result<(), NoMemory>
    requires size { IsWindowSize size }
    requires above { 8 * above ≤ longest }
    ensures ok { OnOk result (batch.new ≡ batch.old ++ spec.written_below size above line.now) }
    ensures err { OnErr result (take (length batch.old) batch.new ≡ batch.old) }
{
    batch.push(Paint::Text {
        clip: window(size),
        at: begin_of(above),
        ops: PLAIN,
        text: line.copy()?,
    })?;
    Ok(())
}

/// Moves the lines of a full window upwards, and writes a line in place of the last one.
fn put_moved_up(batch: &mut Batch, size: Size, count: usize, line: &Line) -> Result<(), NoMemory>
    requires size { IsWindowSize size }
    requires some { 0 < count }
    requires count { 8 * count ≤ longest }
    ensures ok { OnOk result (batch.new ≡ batch.old ++ spec.moved_up size count line.now) }
    ensures err { OnErr result (take (length batch.old) batch.new ≡ batch.old) }
{
    let last = count - 1;
    batch.push(Paint::Scroll {
        clip: area_of(size, 0, last),
        delta: upwards(),
    })?;
    batch.push(Paint::Tint {
        clip: area_of(size, last, count),
        op: Op::Bg,
    })?;
    batch.push(Paint::Text {
        clip: window(size),
        at: begin_of(last),
        ops: PLAIN,
        text: line.copy()?,
    })?;
    Ok(())
}

/// Makes all of a window background.
fn put_cleared(batch: &mut Batch, size: Size) -> Result<(), NoMemory>
    requires { IsWindowSize size }
    ensures ok { OnOk result (batch.new ≡ batch.old ++ background (whole_of size)) }
    ensures err { OnErr result (take (length batch.old) batch.new ≡ batch.old) }
{
    batch.push(Paint::Tint {
        clip: window(size),
        op: Op::Bg,
    })?;
    Ok(())
}

impl Client for Lines {
    ghost use Rattle.w_lines.specs.Lines.{IsLines, lines_pic, lines_next, lines_patch, lines_answer, lines_value, lines_keeps};
    ghost use Rattle.w_lines.specs.LinesLaws.{lines_contents, lines_answers, lines_patches, lines_empty_patches, lines_keeping, lines_kinds};

    type Cmd = LinesCmd;

    ghost valid = { IsLines };

    ghost pic = { lines_pic };

    ghost next = { lines_next };

    ghost patch = { lines_patch };

    ghost answer = { lines_answer };

    ghost value = { lines_value };

    ghost keeps = { lines_keeps };

    fn copy(&self, alloc: Global) -> Result<Lines, NoMemory> {
        let mut block = Vec::new(alloc);
        append_lines(&mut block, self.lines())?;
        Ok(Lines { block, stale: 0 })
    }

    fn same(&self, other: &Lines) -> bool {
        same_lines(self.lines(), other.lines())
    }

    fn paint(&self, alloc: Global, _env: &Env, size: Size, clip: Rect) -> Result<Batch, NoMemory> {
        self.invariant();
        let batch = self.paints(alloc, size, &part_of_window(size, &clip))?;
        Ok(batch)
    }

    fn change(
        &self,
        alloc: Global,
        _env: &Env,
        size: Size,
        cmd: &LinesCmd,
    ) -> Result<(Lines, Batch), NoMemory> {
        self.invariant();
        cmd.known();
        let mut next = self.copy(alloc)?;
        next.take(cmd)?;
        let mut patch = Batch::new(alloc);
        self.put_patch(size, cmd, &mut patch)?;
        Ok((next, patch))
    }

    fn apply(
        &mut self,
        _alloc: Global,
        _env: &Env,
        size: Size,
        cmd: &LinesCmd,
        batch: &mut Batch,
    ) -> Result<(), NoMemory> {
        self.invariant();
        cmd.known();
        let before = batch.len();
        if let Err(error) = self.put_patch(size, cmd, batch) {
            batch.truncate(before);
            return Err(error);
        }
        if let Err(error) = self.take(cmd) {
            batch.truncate(before);
            return Err(error);
        }
        Ok(())
    }

    fn react(&self, alloc: Global, event: &Event) -> Result<Option<LinesCmd>, NoMemory> {
        self.invariant();
        match *event {
            Event::Key { code, .. } if is_printable(code) => {
                let cmd = LinesCmd::Line(Line::of(alloc, &[code])?);
                cmd.known();
                Ok(Some(cmd))
            }
            _ => Ok(None),
        }
    }

    fn value(&self, alloc: Global) -> Result<Line, NoMemory> {
        match self.lines() {
            [] => Line::of(alloc, &[]),
            [.., last] => last.copy(),
        }
    }

    fn keeps(&self, from: Size, to: Size) -> Rect {
        let count = self.lines().len();
        if count.min(room(from)) == count.min(room(to)) {
            kept_part(from, to)
        } else {
            keeps_nothing()
        }
    }

    ghost contents = { lines_contents };

    ghost answers = { lines_answers };

    ghost patches = { lines_patches };

    ghost empty_patches = { lines_empty_patches };

    ghost keeping = { lines_keeping };

    ghost kinds = { lines_kinds };
}
