ghost use Rattle.std.specs.Prelude.{◌≡◌, ◌≤◌, ◌<◌, ◌+◌, ◌*◌, ◌++◌, ◌∷◌, [], length, take, IfOk, OnOk, OnErr, true, false};
ghost use Rattle.tr_base.specs.declared.points.Point.{Point};
ghost use Rattle.tr_base.specs.Lines.{IsLine};
ghost use Rattle.tr_base.specs.Rects.{has_point, whole_of};
ghost use Rattle.tr_base.specs.Layouts.{longest};
ghost use Rattle.tr_paint.specs.Paints.{IsNearPaint, IsNearRect};
ghost use Rattle.tr_paint.specs.Batches.{batch_of};
ghost use Rattle.tr_paint.specs.Traces.{Look};
ghost use Rattle.tr_paint.specs.Paintings.{IsPainting};
ghost use Rattle.tr_client.specs.Laws.{IsWindowSize};
ghost use Rattle.tr_client.specs.Texts.{room};
ghost use Rattle.w_edit.specs.Contents as contents;
ghost use Rattle.w_edit.specs.Pictures as spec;

use crate::commands::EditorCmd;
use crate::editors::Editor;
use crate::places::{cell, lowered, raised, strip};
use crate::views::View;
use std::alloc::Global;
use tr_base::{Line, NoMemory, Op, Rect, Size};
use tr_client::{MOST_LINES, PLAIN, begin_of, paint_lines, part_of_window, room, window};
use tr_paint::{Batch, Paint};

impl<'a> View<'a> {
    /// The row at the top of a window.
    fn top(&self, size: Size) -> usize
        ensures value { result ≡ spec.top size self.now }
        ensures row { result ≤ self.now.row }
        ensures limit { result < MOST_LINES }
    {
        if room(size) == 0 {
            0
        } else {
            (self.row() + 1).saturating_sub(room(size))
        }
    }

    /// The strip of the caret.
    fn caret_strip(&self, size: Size) -> usize
        ensures value { result ≡ spec.caret_strip size self.now }
        ensures limit { result < MOST_LINES }
    {
        self.row() - self.top(size)
    }

    /// The caret's cell.
    fn caret(&self, size: Size) -> Rect
        ensures { result ≡ spec.caret size self.now }
    {
        cell(self.column(), self.caret_strip(size))
    }

    /// Exchanges background and foreground in the caret's cell.
    fn mark(&self, size: Size) -> Paint
        requires { IsWindowSize size }
        ensures paint { result ≡ spec.mark size self.now }
        ensures near { IsNearPaint result }
    {
        Paint::Tint {
            clip: part_of_window(size, &self.caret(size)),
            op: Op::Exchange(0, 1),
        }
    }

    /// Writes the line of a strip.
    fn written(&self, size: Size, above: usize) -> Result<Paint, NoMemory>
        requires size { IsWindowSize size }
        requires above { above < room size }
        ensures paint { IfOk result (λ paint. paint ≡ spec.written size self.now above) }
        ensures near { IfOk result (λ paint. IsNearPaint paint) }
    {
        Ok(Paint::Text {
            clip: strip(size, above),
            at: begin_of(above),
            ops: PLAIN,
            text: self.line_at(self.top(size) + above)?,
        })
    }

    /// Makes a strip background, and writes its line.
    fn put(&self, size: Size, above: usize, batch: &mut Batch) -> Result<(), NoMemory>
        requires size { IsWindowSize size }
        requires above { above < room size }
        ensures ok { OnOk result (batch.new ≡ batch.old ++ batch_of (spec.put size self.now above)) }
        ensures err { OnErr result (take (length batch.old) batch.new ≡ batch.old) }
    {
        batch.push(Paint::Tint {
            clip: strip(size, above),
            op: Op::Bg,
        })?;
        batch.push(self.written(size, above)?)?;
        Ok(())
    }

    /// The number of lines that a window shows.
    fn count_shown(&self, size: Size) -> usize
        ensures value { result ≡ length (spec.shown_lines size self.now) }
        ensures room { result ≤ room size }
    {
        room(size).min(self.len() - self.top(size))
    }

    /// Makes all background, and writes each line that is shown.
    fn repaint(&self, size: Size, batch: &mut Batch) -> Result<(), NoMemory>
        requires { IsWindowSize size }
        ensures ok { OnOk result (batch.new ≡ batch.old ++ batch_of (spec.whole_painting size self.now)) }
        ensures err { OnErr result (take (length batch.old) batch.new ≡ batch.old) }
    {
        let count = self.count_shown(size);
        // (one more for the background and one for the caret's mark)
        batch.reserve(count.saturating_add(2))?;
        batch.push(Paint::Tint {
            clip: window(size),
            op: Op::Bg,
        })?;
        for above in 0..count {
            batch.push(self.written(size, above)?)?;
        }
        Ok(())
    }

    /// Paints the caret's strip anew.
    fn rewrite(&self, size: Size, batch: &mut Batch) -> Result<(), NoMemory>
        requires size { IsWindowSize size }
        requires some { 0 < room size }
        ensures ok { OnOk result (batch.new ≡ batch.old ++ batch_of (spec.rewritten size self.now)) }
        ensures err { OnErr result (take (length batch.old) batch.new ≡ batch.old) }
    {
        self.put(size, self.caret_strip(size), batch)
    }

    /// Paints the move of the caret to its place in the next content.
    fn move_caret(&self, size: Size, next: &View, batch: &mut Batch) -> Result<(), NoMemory>
        requires size { IsWindowSize size }
        requires some { 0 < room size }
        ensures ok { OnOk result
            (batch.new ≡ batch.old ++ batch_of (spec.caret_moved size self.now next.now)) }
        ensures err { OnErr result (take (length batch.old) batch.new ≡ batch.old) }
    {
        let last = room(size) - 1;
        let mark = self.mark(size);
        if next.top(size) == self.top(size) {
            batch.push(mark)?;
            Ok(())
        } else if next.top(size) == self.top(size) + 1 {
            batch.push(mark)?;
            batch.push(raised(size, 0, last))?;
            next.put(size, last, batch)?;
            Ok(())
        } else if self.top(size) == next.top(size) + 1 {
            batch.push(mark)?;
            batch.push(lowered(size, 1, room(size)))?;
            next.put(size, 0, batch)?;
            Ok(())
        } else {
            next.repaint(size, batch)
        }
    }

    /// Paints the break of the caret's line.
    fn break_line(&self, size: Size, next: &View, batch: &mut Batch) -> Result<(), NoMemory>
        requires size { IsWindowSize size }
        requires some { 0 < room size }
        requires next { next.now.row ≡ self.now.row + 1 }
        ensures ok { OnOk result
            (batch.new ≡ batch.old ++ batch_of (spec.line_broken size self.now next.now)) }
        ensures err { OnErr result (take (length batch.old) batch.new ≡ batch.old) }
    {
        if next.top(size) != self.top(size) {
            return next.repaint(size, batch);
        }
        let i = next.caret_strip(size);
        batch.push(lowered(size, i + 1, room(size)))?;
        next.put(size, i - 1, batch)?;
        next.put(size, i, batch)?;
        Ok(())
    }

    /// Paints the join of the caret's line to the one above it.
    fn join_lines(&self, size: Size, next: &View, batch: &mut Batch) -> Result<(), NoMemory>
        requires size { IsWindowSize size }
        requires some { 0 < room size }
        ensures ok { OnOk result
            (batch.new ≡ batch.old ++ batch_of (spec.lines_joined size self.now next.now)) }
        ensures err { OnErr result (take (length batch.old) batch.new ≡ batch.old) }
    {
        if next.top(size) != self.top(size) {
            return next.repaint(size, batch);
        }
        let i = next.caret_strip(size);
        let lowest = room(size) - 1;
        batch.push(raised(size, i + 1, lowest))?;
        next.put(size, lowest, batch)?;
        next.put(size, i, batch)?;
        Ok(())
    }

    /// Paints all but the mark, from a content to the next.
    fn put_changes(
        &self,
        size: Size,
        next: &View,
        cmd: &EditorCmd,
        batch: &mut Batch,
    ) -> Result<(), NoMemory>
        requires size { IsWindowSize size }
        requires some { 0 < room size }
        requires next { next.now ≡ contents.effect self.now cmd.now }
        ensures ok { OnOk result
            (batch.new ≡ batch.old ++ batch_of (spec.patch_without_mark size self.now next.now cmd.now)) }
        ensures err { OnErr result (take (length batch.old) batch.new ≡ batch.old) }
    {
        match cmd {
            EditorCmd::Insert(_) | EditorCmd::Paste => next.rewrite(size, batch),
            EditorCmd::Erase if self.column() == 0 => self.join_lines(size, next, batch),
            EditorCmd::Erase => next.rewrite(size, batch),
            EditorCmd::Split => self.break_line(size, next, batch),
            EditorCmd::Goto { .. } => self.move_caret(size, next, batch),
            EditorCmd::Copy { .. } => Ok(()),
        }
    }

    /// Puts the patch of an effective command after the commands of a batch. If memory runs out, some of it
    /// may stay there.
    pub(crate) fn put_patch(
        &self,
        size: Size,
        next: &View,
        cmd: &EditorCmd,
        batch: &mut Batch,
    ) -> Result<(), NoMemory>
        requires size { IsWindowSize size }
        requires acts { contents.acts self.now cmd.now ≡ true }
        requires next { next.now ≡ contents.effect self.now cmd.now }
        ensures ok { (look : Look) →
            OnOk result (batch.new ≡ batch.old ++ spec.editor_patch look size self.now cmd.now) }
        ensures err { OnErr result (take (length batch.old) batch.new ≡ batch.old) }
    {
        if room(size) == 0 || is_copy(cmd) {
            return Ok(());
        }
        self.put_changes(size, next, cmd, batch)?;
        batch.push(next.mark(size))?;
        Ok(())
    }
}

impl Editor {
    /// The row at the top of a window.
    pub(crate) fn top(&self, size: Size) -> usize
        ensures value { result ≡ spec.top size self.now }
        ensures row { result ≤ self.now.row }
        ensures limit { result < MOST_LINES }
    {
        self.view().top(size)
    }

    /// The lines that a window shows.
    pub(crate) fn shown(&self, size: Size) -> &[Line]
        ensures { result.now ≡ spec.shown_lines size self.now }
    {
        let below = &self.lines()[self.top(size)..];
        &below[..room(size).min(below.len())]
    }

    /// Commands that paint a part of the picture.
    pub(crate) fn paints(&self, alloc: Global, size: Size, part: &Rect) -> Result<Batch, NoMemory>
        requires near { IsNearRect part.now }
        requires size { IsWindowSize size }
        ensures { (look : Look) →
            IfOk result (λ batch. IsPainting look part.now batch (spec.editor_pic look size self.now)) }
    {
        let mut batch = paint_lines(alloc, *part, self.shown(size))?;
        if room(size) == 0 {
            return Ok(batch);
        }
        batch.push(Paint::Tint {
            clip: part.meet(&self.view().caret(size)),
            op: Op::Exchange(0, 1),
        })?;
        Ok(batch)
    }
}

/// Whether a command copies.
fn is_copy(cmd: &EditorCmd) -> bool
    ensures { result ≡ spec.is_copy cmd.now }
{
    matches!(cmd, EditorCmd::Copy { .. })
}
