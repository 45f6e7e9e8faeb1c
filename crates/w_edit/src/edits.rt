ghost use Rattle.std.specs.Prelude.{◌≡◌, ◌<◌, ◌++◌, length, take, drop, IfOk, OnOk, OnErr, true};
ghost use Rattle.tr_base.specs.Lines.{IsLine};
ghost use Rattle.tr_paint.specs.Traces.{Look};
ghost use Rattle.tr_client.specs.Laws.{IsWindowSize};
ghost use Rattle.w_edit.specs.Contents as spec;
ghost use Rattle.w_edit.specs.Edits.{IsEditOf, MakesContents, edited_contents};
ghost use Rattle.w_edit.specs.Flat.{flat_text, flat_next};
ghost use Rattle.w_edit.specs.Pictures.{editor_patch};

use crate::changes::Edit;
use crate::commands::EditorCmd;
use crate::editors::Editor;
use crate::rows::{ColumnNumber, RowNumber};
use std::alloc::Global;
use tr_base::{Command, LINE, Line, NoMemory, Size};
use tr_client::{MOST_LINES, line_in_a_row};
use tr_paint::Batch;

impl Editor {
    /// The content after a command, and the command's patch.
    pub(crate) fn changed(
        &self,
        alloc: Global,
        size: Size,
        cmd: &EditorCmd,
    ) -> Result<(Editor, Batch), NoMemory>
        requires { IsWindowSize size }
        ensures next { IfOk result (λ r. r.0 ≡ spec.editor_next self.now cmd.now) }
        ensures flat { IfOk result (λ r. flat_text r.0 ≡ flat_next (flat_text self.now) cmd.now) }
        ensures patch { (look : Look) → IfOk result (λ r. r.1 ≡ editor_patch look size self.now cmd.now) }
    {
        self.invariant();
        let mut next = self.copy_of(alloc)?;
        let mut patch = Batch::new(alloc);
        next.take(alloc, size, cmd, &mut patch)?;
        Ok((next, patch))
    }

    /// Changes the content by a command, and puts the command's patch after the commands of a batch. If
    /// memory runs out, the content stays, and some of the patch may stay in the batch.
    pub(crate) fn take(
        &mut self,
        alloc: Global,
        size: Size,
        cmd: &EditorCmd,
        batch: &mut Batch,
    ) -> Result<(), NoMemory>
        requires { IsWindowSize size }
        ensures next { OnOk result (self.new ≡ spec.editor_next self.old cmd.now) }
        ensures patch { (look : Look) →
            OnOk result (batch.new ≡ batch.old ++ editor_patch look size self.old cmd.now) }
        ensures content_err { OnErr result (self.new ≡ self.old) }
        ensures batch_err { OnErr result (take (length batch.old) batch.new ≡ batch.old) }
    {
        if !self.acts(cmd) {
            return Ok(());
        }
        let edit = self.edit(alloc, cmd)?;
        self.view()
            .put_patch(size, &self.view_after(&edit), cmd, batch)?;
        self.make(edit)?;
        Ok(())
    }

    /// Whether a command is effective.
    fn acts(&self, cmd: &EditorCmd) -> bool
        ensures { result ≡ spec.acts self.now cmd.now }
    {
        match cmd {
            EditorCmd::Insert(text) => self.fits(text),
            EditorCmd::Erase => self.column != 0 || self.can_join(),
            EditorCmd::Split => self.lines.len() < MOST_LINES,
            EditorCmd::Goto { row, column } => {
                let (row, column) = self.nearest(row, column);
                !(row == self.row && column == self.column)
            }
            EditorCmd::Copy { .. } => true,
            EditorCmd::Paste => self.fits(&self.clip),
        }
    }

    /// Whether bytes can be put at the caret.
    fn fits(&self, text: &Line) -> bool
        ensures { result ≡ spec.fits self.now text.now }
    {
        let len = text.bytes().len();
        0 < len && self.line().bytes().len() + len <= LINE
    }

    /// Whether the caret's line can be joined to the one above it.
    fn can_join(&self) -> bool
        ensures { result ≡ spec.can_join self.now }
    {
        0 < self.row && self.upper().bytes().len() + self.line().bytes().len() <= LINE
    }

    /// The change that an effective command makes.
    fn edit(&self, alloc: Global, cmd: &EditorCmd) -> Result<Edit, NoMemory>
        requires { spec.acts self.now cmd.now ≡ true }
        ensures made { IfOk result (λ edit. MakesContents self.now edit (spec.effect self.now cmd.now)) }
        ensures contents { IfOk result (λ edit. spec.IsContents (edited_contents self.now edit)) }
    {
        self.invariant();
        cmd.known();
        match cmd {
            EditorCmd::Insert(text) => self.inserted(alloc, text),
            EditorCmd::Erase if self.column == 0 => self.joined(alloc),
            EditorCmd::Erase => self.erased(alloc),
            EditorCmd::Split => self.broken(alloc),
            EditorCmd::Goto { row, column } => Ok(self.moved(row, column)),
            EditorCmd::Copy { from, to } => self.copied(alloc, from, to),
            EditorCmd::Paste => self.inserted(alloc, &self.clip),
        }
    }

    /// Puts bytes at the caret.
    fn inserted(&self, alloc: Global, text: &Line) -> Result<Edit, NoMemory>
        requires { spec.fits self.now text.now ≡ true }
        ensures { IfOk result (λ edit. MakesContents self.now edit (spec.inserted self.now text.now)) }
    {
        let bytes = text.bytes();
        let front = line_in_a_row(alloc, self.before(), bytes)?;
        Ok(Edit::Line {
            line: line_in_a_row(alloc, front.bytes(), self.behind())?,
            column: self.column + bytes.len(),
        })
    }

    /// Removes the byte before the caret.
    fn erased(&self, alloc: Global) -> Result<Edit, NoMemory>
        requires { 0 < self.now.column }
        ensures { IfOk result (λ edit. MakesContents self.now edit (spec.erased self.now)) }
    {
        let column = self.column - 1;
        Ok(Edit::Line {
            line: line_in_a_row(alloc, &self.line().bytes()[..column], self.behind())?,
            column,
        })
    }

    /// Joins the caret's line to the one above it.
    fn joined(&self, alloc: Global) -> Result<Edit, NoMemory>
        requires { spec.can_join self.now ≡ true }
        ensures { IfOk result (λ edit. MakesContents self.now edit (spec.joined_above self.now)) }
    {
        let upper = self.upper().bytes();
        Ok(Edit::Joined {
            line: line_in_a_row(alloc, upper, self.line().bytes())?,
            column: upper.len(),
        })
    }

    /// Breaks the line at the caret.
    fn broken(&self, alloc: Global) -> Result<Edit, NoMemory>
        ensures { IfOk result (λ edit. MakesContents self.now edit (spec.broken self.now)) }
    {
        Ok(Edit::Broken {
            front: Line::of(alloc, self.before())?,
            back: Line::of(alloc, self.behind())?,
        })
    }

    /// Moves the caret.
    fn moved(&self, row: &RowNumber, column: &ColumnNumber) -> Edit
        ensures { MakesContents self.now result (spec.caret_to self.now row.now column.now) }
    {
        let (row, column) = self.nearest(row, column);
        Edit::Caret { row, column }
    }

    /// Copies bytes of the caret's line.
    fn copied(
        &self,
        alloc: Global,
        from: &ColumnNumber,
        to: &ColumnNumber,
    ) -> Result<Edit, NoMemory>
        ensures { IfOk result (λ edit. MakesContents self.now edit (spec.copied self.now from.now to.now)) }
    {
        let (from, to) = (usize::from(from.number()), usize::from(to.number()));
        Ok(Edit::Clip(part(alloc, self.line().bytes(), from, to)?))
    }

    /// Makes an edit. If memory runs out, nothing changes.
    fn make(&mut self, edit: Edit) -> Result<(), NoMemory>
        requires edit { IsEditOf self.old edit }
        requires contents { spec.IsContents (edited_contents self.old edit) }
        ensures ok { OnOk result (self.new ≡ edited_contents self.old edit) }
        ensures err { OnErr result (self.new ≡ self.old) }
    {
        let row = self.row;
        match edit {
            Edit::Line { line, column } => {
                self.lines[row] = line;
                self.column = column;
            }
            Edit::Joined { line, column } => {
                let _lower = self.lines.remove(row);
                self.lines[row - 1] = line;
                self.row = row - 1;
                self.column = column;
            }
            Edit::Broken { front, back } => {
                self.lines.insert(row + 1, back)?;
                self.lines[row] = front;
                self.row = row + 1;
                self.column = 0;
            }
            Edit::Caret { row, column } => {
                self.row = row;
                self.column = column;
            }
            Edit::Clip(clip) => self.clip = clip,
        }
        Ok(())
    }
}

/// The bytes of a text from one place to before another, as far as they exist.
fn part(alloc: Global, text: &[u8], from: usize, to: usize) -> Result<Line, NoMemory>
    requires { IsLine text.now }
    ensures { IfOk result (λ line. line ≡ drop from (take to text.now)) }
{
    let first = &text[..to.min(text.len())];
    Line::of(alloc, &first[from.min(first.len())..])
}
