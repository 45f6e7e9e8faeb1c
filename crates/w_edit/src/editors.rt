ghost use Rattle.std.specs.Prelude.{◌≡◌, ◌≤◌, ◌<◌, ◌-◌, ◌↔◌, IsTrue, IfOk, List, false};
ghost use Rattle.std.specs.List.{AllByRecursion};
ghost use Rattle.tr_base.specs.Lines.{IsLine};
ghost use Rattle.tr_client.specs.Texts.{most_lines};
ghost use Rattle.w_edit.specs.declared.commands.EditorCmd.{EditorCmd};
ghost use Rattle.w_edit.specs.Contents as spec;
ghost use Rattle.w_edit.specs.Flat.{IsFlatOf, flat_text, flat_after, editor_after};
ghost use Rattle.w_edit.specs.Pictures.{is_copy};

use crate::commands::EditorCmd;
use crate::rows::{ColumnNumber, RowNumber};
use std::alloc::Global;
use std::marker::Model;
use tr_base::{LINE, Line, NoMemory};
use tr_client::{append_lines, same_lines};

/// A text of lines with a caret in it, and a clip. The lines are kept in one block.
#[derive(Debug, Drop)]
pub struct Editor {
    pub(crate) lines: Vec<Line>,
    pub(crate) row: usize,
    pub(crate) column: usize,
    pub(crate) clip: Line,
}

impl Model for Editor {
    ghost use Rattle.w_edit.specs.Contents.{Contents, IsContents};

    ghost Value = { Contents };

    ghost view = { λ e. record { lines = e.lines.items; row = e.row; column = e.column; clip = e.clip } };

    ghost invariant = { λ e.
        IsContents (record { lines = e.lines.items; row = e.row; column = e.column; clip = e.clip }) };
}

impl Editor {
    /// A text of one empty line.
    pub fn new(alloc: Global) -> Result<Editor, NoMemory>
        ensures { IfOk result (λ e. e ≡ spec.empty_text) }
    {
        let mut lines = Vec::new(alloc);
        lines.push(Line::of(alloc, &[])?)?;
        Ok(Editor {
            lines,
            row: 0,
            column: 0,
            clip: Line::of(alloc, &[])?,
        })
    }

    /// Tells the invariant of editors. Nothing runs.
    pub fn invariant(&self)
        ensures { spec.IsContents self.now }
    {
        let _lines = self.lines();
    }

    /// Its lines, from north to south.
    pub fn lines(&self) -> &[Line]
        ensures value { result.now ≡ self.now.lines }
        ensures invariant { spec.IsContents self.now }
    {
        &self.lines
    }

    /// The row of the caret: that of a line.
    pub fn row(&self) -> usize
        ensures value { result ≡ self.now.row }
        ensures limit { result < most_lines }
    {
        self.row
    }

    /// The column of the caret, at most the length of its line.
    pub fn column(&self) -> usize
        ensures value { result ≡ self.now.column }
        ensures limit { result ≤ LINE }
    {
        // Called for its clause: it is a line, so it has at most `LINE` bytes.
        let _line = self.line();
        self.column
    }

    /// The clip: the bytes that were copied last.
    pub fn clip(&self) -> &Line
        ensures { result.now ≡ self.now.clip }
    {
        &self.clip
    }

    /// Law of the text in one row of bytes: it determines the content, and a command has the same effect
    /// on it. Nothing runs.
    pub fn obeys_flat(&self)
        ensures all { IsFlatOf self.now }
        ensures commands { (cmds : List EditorCmd) → AllByRecursion spec.IsEditorCmd cmds →
            flat_text (editor_after self.now cmds) ≡ flat_after (flat_text self.now) cmds }
    {
        self.invariant();
    }

    /// Law of the effects: a command that doesn't copy leaves the content unchanged if and only if it isn't
    /// effective. Nothing runs.
    #[tactic(auto, using(crate::specs::EditorLaws::editor_stays))]
    pub fn obeys_effects(&self, cmd: &EditorCmd)
        ensures { is_copy cmd.now ≡ false →
            (spec.acts self.now cmd.now ≡ false) ↔ (spec.editor_next self.now cmd.now ≡ self.now) }
    {}

    /// A copy of the content.
    pub(crate) fn copy_of(&self, alloc: Global) -> Result<Editor, NoMemory>
        ensures { IfOk result (λ y. y ≡ self.now) }
    {
        let mut lines = Vec::new(alloc);
        append_lines(&mut lines, &self.lines)?;
        Ok(Editor {
            lines,
            row: self.row,
            column: self.column,
            clip: self.clip.copy()?,
        })
    }

    /// Whether both are the same content.
    pub(crate) fn is(&self, other: &Editor) -> bool
        ensures { IsTrue result ↔ (self.now ≡ other.now) }
    {
        self.row == other.row
            && self.column == other.column
            && self.clip.same(&other.clip)
            && same_lines(&self.lines, &other.lines)
    }

    /// The caret's line.
    pub(crate) fn line(&self) -> &Line
        ensures value { result.now ≡ spec.line_of self.now }
        ensures line { IsLine result.now }
    {
        let line = &self.lines[self.row];
        line.invariant();
        line
    }

    /// The bytes of its line before the caret.
    #[tactic(auto, using(crate::specs::ContentsLaws::part_taken))]
    pub(crate) fn before(&self) -> &[u8]
        ensures value { result.now ≡ spec.before self.now }
        ensures line { IsLine result.now }
    {
        &self.line().bytes()[..self.column]
    }

    /// The bytes of its line behind the caret.
    #[tactic(auto, using(crate::specs::ContentsLaws::part_dropped))]
    pub(crate) fn behind(&self) -> &[u8]
        ensures value { result.now ≡ spec.behind self.now }
        ensures line { IsLine result.now }
    {
        &self.line().bytes()[self.column..]
    }

    /// The line above the caret's.
    pub(crate) fn upper(&self) -> &Line
        requires { 0 < self.now.row }
        ensures value { result.now ≡ spec.line_at self.now (self.now.row - 1) }
        ensures line { IsLine result.now }
    {
        let line = &self.lines[self.row - 1];
        line.invariant();
        line
    }

    /// The row and the column of the text that are nearest to these.
    pub(crate) fn nearest(&self, row: &RowNumber, column: &ColumnNumber) -> (usize, usize)
        ensures row { result.0 ≡ (spec.caret_to self.now row.now column.now).row }
        ensures column { result.1 ≡ (spec.caret_to self.now row.now column.now).column }
    {
        let row = usize::from(row.number()).min(self.lines.len() - 1);
        let column = usize::from(column.number()).min(self.lines[row].bytes().len());
        (row, column)
    }
}
