ghost use Rattle.std.specs.Prelude.{◌≡◌, ◌≤◌, ◌<◌, ◌++◌, length, take, IfOk};
ghost use Rattle.w_edit.specs.Contents as spec;
ghost use Rattle.w_edit.specs.Edits.{IsEditOf, edited_contents};

use crate::changes::Edit;
use crate::editors::Editor;
use std::alloc::Global;
use std::marker::Model;
use std::slice::from_ref;
use tr_base::{LINE, Line, NoMemory};
use tr_client::MOST_LINES;

/// An editor's content, as it is or as an edit makes it. The lines are borrowed in four parts, one after
/// the other, so that a patch needs no copy of them.
#[derive(Drop)]
pub(crate) struct View<'a> {
    above: &'a [Line],
    first: &'a [Line],
    second: &'a [Line],
    below: &'a [Line],
    row: usize,
    column: usize,
    clip: &'a Line,
    alloc: Global,
}

impl<'a> Model for View<'a> {
    ghost use Rattle.std.specs.Prelude.{◌++◌};
    ghost use Rattle.w_edit.specs.Contents.{Contents, IsContents};

    ghost Value = { Contents };

    ghost view = { λ v. record {
      lines = v.above.now ++ (v.first.now ++ (v.second.now ++ v.below.now));
      row = v.row;
      column = v.column;
      clip = v.clip.now;
    } };

    ghost invariant = { λ v. IsContents (record {
      lines = v.above.now ++ (v.first.now ++ (v.second.now ++ v.below.now));
      row = v.row;
      column = v.column;
      clip = v.clip.now;
    }) };
}

impl<'a> View<'a> {
    /// The row of the caret: that of a line.
    pub(crate) fn row(&self) -> usize
        ensures value { result ≡ self.now.row }
        ensures limit { result < MOST_LINES }
    {
        self.row
    }

    /// The column of the caret, at most the length of its line.
    pub(crate) fn column(&self) -> usize
        ensures value { result ≡ self.now.column }
        ensures limit { result ≤ LINE }
    {
        self.column
    }

    /// The number of lines.
    pub(crate) fn len(&self) -> usize
        ensures value { result ≡ length self.now.lines }
        ensures row { self.now.row < result }
        ensures limit { result ≤ MOST_LINES }
    {
        self.above.len() + self.first.len() + self.second.len() + self.below.len()
    }

    /// The line of a row, or an empty one if the row has none.
    pub(crate) fn line_at(&self, row: usize) -> Result<Line, NoMemory>
        ensures { IfOk result (λ line. line ≡ spec.line_at self.now row) }
    {
        if row < self.above.len() {
            return self.above[row].copy();
        }
        let row = row - self.above.len();
        if row < self.first.len() {
            return self.first[row].copy();
        }
        let row = row - self.first.len();
        if row < self.second.len() {
            return self.second[row].copy();
        }
        match self.below.get(row - self.second.len()) {
            Some(line) => line.copy(),
            None => Line::of(self.alloc, &[]),
        }
    }
}

impl Editor {
    /// The content as it is.
    pub(crate) fn view(&self) -> View<'_>
        ensures { result ≡ self.now }
    {
        View {
            above: &self.lines,
            first: &[],
            second: &[],
            below: &[],
            row: self.row,
            column: self.column,
            clip: &self.clip,
            alloc: *self.lines.allocator(),
        }
    }

    /// The content as an edit makes it.
    pub(crate) fn view_after<'a>(&'a self, edit: &'a Edit) -> View<'a>
        requires edit { IsEditOf self.now edit.now }
        requires contents { spec.IsContents (edited_contents self.now edit.now) }
        ensures { result ≡ edited_contents self.now edit.now }
    {
        match edit {
            Edit::Line { line, column } => {
                self.view_with(self.row, (from_ref(line), &[]), self.row, *column)
            }
            Edit::Joined { line, column } => {
                self.view_with(self.row - 1, (from_ref(line), &[]), self.row - 1, *column)
            }
            Edit::Broken { front, back } => {
                self.view_with(self.row, (from_ref(front), from_ref(back)), self.row + 1, 0)
            }
            Edit::Caret { row, column } => View {
                row: *row,
                column: *column,
                ..self.view()
            },
            Edit::Clip(clip) => View {
                clip,
                ..self.view()
            },
        }
    }

    /// The content with lines in place of those from one row to the caret's, and the caret at another place.
    fn view_with<'a>(
        &'a self,
        from: usize,
        new: (&'a [Line], &'a [Line]),
        row: usize,
        column: usize,
    ) -> View<'a>
        requires from { from ≤ length self.now.lines }
        requires contents { spec.IsContents (spec.with_lines self.now
            (take from self.now.lines ++ (new.0.now ++ (new.1.now ++ spec.below self.now))) row column) }
        ensures { result ≡ spec.with_lines self.now (take from self.now.lines
            ++ (new.entry.0.now ++ (new.entry.1.now ++ spec.below self.now))) row column }
    {
        View {
            above: &self.lines[..from],
            first: new.0,
            second: new.1,
            below: &self.lines[self.row + 1..],
            row,
            column,
            clip: &self.clip,
            alloc: *self.lines.allocator(),
        }
    }
}
