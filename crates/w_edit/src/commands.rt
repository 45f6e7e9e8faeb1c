ghost use Rattle.std.specs.Prelude.{◌≡◌, ◌++◌, codes, decimal, OnOk, OnErr};

use crate::rows::{ColumnNumber, RowNumber};
use itoa::Buffer;
use std::alloc::Global;
use tr_base::{Command, Line, NoMemory};
use tr_client::{append_all, append_with_text};

/// A command of an editor.
#[derive(Debug, Drop)]
pub enum EditorCmd {
    /// Inserts the bytes of this line at the caret, which moves behind them.
    Insert(Line),
    /// Removes the byte before the caret; at the beginning of a line, joins it to the one above it.
    Erase,
    /// Breaks the line at the caret.
    Split,
    /// Moves the caret there, or to the nearest place of the text.
    Goto {
        row: RowNumber,
        column: ColumnNumber,
    },
    /// The clip becomes the bytes of the caret's line from `from` to before `to`, as far as they exist.
    Copy {
        from: ColumnNumber,
        to: ColumnNumber,
    },
    /// Inserts the clip at the caret, which moves behind it.
    Paste,
}

impl Command for EditorCmd {
    ghost use Rattle.w_edit.specs.Contents.{IsEditorCmd, editor_words};

    ghost valid = { IsEditorCmd };

    ghost words = { editor_words };

    fn known(&self) {
        match self {
            EditorCmd::Insert(text) => {
                text.invariant();
            }
            EditorCmd::Goto { row, column } => {
                let (_row, _column) = (row.number(), column.number());
            }
            EditorCmd::Copy { from, to } => {
                let (_from, _to) = (from.number(), to.number());
            }
            EditorCmd::Erase | EditorCmd::Split | EditorCmd::Paste => {}
        }
    }

    fn copy(&self, _alloc: Global) -> Result<EditorCmd, NoMemory> {
        Ok(match self {
            EditorCmd::Insert(text) => EditorCmd::Insert(text.copy()?),
            EditorCmd::Erase => EditorCmd::Erase,
            EditorCmd::Split => EditorCmd::Split,
            EditorCmd::Goto { row, column } => EditorCmd::Goto {
                row: *row,
                column: *column,
            },
            EditorCmd::Copy { from, to } => EditorCmd::Copy {
                from: *from,
                to: *to,
            },
            EditorCmd::Paste => EditorCmd::Paste,
        })
    }

    fn same(&self, other: &EditorCmd) -> bool {
        match (self, other) {
            (EditorCmd::Insert(text), EditorCmd::Insert(other)) => text.same(other),
            (EditorCmd::Goto { row, column }, EditorCmd::Goto { row: r, column: c }) => {
                row.same(r) && column.same(c)
            }
            (EditorCmd::Copy { from, to }, EditorCmd::Copy { from: f, to: t }) => {
                from.same(f) && to.same(t)
            }
            (EditorCmd::Erase, EditorCmd::Erase)
            | (EditorCmd::Split, EditorCmd::Split)
            | (EditorCmd::Paste, EditorCmd::Paste) => true,
            _ => false,
        }
    }

    fn print(&self, out: &mut Vec<u8>) -> Result<(), NoMemory> {
        match self {
            EditorCmd::Insert(text) => append_with_text(out, b"insert", text),
            EditorCmd::Erase => append_all(out, &[b"erase"]),
            EditorCmd::Split => append_all(out, &[b"split"]),
            EditorCmd::Goto { row, column } => append_two(
                out,
                b"goto ",
                row.number(),
                column.number(),
            ),
            EditorCmd::Copy { from, to } => append_two(out, b"copy ", from.number(), to.number()),
            EditorCmd::Paste => append_all(out, &[b"paste"]),
        }
    }
}

/// Appends a word and then two numbers to `out`, or nothing.
fn append_two(out: &mut Vec<u8>, word: &[u8], first: u8, second: u8) -> Result<(), NoMemory>
    ensures ok { OnOk result (out.new.items ≡
        out.old.items ++ (word.now ++ decimal first ++ codes " " ++ decimal second)) }
    ensures err { OnErr result (out.new.items ≡ out.old.items) }
{
    let (mut one, mut other) = (Buffer::new(), Buffer::new());
    let first = one.format(first);
    let second = other.format(second);
    append_all(out, &[word, first.as_bytes(), b" ", second.as_bytes()])
}
