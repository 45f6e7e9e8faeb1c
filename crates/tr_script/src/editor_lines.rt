//! The readers of commands for editors, which only version 2 has. Each tests for its faults in the order
//! of their codes.
ghost use Rattle.std.specs.Prelude.{◌≡◌, [], ◌∷◌, ◌||◌, codes, true, false, not};
ghost use Rattle.std.specs.List.{AllPass};
ghost use Rattle.tr_base.specs.Lines.{is_printable};
ghost use Rattle.tr_journal.specs.declared.Actor.TheVariants as actors;
ghost use Rattle.tr_grammar.specs.declared.Code.TheVariants.{B2};
ghost use Rattle.tr_grammar.specs.Words.{words_of, is_number, nat_of};
ghost use Rattle.tr_grammar.specs.Forms.{is_second, InsertText, EraseByte, SplitLine, GoTo, CopyText};
ghost use Rattle.tr_grammar.specs.Forms.{PasteClip};
ghost use Rattle.tr_words.specs.Answers.{Answers, texts};
ghost use Rattle.tr_script.specs.Reading.{Reads, act_line, editor_forms};

use crate::act_lines::{ActLine, leaf_in_steps, leaf_with};
use crate::names::leaf_of;
use crate::refusals::NO_FORM;
use crate::widget_lines::{WORDS_BEFORE_TEXT, acting};
use tr_base::LeafId;
use tr_grammar::{Code, LineRefused, Meaning};
use tr_journal::Step;
use tr_reader::Reader;
use tr_widget::WidgetCmd;
use tr_words::{rest_after, small, text};
use w_edit::{ColumnNumber, EditorCmd, RowNumber};

/// The last row to which a caret can go.
const LAST_ROW: u8 = 199;

/// The last column of a row.
const LAST_COLUMN: u8 = 80;

/// A command for a leaf's editor.
fn editing(leaf: LeafId, cmd: EditorCmd) -> Meaning
    ensures { result ≡ Meaning.Step (actors.Leaf leaf) (Step.Act leaf (WidgetCmd.Editor cmd)) }
{
    acting(leaf, WidgetCmd::Editor(cmd))
}

/// A line of a leaf's actor that is a command for its editor, and the line itself.
pub fn read_editing(reader: &Reader, words: &ActLine, line: &str) -> Result<Meaning, LineRefused>
    requires line { words_of line.now ≡ act_line words.now }
    requires printable { AllPass is_printable line.now }
    ensures { Reads reader.now editor_forms (act_line words.now) result }
{
    if !reader.is_second() {
        return Err(NO_FORM);
    }
    match words.act {
        "insert" => read_insert(reader, words.leaf, words.values, line),
        "erase" => read_erase(reader, words.leaf, words.values),
        "split" => read_split_line(reader, words.leaf, words.values),
        "goto" => read_goto(reader, words.leaf, words.values),
        "copy" => read_copy(reader, words.leaf, words.values),
        "paste" => read_paste(reader, words.leaf, words.values),
        _ => Err(NO_FORM),
    }
}

fn read_insert(
    reader: &Reader,
    leaf: &str,
    _values: &[&str],
    line: &str,
) -> Result<Meaning, LineRefused>
    requires second { is_second reader.now.version ≡ true }
    requires line { words_of line.now ≡ (64 ∷ leaf.now) ∷ codes "insert" ∷ texts _values.now }
    requires printable { AllPass is_printable line.now }
    ensures { Reads reader.now (InsertText ∷ [])
        ((64 ∷ leaf.now) ∷ codes "insert" ∷ texts _values.now) result }
{
    reader.in_steps()?;
    let text = text(reader.alloc(), rest_after(line, WORDS_BEFORE_TEXT))?;
    let leaf = leaf_of(reader, leaf)?;
    Ok(editing(leaf, EditorCmd::Insert(text)))
}

fn read_erase(reader: &Reader, leaf: &str, values: &[&str]) -> Result<Meaning, LineRefused>
    requires { is_second reader.now.version ≡ true }
    ensures { Reads reader.now (EraseByte ∷ [])
        ((64 ∷ leaf.now) ∷ codes "erase" ∷ texts values.now) result }
{
    let [] = values else {
        return Err(NO_FORM);
    };
    let leaf = leaf_in_steps(reader, leaf)?;
    Ok(editing(leaf, EditorCmd::Erase))
}

fn read_split_line(reader: &Reader, leaf: &str, values: &[&str]) -> Result<Meaning, LineRefused>
    requires { is_second reader.now.version ≡ true }
    ensures { Reads reader.now (SplitLine ∷ [])
        ((64 ∷ leaf.now) ∷ codes "split" ∷ texts values.now) result }
{
    let [] = values else {
        return Err(NO_FORM);
    };
    let leaf = leaf_in_steps(reader, leaf)?;
    Ok(editing(leaf, EditorCmd::Split))
}

fn read_paste(reader: &Reader, leaf: &str, values: &[&str]) -> Result<Meaning, LineRefused>
    requires { is_second reader.now.version ≡ true }
    ensures { Reads reader.now (PasteClip ∷ [])
        ((64 ∷ leaf.now) ∷ codes "paste" ∷ texts values.now) result }
{
    let [] = values else {
        return Err(NO_FORM);
    };
    let leaf = leaf_in_steps(reader, leaf)?;
    Ok(editing(leaf, EditorCmd::Paste))
}

/// A row and a column, from their words.
fn spot_of(row: &str, column: &str) -> Result<(RowNumber, ColumnNumber), Code>
    ensures { Answers (not (is_number 0 199 row.now) || (not (is_number 0 80 column.now) || false)) B2
        (λ s. s ≡ (nat_of row.now, nat_of column.now)) result }
{
    let row = RowNumber::of(small(row, 0, LAST_ROW)?);
    let column = ColumnNumber::of(small(column, 0, LAST_COLUMN)?);
    Ok((row, column))
}

/// Two columns, from their words.
fn columns_of(from: &str, to: &str) -> Result<(ColumnNumber, ColumnNumber), Code>
    ensures { Answers (not (is_number 0 80 from.now) || (not (is_number 0 80 to.now) || false)) B2
        (λ s. s ≡ (nat_of from.now, nat_of to.now)) result }
{
    let from = ColumnNumber::of(small(from, 0, LAST_COLUMN)?);
    let to = ColumnNumber::of(small(to, 0, LAST_COLUMN)?);
    Ok((from, to))
}

fn read_goto(reader: &Reader, leaf: &str, values: &[&str]) -> Result<Meaning, LineRefused>
    requires { is_second reader.now.version ≡ true }
    ensures { Reads reader.now (GoTo ∷ [])
        ((64 ∷ leaf.now) ∷ codes "goto" ∷ texts values.now) result }
{
    let [row, column] = values else {
        return Err(NO_FORM);
    };
    let (leaf, (row, column)) = leaf_with(reader, leaf, spot_of(row, column))?;
    Ok(editing(leaf, EditorCmd::Goto { row, column }))
}

fn read_copy(reader: &Reader, leaf: &str, values: &[&str]) -> Result<Meaning, LineRefused>
    requires { is_second reader.now.version ≡ true }
    ensures { Reads reader.now (CopyText ∷ [])
        ((64 ∷ leaf.now) ∷ codes "copy" ∷ texts values.now) result }
{
    let [from, to] = values else {
        return Err(NO_FORM);
    };
    let (leaf, (from, to)) = leaf_with(reader, leaf, columns_of(from, to))?;
    Ok(editing(leaf, EditorCmd::Copy { from, to }))
}
