//! The readers of the lines that declare leaves. Each tests for its faults in the order of their codes.
ghost use Rattle.std.specs.Prelude.{◌≡◌, [], ◌∷◌, ◌||◌, codes, false, not, IfErr};
ghost use Rattle.std.specs.List.{AllPass};
ghost use Rattle.tr_base.specs.Lines.{is_printable};
ghost use Rattle.tr_grammar.specs.declared.Code.TheVariants.{B2};
ghost use Rattle.tr_grammar.specs.Words.{words_of, hex_of, int_of, is_hex, is_signed};
ghost use Rattle.tr_grammar.specs.Forms.{leaf_forms};
ghost use Rattle.tr_grammar.specs.Forms as form;
ghost use Rattle.tr_grammar.specs.Faults.{allows, opening_line};
ghost use Rattle.tr_words.specs.Answers.{Answers, texts};
ghost use Rattle.tr_script.specs.Reading.{ReadsFirstValues, Reads, ReadsHead, head_faults, leaf_line, shapes_in};

use crate::refusals::NO_FORM;
use std::alloc::Global;
use tr_base::{Point, Shapes, Tile};
use tr_grammar::{Code, LineRefused, Meaning};
use tr_journal::Item;
use tr_reader::Reader;
use tr_widget::Widget;
use tr_words::{LeafWords, ShapeWords, byte, name, rest_after, rows, shape, shift, small, text};
use w_canvas::Canvas;
use w_edit::Editor;
use w_lines::Lines;
use w_meter::Meter;
use w_plain::{Board, Label, Solid};

/// The number of words before the text of a label.
const WORDS_BEFORE_TEXT: usize = 9;

/// The words of a line that declares a leaf, after its first: those before the widget's, the widget's and
/// its values.
#[derive(Drop)]
struct LeafLine<'a> {
    head: LeafWords<'a>,
    widget: &'a str,
    values: &'a [&'a str],
}

/// A line that declares a leaf: its words after the first, and the line itself.
pub fn read_leaf(
    alloc: Global,
    reader: &Reader,
    words: &[&str],
    line: &str,
) -> Result<Meaning, LineRefused>
    requires line { words_of line.now ≡ codes "leaf" ∷ texts words.now }
    requires printable { AllPass is_printable line.now }
    ensures { Reads reader.now leaf_forms (codes "leaf" ∷ texts words.now) result }
{
    let [
        name,
        lo,
        pref,
        hi,
        lo_down,
        pref_down,
        hi_down,
        widget,
        values @ ..,
    ] = words
    else {
        return Err(NO_FORM);
    };
    let across = ShapeWords { lo, pref, hi };
    let down = ShapeWords {
        lo: lo_down,
        pref: pref_down,
        hi: hi_down,
    };
    let head = LeafWords { name, across, down };
    let words = LeafLine {
        head,
        widget,
        values,
    };
    read_widget(alloc, reader, &words, line)
}

/// The same, given the widget's word.
fn read_widget(
    alloc: Global,
    reader: &Reader,
    words: &LeafLine,
    line: &str,
) -> Result<Meaning, LineRefused>
    requires line { words_of line.now
        ≡ leaf_line words.now.head words.now.widget.now (texts words.now.values.now) }
    requires printable { AllPass is_printable line.now }
    ensures { Reads reader.now leaf_forms
        (leaf_line words.now.head words.now.widget.now (texts words.now.values.now)) result }
{
    let head = &words.head;
    match words.widget {
        "solid" => read_solid(reader, head, words.values),
        "board" => read_board(reader, head, words.values),
        "label" => read_label(reader, head, words.values, line),
        "lines" => read_typescript(alloc, reader, head, words.values),
        "canvas" => read_canvas(alloc, reader, head, words.values),
        "meter" => read_meter(alloc, reader, head, words.values),
        "edit" => read_editor(alloc, reader, head, words.values),
        _ => Err(NO_FORM),
    }
}

/// The shapes of a leaf, if the line may come there.
fn shapes_of(reader: &Reader, head: &LeafWords) -> Result<Shapes, Code>
    ensures { ReadsFirstValues (not (allows reader.now.place opening_line)) (head_faults head.now)
        (λ s. s ≡ shapes_in head.now) result }
{
    reader.in_opening()?;
    name(head.name)?;
    let across = shape(&head.across)?;
    let down = shape(&head.down)?;
    Ok(Shapes { across, down })
}

/// The same for a leaf whose name is new, and the value of the words after the widget's.
fn head_of<V: Copy>(
    reader: &Reader,
    head: &LeafWords,
    value: Result<V, Code>,
) -> Result<(Shapes, V), Code>
    requires { IfErr value (λ e. e ≡ B2) }
    ensures { ReadsHead reader.now head.now value result }
{
    let shapes = shapes_of(reader, head)?;
    let value = value?;
    reader.is_new(head.name)?;
    Ok((shapes, value))
}

/// A leaf with this content.
fn leaf(shapes: Shapes, content: Widget) -> Meaning
    ensures { result ≡ Meaning.Item (Item.Leaf shapes content) }
{
    Meaning::Item(Item::Leaf { shapes, content })
}

/// A Board, from its words.
fn board_of(tile: &str, h: &str, v: &str) -> Result<Board, Code>
    ensures { Answers (not (is_hex 8 tile.now)
        || (not (is_signed 4096 4096 h.now) || (not (is_signed 4096 4096 v.now) || false))) B2
        (λ b. b ≡ record {
          tile = record { rows = hex_of 8 tile.now };
          shift = record { h = int_of h.now; v = int_of v.now };
        })
        result }
{
    let tile = Tile { rows: rows(tile)? };
    let h = shift(h)?;
    let v = shift(v)?;
    Ok(Board::new(tile, Point { h, v }))
}

fn read_solid(reader: &Reader, head: &LeafWords, values: &[&str]) -> Result<Meaning, LineRefused>
    ensures { Reads reader.now (form.Solid ∷ []) (leaf_line head.now
        (codes "solid") (texts values.now)) result }
{
    let [tint] = values else {
        return Err(NO_FORM);
    };
    let (shapes, tint) = head_of(reader, head, byte(tint))?;
    Ok(leaf(shapes, Widget::Solid(Solid::new(tint))))
}

fn read_board(reader: &Reader, head: &LeafWords, values: &[&str]) -> Result<Meaning, LineRefused>
    ensures { Reads reader.now (form.Board ∷ []) (leaf_line head.now
        (codes "board") (texts values.now)) result }
{
    let [tile, h, v] = values else {
        return Err(NO_FORM);
    };
    let (shapes, board) = head_of(reader, head, board_of(tile, h, v))?;
    Ok(leaf(shapes, Widget::Board(board)))
}

fn read_label(
    reader: &Reader,
    head: &LeafWords,
    _values: &[&str],
    line: &str,
) -> Result<Meaning, LineRefused>
    requires line { words_of line.now ≡ leaf_line head.now (codes "label") (texts _values.now) }
    requires printable { AllPass is_printable line.now }
    ensures { Reads reader.now (form.Label ∷ []) (leaf_line head.now
        (codes "label") (texts _values.now)) result }
{
    let shapes = shapes_of(reader, head)?;
    let text = text(reader.alloc(), rest_after(line, WORDS_BEFORE_TEXT))?;
    reader.is_new(head.name)?;
    Ok(leaf(shapes, Widget::Label(Label::new(text)?)))
}

fn read_typescript(
    alloc: Global,
    reader: &Reader,
    head: &LeafWords,
    values: &[&str],
) -> Result<Meaning, LineRefused>
    ensures { Reads reader.now (form.Lines ∷ []) (leaf_line head.now
        (codes "lines") (texts values.now)) result }
{
    let [] = values else {
        return Err(NO_FORM);
    };
    let (shapes, ()) = head_of(reader, head, Ok(()))?;
    Ok(leaf(shapes, Widget::Lines(Lines::new(alloc)?)))
}

fn read_canvas(
    alloc: Global,
    reader: &Reader,
    head: &LeafWords,
    values: &[&str],
) -> Result<Meaning, LineRefused>
    ensures { Reads reader.now (form.Canvas ∷ []) (leaf_line head.now
        (codes "canvas") (texts values.now)) result }
{
    let [] = values else {
        return Err(NO_FORM);
    };
    let (shapes, ()) = head_of(reader, head, Ok(()))?;
    Ok(leaf(shapes, Widget::Canvas(Canvas::new(alloc)?)))
}

fn read_meter(
    alloc: Global,
    reader: &Reader,
    head: &LeafWords,
    values: &[&str],
) -> Result<Meaning, LineRefused>
    ensures { Reads reader.now (form.Meter ∷ []) (leaf_line head.now
        (codes "meter") (texts values.now)) result }
{
    let [bars] = values else {
        return Err(NO_FORM);
    };
    let (shapes, bars) = head_of(reader, head, small(bars, 1, 32))?;
    Ok(leaf(shapes, Widget::Meter(Meter::new(alloc, bars)?)))
}

fn read_editor(
    alloc: Global,
    reader: &Reader,
    head: &LeafWords,
    values: &[&str],
) -> Result<Meaning, LineRefused>
    ensures { Reads reader.now (form.Editor ∷ []) (leaf_line head.now
        (codes "edit") (texts values.now)) result }
{
    let [] = values else {
        return Err(NO_FORM);
    };
    if !reader.is_second() {
        return Err(NO_FORM);
    }
    let (shapes, ()) = head_of(reader, head, Ok(()))?;
    Ok(leaf(shapes, Widget::Editor(Editor::new(alloc)?)))
}
