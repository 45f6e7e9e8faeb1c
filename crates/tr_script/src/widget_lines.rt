//! The readers of commands for leaves' widgets. Each tests for its faults in the order of their codes.
ghost use Rattle.std.specs.Prelude.{◌≡◌, [], ◌∷◌, ◌||◌, codes, false, not, Some};
ghost use Rattle.std.specs.List.{AllPass};
ghost use Rattle.tr_base.specs.Lines.{is_printable};
ghost use Rattle.tr_journal.specs.declared.Actor.TheVariants as actors;
ghost use Rattle.tr_grammar.specs.declared.Code.TheVariants.{B2};
ghost use Rattle.tr_grammar.specs.Words.{words_of, int_of, is_number, is_signed, nat_of};
ghost use Rattle.tr_grammar.specs.Forms.{SetTint, SetTile, SetShift, SetText, AddLine, Clear};
ghost use Rattle.tr_grammar.specs.Forms.{AddRect, AddSwap, AddExchange, Undo, SetBar};
ghost use Rattle.tr_words.specs.Answers.{Answers, texts};
ghost use Rattle.tr_script.specs.Reading.{Reads, ReadsAs, ReadsEdges, act_line, any_edge, command_forms, spelled_edges, edge_words_then};

use crate::act_lines::{ActLine, EdgeWords, by_leaf, leaf_in_steps, leaf_with};
use crate::editor_lines::read_editing;
use crate::names::leaf_of;
use crate::refusals::NO_FORM;
use tr_base::{LeafId, Point, Tile};
use tr_grammar::{Code, LineRefused, Meaning};
use tr_journal::Step;
use tr_reader::Reader;
use tr_widget::WidgetCmd;
use tr_words::{byte, edge, rest_after, rows, shift, small, text};
use w_canvas::{Area, CanvasCmd};
use w_lines::LinesCmd;
use w_meter::{BarNumber, MeterCmd};
use w_plain::{BoardCmd, LabelCmd, Shift, SolidCmd};

/// The number of words before the text of a command.
pub const WORDS_BEFORE_TEXT: usize = 2;

/// A command for a leaf's widget.
pub fn acting(leaf: LeafId, cmd: WidgetCmd) -> Meaning
    ensures { result ≡ Meaning.Step (actors.Leaf leaf) (Step.Act leaf cmd) }
{
    by_leaf(leaf, Step::Act { leaf, cmd })
}

/// The rectangle of a figure, from the words of its edges.
fn area_of(words: &EdgeWords) -> Result<Area, Code>
    ensures { ReadsEdges words.now (λ e. e ≡ spelled_edges words.now) result }
{
    let west = edge(words.west)?;
    let east = edge(words.east)?;
    let north = edge(words.north)?;
    let south = edge(words.south)?;
    Ok(Area::edges(west, east, north, south))
}

/// A line of a leaf's actor that is a command for its widget, and the line itself.
pub fn read_command(reader: &Reader, words: &ActLine, line: &str) -> Result<Meaning, LineRefused>
    requires line { words_of line.now ≡ act_line words.now }
    requires printable { AllPass is_printable line.now }
    ensures { Reads reader.now command_forms (act_line words.now) result }
{
    match words.act {
        "tint" => read_set_tint(reader, words.leaf, words.values),
        "tile" => read_tile(reader, words.leaf, words.values),
        "shift" => read_shift(reader, words.leaf, words.values),
        "text" => read_text(reader, words.leaf, words.values, line),
        "line" => read_line(reader, words.leaf, words.values, line),
        "clear" => read_clear(reader, words.leaf, words.values),
        "rect" => read_rect(reader, words.leaf, words.values),
        "swap" => read_swap(reader, words.leaf, words.values),
        "exchange" => read_exchange(reader, words.leaf, words.values),
        "undo" => read_undo(reader, words.leaf, words.values),
        "bar" => read_bar(reader, words.leaf, words.values),
        _ => read_editing(reader, words, line),
    }
}

fn read_set_tint(reader: &Reader, leaf: &str, values: &[&str]) -> Result<Meaning, LineRefused>
    ensures { Reads reader.now (SetTint ∷ [])
        ((64 ∷ leaf.now) ∷ codes "tint" ∷ texts values.now) result }
{
    let [tint] = values else {
        return Err(NO_FORM);
    };
    let (leaf, tint) = leaf_with(reader, leaf, byte(tint))?;
    Ok(acting(leaf, WidgetCmd::Solid(SolidCmd::Tint(tint))))
}

fn read_tile(reader: &Reader, leaf: &str, values: &[&str]) -> Result<Meaning, LineRefused>
    ensures { Reads reader.now (SetTile ∷ [])
        ((64 ∷ leaf.now) ∷ codes "tile" ∷ texts values.now) result }
{
    let [tile] = values else {
        return Err(NO_FORM);
    };
    let (leaf, rows) = leaf_with(reader, leaf, rows(tile))?;
    let tile = Tile { rows };
    Ok(acting(leaf, WidgetCmd::Board(BoardCmd::Tile(tile))))
}

/// The distance by which a tile moves, from its words.
fn shift_of(h: &str, v: &str) -> Result<Shift, Code>
    ensures { Answers (not (is_signed 4096 4096 h.now) || (not (is_signed 4096 4096 v.now) || false)) B2
        (λ p. p ≡ record { h = int_of h.now; v = int_of v.now }) result }
{
    let h = shift(h)?;
    let v = shift(v)?;
    Ok(Shift::by(Point { h, v }))
}

fn read_shift(reader: &Reader, leaf: &str, values: &[&str]) -> Result<Meaning, LineRefused>
    ensures { Reads reader.now (SetShift ∷ [])
        ((64 ∷ leaf.now) ∷ codes "shift" ∷ texts values.now) result }
{
    let [h, v] = values else {
        return Err(NO_FORM);
    };
    let (leaf, by) = leaf_with(reader, leaf, shift_of(h, v))?;
    Ok(acting(leaf, WidgetCmd::Board(BoardCmd::Shift(by))))
}

fn read_text(
    reader: &Reader,
    leaf: &str,
    _values: &[&str],
    line: &str,
) -> Result<Meaning, LineRefused>
    requires line { words_of line.now ≡ (64 ∷ leaf.now) ∷ codes "text" ∷ texts _values.now }
    requires printable { AllPass is_printable line.now }
    ensures { Reads reader.now (SetText ∷ [])
        ((64 ∷ leaf.now) ∷ codes "text" ∷ texts _values.now) result }
{
    reader.in_steps()?;
    let text = text(reader.alloc(), rest_after(line, WORDS_BEFORE_TEXT))?;
    let leaf = leaf_of(reader, leaf)?;
    Ok(acting(leaf, WidgetCmd::Label(LabelCmd::Text(text))))
}

/// The command that adds a text to a leaf's lines. The leaf's name is without its @.
#[inline(always)]
pub fn read_added(reader: &Reader, leaf: &str, added: &str) -> Result<Meaning, LineRefused>
    requires { AllPass is_printable added.now }
    ensures { Reads reader.now (AddLine ∷ [])
        ((64 ∷ leaf.now) ∷ codes "line" ∷ words_of added.now) result }
{
    reader.in_steps()?;
    let text = text(reader.alloc(), added)?;
    let leaf = leaf_of(reader, leaf)?;
    Ok(acting(leaf, WidgetCmd::Lines(LinesCmd::Line(text))))
}

fn read_line(
    reader: &Reader,
    leaf: &str,
    _values: &[&str],
    line: &str,
) -> Result<Meaning, LineRefused>
    requires line { words_of line.now ≡ (64 ∷ leaf.now) ∷ codes "line" ∷ texts _values.now }
    requires printable { AllPass is_printable line.now }
    ensures { Reads reader.now (AddLine ∷ [])
        ((64 ∷ leaf.now) ∷ codes "line" ∷ texts _values.now) result }
{
    reader.in_steps()?;
    let text = text(reader.alloc(), rest_after(line, WORDS_BEFORE_TEXT))?;
    let leaf = leaf_of(reader, leaf)?;
    Ok(acting(leaf, WidgetCmd::Lines(LinesCmd::Line(text))))
}

fn read_clear(reader: &Reader, leaf: &str, values: &[&str]) -> Result<Meaning, LineRefused>
    ensures { Reads reader.now (Clear ∷ [])
        ((64 ∷ leaf.now) ∷ codes "clear" ∷ texts values.now) result }
{
    let [] = values else {
        return Err(NO_FORM);
    };
    let leaf = leaf_in_steps(reader, leaf)?;
    Ok(acting(leaf, WidgetCmd::Lines(LinesCmd::Clear)))
}

/// The rectangle of a figure and its colour, from their words.
fn rect_of(edges: &EdgeWords, tint: &str) -> Result<(Area, u8), Code>
    ensures { Answers (any_edge edges.now (not (is_number 0 255 tint.now) || false)) B2
        (λ r. r ≡ (spelled_edges edges.now, nat_of tint.now)) result }
{
    let area = area_of(edges)?;
    let tint = byte(tint)?;
    Ok((area, tint))
}

/// The values of a rectangle's line.
fn rect(reader: &Reader, leaf: &str, edges: &EdgeWords, tint: &str) -> Result<Meaning, LineRefused>
    ensures { ReadsAs reader.now (Some AddRect)
        ((64 ∷ leaf.now) ∷ codes "rect" ∷ edge_words_then edges.now (tint.now ∷ [])) result }
{
    let (leaf, (area, tint)) = leaf_with(reader, leaf, rect_of(edges, tint))?;
    Ok(acting(leaf, WidgetCmd::Canvas(CanvasCmd::Rect { area, tint })))
}

#[inline(always)]
pub fn read_rect(reader: &Reader, leaf: &str, values: &[&str]) -> Result<Meaning, LineRefused>
    ensures { Reads reader.now (AddRect ∷ [])
        ((64 ∷ leaf.now) ∷ codes "rect" ∷ texts values.now) result }
{
    let [west, east, north, south, tint] = values else {
        return Err(NO_FORM);
    };
    let edges = EdgeWords {
        west,
        east,
        north,
        south,
    };
    rect(reader, leaf, &edges, tint)
}

#[inline(always)]
pub fn read_swap(reader: &Reader, leaf: &str, values: &[&str]) -> Result<Meaning, LineRefused>
    ensures { Reads reader.now (AddSwap ∷ [])
        ((64 ∷ leaf.now) ∷ codes "swap" ∷ texts values.now) result }
{
    let [west, east, north, south] = values else {
        return Err(NO_FORM);
    };
    let edges = EdgeWords {
        west,
        east,
        north,
        south,
    };
    swap(reader, leaf, &edges)
}

/// The values of a swap's line.
fn swap(reader: &Reader, leaf: &str, edges: &EdgeWords) -> Result<Meaning, LineRefused>
    ensures { ReadsAs reader.now (Some AddSwap)
        ((64 ∷ leaf.now) ∷ codes "swap" ∷ edge_words_then edges.now []) result }
{
    reader.in_steps()?;
    let area = area_of(edges)?;
    let leaf = leaf_of(reader, leaf)?;
    Ok(acting(
        leaf,
        WidgetCmd::Canvas(CanvasCmd::Exchange { area, a: 0, b: 1 }),
    ))
}

fn read_exchange(reader: &Reader, leaf: &str, values: &[&str]) -> Result<Meaning, LineRefused>
    ensures { Reads reader.now (AddExchange ∷ [])
        ((64 ∷ leaf.now) ∷ codes "exchange" ∷ texts values.now) result }
{
    let [west, east, north, south, a, b] = values else {
        return Err(NO_FORM);
    };
    if !reader.is_second() {
        return Err(NO_FORM);
    }
    let edges = EdgeWords {
        west,
        east,
        north,
        south,
    };
    exchange(reader, leaf, &edges, a, b)
}

/// The rectangle of a figure and two colours, from their words.
fn colours_of(edges: &EdgeWords, a: &str, b: &str) -> Result<(Area, u8, u8), Code>
    ensures { Answers
        (any_edge edges.now (not (is_number 0 255 a.now) || (not (is_number 0 255 b.now) || false))) B2
        (λ r. r ≡ (spelled_edges edges.now, nat_of a.now, nat_of b.now)) result }
{
    let area = area_of(edges)?;
    let a = byte(a)?;
    let b = byte(b)?;
    Ok((area, a, b))
}

/// The values of an exchange's line.
fn exchange(
    reader: &Reader,
    leaf: &str,
    edges: &EdgeWords,
    a: &str,
    b: &str,
) -> Result<Meaning, LineRefused>
    ensures { ReadsAs reader.now (Some AddExchange)
        ((64 ∷ leaf.now) ∷ codes "exchange" ∷ edge_words_then edges.now (a.now ∷ b.now ∷ [])) result }
{
    let (leaf, (area, a, b)) = leaf_with(reader, leaf, colours_of(edges, a, b))?;
    Ok(acting(leaf, WidgetCmd::Canvas(CanvasCmd::Exchange { area, a, b })))
}

#[inline(always)]
pub fn read_undo(reader: &Reader, leaf: &str, values: &[&str]) -> Result<Meaning, LineRefused>
    ensures { Reads reader.now (Undo ∷ [])
        ((64 ∷ leaf.now) ∷ codes "undo" ∷ texts values.now) result }
{
    let [] = values else {
        return Err(NO_FORM);
    };
    let leaf = leaf_in_steps(reader, leaf)?;
    Ok(acting(leaf, WidgetCmd::Canvas(CanvasCmd::Undo)))
}

/// A bar and its height, from their words.
fn bar_of(bar: &str, height: &str) -> Result<(BarNumber, u8), Code>
    ensures { Answers (not (is_number 0 31 bar.now) || (not (is_number 0 255 height.now) || false)) B2
        (λ b. b ≡ (nat_of bar.now, nat_of height.now)) result }
{
    let bar = BarNumber::of(small(bar, 0, 31)?);
    let height = byte(height)?;
    Ok((bar, height))
}

fn read_bar(reader: &Reader, leaf: &str, values: &[&str]) -> Result<Meaning, LineRefused>
    ensures { Reads reader.now (SetBar ∷ [])
        ((64 ∷ leaf.now) ∷ codes "bar" ∷ texts values.now) result }
{
    let [bar, height] = values else {
        return Err(NO_FORM);
    };
    let (leaf, (bar, height)) = leaf_with(reader, leaf, bar_of(bar, height))?;
    Ok(acting(leaf, WidgetCmd::Meter(MeterCmd::Bar { bar, height })))
}
