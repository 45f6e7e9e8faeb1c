//! The readers of the lines of the opening. Each tests for its faults in the order of their codes.
ghost use Rattle.std.specs.Prelude.{◌≡◌, [], ◌∷◌, ◌||◌, bytes_eq, codes, false, not, IfErr, IfOk};
ghost use Rattle.tr_base.specs.Layouts.{farthest, IsOffset};
ghost use Rattle.tr_forest.specs.Nodes.{IsSize};
ghost use Rattle.tr_grammar.specs.declared.Code.TheVariants.{B2};
ghost use Rattle.tr_grammar.specs.Words.{int_of, is_name, is_number, is_signed, nat_of};
ghost use Rattle.tr_grammar.specs.Forms.{node_forms, split_words, way_words, Version, Screen, Glyph};
ghost use Rattle.tr_grammar.specs.Forms.{Split, Page, Border, Rigid, Translate, Pack, Put, PutAt, Root, Begin};
ghost use Rattle.tr_grammar.specs.Meanings.{split_of};
ghost use Rattle.tr_grammar.specs.Faults.{allows, opening_line};
ghost use Rattle.tr_words.specs.Answers.{Answers, Chooses, texts};
ghost use Rattle.tr_script.specs.Reading.{ReadsFirstValues, Reads, ReadsHanging, ReadsTint};

use crate::names::node_of;
use crate::refusals::NO_FORM;
use tr_base::{NodeId, Point, Size};
use tr_forest::NodeKind;
use tr_grammar::{Code, LineRefused, Meaning};
use tr_journal::Item;
use tr_reader::Reader;
use tr_words::{byte, extent, glyph_byte, name, offset, rows, side, small};

/// The place of a child without a point in its line.
pub const ORIGIN: Point = Point { h: 0, v: 0 };

/// A split that has only a tint.
fn split_of(word: &str) -> Option<NodeKind>
    ensures { Chooses split_words word.now (split_of word.now) result }
{
    match word {
        "h" => Some(NodeKind::H),
        "v" => Some(NodeKind::V),
        "z" => Some(NodeKind::Z),
        "t" => Some(NodeKind::T { shown: None }),
        _ => None,
    }
}

/// Whether a word means that rows go down.
fn is_down(word: &str) -> Option<bool>
    ensures { Chooses way_words word.now (bytes_eq word.now (codes "down")) result }
{
    match word {
        "across" => Some(false),
        "down" => Some(true),
        _ => None,
    }
}

pub fn read_version(reader: &Reader, words: &[&str]) -> Result<Meaning, LineRefused>
    ensures { Reads reader.now (Version ∷ []) (codes "trestle" ∷ texts words.now) result }
{
    let [version] = words else {
        return Err(NO_FORM);
    };
    reader.in_start()?;
    let version = small(version, 1, 2)?;
    Ok(Meaning::Version(version))
}

pub fn read_screen(reader: &Reader, words: &[&str]) -> Result<Meaning, LineRefused>
    ensures { Reads reader.now (Screen ∷ []) (codes "screen" ∷ texts words.now) result }
{
    let [wide, high, kind] = words else {
        return Err(NO_FORM);
    };
    let kind = reader.kind(kind)?;
    reader.in_head()?;
    let wide = side(wide)?;
    let high = side(high)?;
    let size = Size { wide, high };
    Ok(Meaning::Item(Item::Screen { size, kind }))
}

pub fn read_glyph(reader: &Reader, words: &[&str]) -> Result<Meaning, LineRefused>
    ensures { Reads reader.now (Glyph ∷ []) (codes "glyph" ∷ texts words.now) result }
{
    let [byte, rows_word] = words else {
        return Err(NO_FORM);
    };
    reader.in_opening()?;
    let byte = glyph_byte(byte)?;
    let rows = rows(rows_word)?;
    reader.is_new_glyph(byte)?;
    Ok(Meaning::Item(Item::Glyph { byte, rows }))
}

pub fn read_node(reader: &Reader, words: &[&str]) -> Result<Meaning, LineRefused>
    ensures { Reads reader.now node_forms (codes "node" ∷ texts words.now) result }
{
    let [new, kind, values @ ..] = words else {
        return Err(NO_FORM);
    };
    match *kind {
        "page" => read_page(reader, new, values),
        "border" => read_border(reader, new, values),
        "rigid" => read_rigid(reader, new, values),
        "translate" => read_translate(reader, new, values),
        "pack" => read_pack(reader, new, values),
        _ => read_split(reader, new, kind, values),
    }
}

/// The tint of a node that isn't a leaf, if the line may come there.
fn tint_of(reader: &Reader, new: &str, tint: &str) -> Result<u8, Code>
    ensures { ReadsFirstValues (not (allows reader.now.place opening_line))
        (not (is_name new.now) ∷ not (is_number 0 255 tint.now) ∷ []) (λ n. n ≡ nat_of tint.now) result }
{
    reader.in_opening()?;
    name(new)?;
    let tint = byte(tint)?;
    Ok(tint)
}

/// The same for a node whose name is new, and the value of the words after its tint.
fn tint_with<V: Copy>(
    reader: &Reader,
    new: &str,
    tint: &str,
    value: Result<V, Code>,
) -> Result<(u8, V), Code>
    requires { IfErr value (λ e. e ≡ B2) }
    ensures { ReadsTint reader.now new.now tint.now value result }
{
    let tint = tint_of(reader, new, tint)?;
    let value = value?;
    reader.is_new(new)?;
    Ok((tint, value))
}

/// A node that isn't a leaf.
fn node(kind: NodeKind, tint: u8) -> Meaning
    ensures { result ≡ Meaning.Item (Item.Node kind tint) }
{
    Meaning::Item(Item::Node { kind, tint })
}

/// The offset of a child of a Z or the distance of a Translate, from its words.
pub fn offset_of(h: &str, v: &str) -> Result<Point, Code>
    ensures value { Answers (not (is_signed 2048 2048 h.now) || (not (is_signed 2048 2048 v.now) || false)) B2
        (λ p. p ≡ record { h = int_of h.now; v = int_of v.now }) result }
    ensures range { IfOk result (IsOffset farthest) }
{
    let h = offset(h)?;
    let v = offset(v)?;
    Ok(Point { h, v })
}

/// The lengths of a window, from their words.
pub fn size_of(wide: &str, high: &str) -> Result<Size, Code>
    ensures value { Answers (not (is_number 0 4096 wide.now) || (not (is_number 0 4096 high.now) || false)) B2
        (λ s. s ≡ record { wide = nat_of wide.now; high = nat_of high.now }) result }
    ensures range { IfOk result IsSize }
{
    let wide = extent(wide)?;
    let high = extent(high)?;
    Ok(Size { wide, high })
}

fn read_split(
    reader: &Reader,
    new: &str,
    kind: &str,
    values: &[&str],
) -> Result<Meaning, LineRefused>
    ensures { Reads reader.now (Split ∷ [])
        (codes "node" ∷ new.now ∷ kind.now ∷ texts values.now) result }
{
    let [tint] = values else {
        return Err(NO_FORM);
    };
    let Some(kind) = split_of(kind) else {
        return Err(NO_FORM);
    };
    let (tint, ()) = tint_with(reader, new, tint, Ok(()))?;
    Ok(node(kind, tint))
}

fn read_page(reader: &Reader, new: &str, values: &[&str]) -> Result<Meaning, LineRefused>
    ensures { Reads reader.now (Page ∷ [])
        (codes "node" ∷ new.now ∷ codes "page" ∷ texts values.now) result }
{
    let [tint, per] = values else {
        return Err(NO_FORM);
    };
    let (tint, per) = tint_with(reader, new, tint, small(per, 1, 16))?;
    Ok(node(NodeKind::Page { per, page: 0 }, tint))
}

fn read_border(reader: &Reader, new: &str, values: &[&str]) -> Result<Meaning, LineRefused>
    ensures { Reads reader.now (Border ∷ [])
        (codes "node" ∷ new.now ∷ codes "border" ∷ texts values.now) result }
{
    let [tint, width] = values else {
        return Err(NO_FORM);
    };
    let (tint, width) = tint_with(reader, new, tint, byte(width))?;
    Ok(node(NodeKind::Border { width }, tint))
}

fn read_rigid(reader: &Reader, new: &str, values: &[&str]) -> Result<Meaning, LineRefused>
    ensures { Reads reader.now (Rigid ∷ [])
        (codes "node" ∷ new.now ∷ codes "rigid" ∷ texts values.now) result }
{
    let [tint, wide, high] = values else {
        return Err(NO_FORM);
    };
    let (tint, size) = tint_with(reader, new, tint, size_of(wide, high))?;
    Ok(node(NodeKind::Rigid { size }, tint))
}

fn read_translate(reader: &Reader, new: &str, values: &[&str]) -> Result<Meaning, LineRefused>
    ensures { Reads reader.now (Translate ∷ [])
        (codes "node" ∷ new.now ∷ codes "translate" ∷ texts values.now) result }
{
    let [tint, h, v] = values else {
        return Err(NO_FORM);
    };
    let (tint, by) = tint_with(reader, new, tint, offset_of(h, v))?;
    Ok(node(NodeKind::Translate { by }, tint))
}

fn read_pack(reader: &Reader, new: &str, values: &[&str]) -> Result<Meaning, LineRefused>
    ensures { Reads reader.now (Pack ∷ [])
        (codes "node" ∷ new.now ∷ codes "pack" ∷ texts values.now) result }
{
    let [tint, way, gap] = values else {
        return Err(NO_FORM);
    };
    let Some(down) = is_down(way) else {
        return Err(NO_FORM);
    };
    if !reader.is_second() {
        return Err(NO_FORM);
    }
    let (tint, gap) = tint_with(reader, new, tint, small(gap, 0, 64))?;
    Ok(node(NodeKind::Pack { down, gap }, tint))
}

/// A child, its parent and its offset, from their words.
pub fn hanging_of(
    reader: &Reader,
    child: &str,
    parent: &str,
    at: Result<Point, Code>,
) -> Result<(NodeId, NodeId, Point), Code>
    requires { IfErr at (λ e. e ≡ B2) }
    ensures { ReadsHanging reader.now child.now parent.now at result }
{
    let at = at?;
    let child = node_of(reader, child)?;
    let parent = node_of(reader, parent)?;
    Ok((child, parent, at))
}

pub fn read_put(reader: &Reader, words: &[&str]) -> Result<Meaning, LineRefused>
    ensures { Reads reader.now (Put ∷ PutAt ∷ []) (codes "put" ∷ texts words.now) result }
{
    if let [child, parent] = words {
        return read_put_plain(reader, child, parent);
    }
    read_put_at(reader, words)
}

fn read_put_plain(reader: &Reader, child: &str, parent: &str) -> Result<Meaning, LineRefused>
    ensures { Reads reader.now (Put ∷ []) (codes "put" ∷ child.now ∷ parent.now ∷ []) result }
{
    reader.in_opening()?;
    let child = node_of(reader, child)?;
    let parent = node_of(reader, parent)?;
    let at = ORIGIN;
    Ok(Meaning::Item(Item::Put { child, parent, at }))
}

fn read_put_at(reader: &Reader, words: &[&str]) -> Result<Meaning, LineRefused>
    ensures { Reads reader.now (PutAt ∷ []) (codes "put" ∷ texts words.now) result }
{
    let [child, parent, h, v] = words else {
        return Err(NO_FORM);
    };
    reader.in_opening()?;
    let (child, parent, at) = hanging_of(reader, child, parent, offset_of(h, v))?;
    Ok(Meaning::Item(Item::Put { child, parent, at }))
}

pub fn read_root(reader: &Reader, words: &[&str]) -> Result<Meaning, LineRefused>
    ensures { Reads reader.now (Root ∷ []) (codes "root" ∷ texts words.now) result }
{
    let [node] = words else {
        return Err(NO_FORM);
    };
    reader.in_opening()?;
    let node = node_of(reader, node)?;
    Ok(Meaning::Item(Item::Root { node }))
}

pub fn read_begin(reader: &Reader, words: &[&str]) -> Result<Meaning, LineRefused>
    ensures { Reads reader.now (Begin ∷ []) (codes "begin" ∷ texts words.now) result }
{
    let [] = words else {
        return Err(NO_FORM);
    };
    reader.in_opening()?;
    Ok(Meaning::Begin)
}
