//! The readers of the steps of leaves' actors, without the commands of their widgets. Each tests for its
//! faults in the order of their codes.
ghost use Rattle.std.specs.Prelude.{◌≡◌, [], ◌∷◌, true, false, ◌||◌, codes, is_none, not, Some, IfErr, IfOk};
ghost use Rattle.std.specs.List.{AllPass};
ghost use Rattle.tr_base.specs.Lines.{is_printable};
ghost use Rattle.tr_journal.specs.Steps.{IsClip, IsLeaf};
ghost use Rattle.tr_grammar.specs.declared.Code.TheVariants.{B2};
ghost use Rattle.tr_grammar.specs.Words.{words_of, is_one_of};
ghost use Rattle.tr_grammar.specs.Forms.{act_forms, selection_words, cage_words};
ghost use Rattle.tr_grammar.specs.Forms.{Mark, Flush, Force, Take, Enclose, Free, Own, Disown, Read};
ghost use Rattle.tr_grammar.specs.Names.{number_of, numbered};
ghost use Rattle.tr_grammar.specs.Faults.{allows, nodes_so_far, step_line};
ghost use Rattle.tr_grammar.specs.Meanings.{selection_of, may_be_here, may_be_gone};
ghost use Rattle.tr_words.specs.Answers.{Answers, Chooses, texts};
ghost use Rattle.tr_script.specs.Reading.{BeginsPlain, Reads, ReadsAs, ReadsLeaf, act_line, any_edge, spelled_edges, edge_words_then};

use crate::names::leaf_of;
use crate::refusals::NO_FORM;
use crate::widget_lines::read_command;
use tr_base::{LeafId, Rect, Selection};
use tr_cage::Cage;
use tr_grammar::{Code, LineRefused, Meaning};
use tr_journal::{Actor, Step};
use tr_reader::Reader;
use tr_widget::WidgetCmd;
use tr_words::{edge, time};

/// A step of a leaf's actor.
pub fn by_leaf(leaf: LeafId, step: Step<WidgetCmd>) -> Meaning
    ensures { result ≡ Meaning.Step (Actor.Leaf leaf) step }
{
    Meaning::Step {
        actor: Actor::Leaf(leaf),
        step,
    }
}

/// A selection by its word.
fn selection_of(word: &str) -> Option<Selection>
    ensures { Chooses selection_words word.now (selection_of word.now) result }
{
    match word {
        "key" => Some(Selection::Key),
        "source" => Some(Selection::Source),
        "target" => Some(Selection::Target),
        _ => None,
    }
}

/// Whether the word names the cursors that a cage holds.
fn is_cage_word(word: &str) -> bool
    ensures { result ≡ is_one_of cage_words word.now }
{
    matches!(word, "here" | "gone" | "both")
}

/// Whether a cage of this word holds a cursor that is here, and whether it holds one that is gone.
fn holders_of(word: &str) -> (bool, bool)
    ensures both { result ≡ (may_be_here word.now, may_be_gone word.now) }
    ensures some { (result.0 || result.1) ≡ true }
{
    match word {
        "here" => (true, false),
        "gone" => (false, true),
        _ => (true, true),
    }
}

/// The words of a rectangle's edges.
#[derive(Clone, Copy)]
pub struct EdgeWords<'a> {
    pub west: &'a str,
    pub east: &'a str,
    pub north: &'a str,
    pub south: &'a str,
}

/// The rectangle with these edges.
fn clip_of(words: &EdgeWords) -> Result<Rect, Code>
    ensures value { Answers (any_edge words.now false) B2 (λ e. e ≡ spelled_edges words.now) result }
    ensures range { IfOk result IsClip }
{
    let west = edge(words.west)?;
    let east = edge(words.east)?;
    let north = edge(words.north)?;
    let south = edge(words.south)?;
    Ok(Rect::edges(west, east, north, south))
}

/// The words of a line of a leaf's actor: the leaf's name without its @, the act, and its values.
#[derive(Drop)]
pub struct ActLine<'a> {
    pub leaf: &'a str,
    pub act: &'a str,
    pub values: &'a [&'a str],
}

/// A line of a leaf's actor: the leaf's name without its @, the words after it, and the line itself.
pub fn read_at(
    reader: &Reader,
    leaf: &str,
    words: &[&str],
    line: &str,
) -> Result<Meaning, LineRefused>
    requires line { words_of line.now ≡ (64 ∷ leaf.now) ∷ texts words.now }
    requires printable { AllPass is_printable line.now }
    ensures { Reads reader.now act_forms ((64 ∷ leaf.now) ∷ texts words.now) result }
{
    let [act, values @ ..] = words else {
        return Err(NO_FORM);
    };
    read_act(reader, &ActLine { leaf, act, values }, line)
}

/// The same, given the words of the act.
fn read_act(reader: &Reader, words: &ActLine, line: &str) -> Result<Meaning, LineRefused>
    requires line { words_of line.now ≡ act_line words.now }
    requires printable { AllPass is_printable line.now }
    ensures { Reads reader.now act_forms (act_line words.now) result }
{
    match words.act {
        "mark" => read_mark(reader, words.leaf, words.values),
        "flush" => read_flush(reader, words.leaf, words.values),
        "force" => read_force(reader, words.leaf, words.values),
        "take" => read_take(reader, words.leaf, words.values),
        "cage" => read_cage(reader, words.leaf, words.values),
        "free" => read_free(reader, words.leaf, words.values),
        "own" => read_own(reader, words.leaf, words.values),
        "disown" => read_disown(reader, words.leaf, words.values),
        "read" => read_read(reader, words.leaf, words.values),
        _ => read_command(reader, words, line),
    }
}

/// The leaf that a step's line names. The line has no values and may come there.
pub fn leaf_in_steps(reader: &Reader, leaf: &str) -> Result<LeafId, Code>
    ensures value { BeginsPlain (not (allows reader.now.place step_line))
        (is_none (number_of reader.now.names.leaves leaf.now))
        (λ l. l ≡ record { 0 = numbered reader.now.names.leaves leaf.now }) result }
    ensures within { IfOk result (λ l. IsLeaf (nodes_so_far reader.now) l) }
{
    reader.in_steps()?;
    let leaf = leaf_of(reader, leaf)?;
    Ok(leaf)
}

/// The leaf that a step's line names, and the value of its words, if the line may come there.
pub fn leaf_with<V: Copy>(
    reader: &Reader,
    leaf: &str,
    value: Result<V, Code>,
) -> Result<(LeafId, V), Code>
    requires { IfErr value (λ e. e ≡ B2) }
    ensures { ReadsLeaf reader.now leaf.now value result }
{
    reader.in_steps()?;
    let value = value?;
    let leaf = leaf_of(reader, leaf)?;
    Ok((leaf, value))
}

fn read_mark(reader: &Reader, leaf: &str, values: &[&str]) -> Result<Meaning, LineRefused>
    ensures { Reads reader.now (Mark ∷ [])
        ((64 ∷ leaf.now) ∷ codes "mark" ∷ texts values.now) result }
{
    let [west, east, north, south] = values else {
        return Err(NO_FORM);
    };
    let edges = EdgeWords {
        west,
        east,
        north,
        south,
    };
    mark(reader, leaf, &edges)
}

/// The values of a mark's line.
fn mark(reader: &Reader, leaf: &str, edges: &EdgeWords) -> Result<Meaning, LineRefused>
    ensures { ReadsAs reader.now (Some Mark)
        ((64 ∷ leaf.now) ∷ codes "mark" ∷ edge_words_then edges.now []) result }
{
    let (leaf, clip) = leaf_with(reader, leaf, clip_of(edges))?;
    Ok(by_leaf(leaf, Step::Mark { leaf, clip }))
}

fn read_flush(reader: &Reader, leaf: &str, values: &[&str]) -> Result<Meaning, LineRefused>
    ensures { Reads reader.now (Flush ∷ [])
        ((64 ∷ leaf.now) ∷ codes "flush" ∷ texts values.now) result }
{
    let [] = values else {
        return Err(NO_FORM);
    };
    let leaf = leaf_in_steps(reader, leaf)?;
    Ok(by_leaf(leaf, Step::Flush { leaf }))
}

fn read_force(reader: &Reader, leaf: &str, values: &[&str]) -> Result<Meaning, LineRefused>
    ensures { Reads reader.now (Force ∷ [])
        ((64 ∷ leaf.now) ∷ codes "force" ∷ texts values.now) result }
{
    let [] = values else {
        return Err(NO_FORM);
    };
    let leaf = leaf_in_steps(reader, leaf)?;
    Ok(by_leaf(leaf, Step::Repaint { leaf }))
}

fn read_take(reader: &Reader, leaf: &str, values: &[&str]) -> Result<Meaning, LineRefused>
    ensures { Reads reader.now (Take ∷ [])
        ((64 ∷ leaf.now) ∷ codes "take" ∷ texts values.now) result }
{
    let [] = values else {
        return Err(NO_FORM);
    };
    let leaf = leaf_in_steps(reader, leaf)?;
    Ok(by_leaf(leaf, Step::Take { leaf }))
}

fn read_cage(reader: &Reader, leaf: &str, values: &[&str]) -> Result<Meaning, LineRefused>
    ensures { Reads reader.now (Enclose ∷ [])
        ((64 ∷ leaf.now) ∷ codes "cage" ∷ texts values.now) result }
{
    let [west, east, north, south, holders] = values else {
        return Err(NO_FORM);
    };
    if !is_cage_word(holders) {
        return Err(NO_FORM);
    }
    let edges = EdgeWords {
        west,
        east,
        north,
        south,
    };
    enclose(reader, leaf, &edges, holders)
}

/// The values of a cage's line. Its last word is one of those that a cage may have.
fn enclose(
    reader: &Reader,
    leaf: &str,
    edges: &EdgeWords,
    holders: &str,
) -> Result<Meaning, LineRefused>
    ensures { ReadsAs reader.now (Some Enclose)
        ((64 ∷ leaf.now) ∷ codes "cage" ∷ edge_words_then edges.now (holders.now ∷ [])) result }
{
    let (leaf, rect) = leaf_with(reader, leaf, clip_of(edges))?;
    let (here, gone) = holders_of(holders);
    let cage = Cage::Only { rect, here, gone };
    Ok(by_leaf(leaf, Step::SetCage { leaf, cage }))
}

fn read_free(reader: &Reader, leaf: &str, values: &[&str]) -> Result<Meaning, LineRefused>
    ensures { Reads reader.now (Free ∷ [])
        ((64 ∷ leaf.now) ∷ codes "free" ∷ texts values.now) result }
{
    let [] = values else {
        return Err(NO_FORM);
    };
    let leaf = leaf_in_steps(reader, leaf)?;
    let cage = Cage::Everywhere;
    Ok(by_leaf(leaf, Step::SetCage { leaf, cage }))
}

fn read_own(reader: &Reader, leaf: &str, values: &[&str]) -> Result<Meaning, LineRefused>
    ensures { Reads reader.now (Own ∷ [])
        ((64 ∷ leaf.now) ∷ codes "own" ∷ texts values.now) result }
{
    let [selection, at] = values else {
        return Err(NO_FORM);
    };
    let Some(selection) = selection_of(selection) else {
        return Err(NO_FORM);
    };
    let (leaf, time) = leaf_with(reader, leaf, time(at))?;
    Ok(by_leaf(
        leaf,
        Step::Own {
            leaf,
            selection,
            time,
        },
    ))
}

fn read_disown(reader: &Reader, leaf: &str, values: &[&str]) -> Result<Meaning, LineRefused>
    ensures { Reads reader.now (Disown ∷ [])
        ((64 ∷ leaf.now) ∷ codes "disown" ∷ texts values.now) result }
{
    let [selection] = values else {
        return Err(NO_FORM);
    };
    let Some(selection) = selection_of(selection) else {
        return Err(NO_FORM);
    };
    let leaf = leaf_in_steps(reader, leaf)?;
    Ok(by_leaf(leaf, Step::Disown { leaf, selection }))
}

fn read_read(reader: &Reader, leaf: &str, values: &[&str]) -> Result<Meaning, LineRefused>
    ensures { Reads reader.now (Read ∷ [])
        ((64 ∷ leaf.now) ∷ codes "read" ∷ texts values.now) result }
{
    let [selection] = values else {
        return Err(NO_FORM);
    };
    let Some(selection) = selection_of(selection) else {
        return Err(NO_FORM);
    };
    let leaf = leaf_in_steps(reader, leaf)?;
    Ok(by_leaf(leaf, Step::Read { leaf, selection }))
}
