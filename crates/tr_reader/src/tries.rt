//! The tests of a line against the lines before it.
ghost use Rattle.std.specs.Prelude.{◌≡◌, ◌==◌, not, ⊤, is_some, is_none, slice_get};
ghost use Rattle.std.specs.List.{list_any};
ghost use Rattle.std.specs.Option.{option_map};
ghost use Rattle.tr_journal.specs.Openings.{contents_of};
ghost use Rattle.tr_grammar.specs.declared.Code.TheVariants.{B1, B3, B4, B5};
ghost use Rattle.tr_grammar.specs.Words.{is_one_of};
ghost use Rattle.tr_grammar.specs.Names.{number_of, numbered};
ghost use Rattle.tr_grammar.specs.Forms.{is_second, pixel_words};
ghost use Rattle.tr_grammar.specs.Meanings.{kind_by_name};
ghost use Rattle.tr_grammar.specs.Faults.{version_line, screen_line, opening_line, step_line, report_line, allows, has_ended, suits, suits_leaf, is_foreign, is_one_too_many};
ghost use Rattle.tr_words.specs.Answers.{Answers};
ghost use Rattle.tr_reader.specs.Laws.{IsSoFar};
ghost use Rattle.tr_reader.specs.Adding.{is_at_steps};

use crate::readers::Reader;
use std::alloc::Global;
use tr_base::{Kind, LeafId, NodeId};
use tr_client::Client;
use tr_grammar::{Code, Meaning, Place};
use tr_journal::{Item, Opening, Step};
use tr_widget::{Widget, WidgetCmd};

/// The most nodes that a script may have, leaves included.
const MOST_NODES: usize = 256;

/// The most leaves that it may have.
const MOST_LEAVES: usize = 32;

/// The most reports that it may have.
const MOST_REPORTS: usize = 64;

/// The most syncs that it may have.
const MOST_SYNCS: usize = 1000;

/// Whether a command is one of a widget.
fn suits(cmd: &WidgetCmd, content: &Widget) -> bool
    ensures { result ≡ suits cmd.now content.now }
{
    match (cmd, content) {
        (WidgetCmd::Solid(_), Widget::Solid(_)) => true,
        (WidgetCmd::Board(_), Widget::Board(_)) => true,
        (WidgetCmd::Label(_), Widget::Label(_)) => true,
        (WidgetCmd::Lines(_), Widget::Lines(_)) => true,
        (WidgetCmd::Canvas(_), Widget::Canvas(_)) => true,
        (WidgetCmd::Meter(_), Widget::Meter(_)) => true,
        (WidgetCmd::Editor(_), Widget::Editor(_)) => true,
        _ => false,
    }
}

/// The content of a leaf, if there is this leaf.
fn content_of<C: Client>(opening: &Opening<C>, leaf: LeafId) -> Option<&C>
    ensures { option_map (λ x. x.now) result ≡ slice_get (contents_of opening.now) leaf.0 }
{
    if leaf.0 < opening.tree().leaves() {
        Some(opening.content(leaf))
    } else {
        None
    }
}

impl<'a> Reader<'a> {
    /// The allocator of the reader's data.
    pub fn alloc(&self) -> Global {
        self.alloc
    }

    /// Whether the version is 2.
    pub fn is_second(&self) -> bool
        ensures { result ≡ is_second self.now.version }
    {
        self.version == 2
    }

    /// Whether the end was read.
    pub fn has_ended(&self) -> bool
        ensures { result ≡ has_ended self.now.place }
    {
        matches!(self.place, Place::Ended)
    }

    /// Whether the last line that isn't silent makes a step.
    pub fn is_at_steps(&self) -> bool
        ensures { result ≡ is_at_steps self.now.place }
    {
        matches!(self.place, Place::Steps)
    }

    /// A version line comes first.
    pub fn in_start(&self) -> Result<(), Code>
        ensures { Answers (not (allows self.now.place version_line)) B5 (λ _. ⊤) result }
    {
        match self.place {
            Place::Start => Ok(()),
            _ => Err(Code::B5),
        }
    }

    /// A screen line comes directly after the version line.
    pub fn in_head(&self) -> Result<(), Code>
        ensures { Answers (not (allows self.now.place screen_line)) B5 (λ _. ⊤) result }
    {
        match self.place {
            Place::Head => Ok(()),
            _ => Err(Code::B5),
        }
    }

    /// A line of the opening comes after the screen line and not after `begin`, the last such line.
    pub fn in_opening(&self) -> Result<(), Code>
        ensures { Answers (not (allows self.now.place opening_line)) B5 (λ _. ⊤) result }
    {
        match self.place {
            Place::Opening => Ok(()),
            _ => Err(Code::B5),
        }
    }

    /// A step or a sync comes after `begin`.
    #[inline(always)]
    pub fn in_steps(&self) -> Result<(), Code>
        ensures { Answers (not (allows self.now.place step_line)) B5 (λ _. ⊤) result }
    {
        match self.place {
            Place::Gap | Place::Steps => Ok(()),
            _ => Err(Code::B5),
        }
    }

    /// A report or the end comes directly after `begin`, a sync or a report.
    pub fn in_gap(&self) -> Result<(), Code>
        ensures { Answers (not (allows self.now.place report_line)) B5 (λ _. ⊤) result }
    {
        match self.place {
            Place::Gap => Ok(()),
            _ => Err(Code::B5),
        }
    }

    /// A kind of pixels that the version has.
    pub fn kind(&self, word: &str) -> Result<Kind, Code>
        ensures { Answers (not (is_one_of (pixel_words self.now.version) word.now)) B1
            (λ k. k ≡ kind_by_name word.now) result }
    {
        match word {
            "mono" => Ok(Kind::Mono),
            "map4" if self.is_second() => Ok(Kind::Map4),
            "map8" => Ok(Kind::Map8),
            _ => Err(Code::B1),
        }
    }

    /// A name that no line has declared.
    pub fn is_new(&self, name: &str) -> Result<(), Code>
        ensures { Answers (is_some (number_of self.now.names.nodes name.now)) B4 (λ _. ⊤) result }
    {
        match self.node_number(name) {
            Some(_) => Err(Code::B4),
            None => Ok(()),
        }
    }

    /// A byte whose glyph no line has set.
    pub fn is_new_glyph(&self, byte: u8) -> Result<(), Code>
        ensures { Answers (list_any (λ b. b == byte) self.now.glyphs) B4 (λ _. ⊤) result }
    {
        if self.glyphs.contains(&byte) {
            Err(Code::B4)
        } else {
            Ok(())
        }
    }

    /// The node that a word names.
    pub fn node(&self, name: &str) -> Result<NodeId, Code>
        ensures { Answers (is_none (number_of self.now.names.nodes name.now)) B3
            (λ n. n ≡ record { 0 = numbered self.now.names.nodes name.now }) result }
    {
        match self.node_number(name) {
            Some(number) => Ok(NodeId(number)),
            None => Err(Code::B3),
        }
    }

    /// The leaf that a word names.
    pub fn leaf(&self, name: &str) -> Result<LeafId, Code>
        ensures { Answers (is_none (number_of self.now.names.leaves name.now)) B3
            (λ l. l ≡ record { 0 = numbered self.now.names.leaves name.now }) result }
    {
        match self.leaf_number(name) {
            Some(number) => Ok(LeafId(number as u8)),
            None => Err(Code::B3),
        }
    }

    /// Whether a line is a command for another widget than the leaf's.
    #[inline(always)]
    pub fn is_foreign(&self, meaning: &Meaning) -> bool
        ensures { result ≡ is_foreign self.now meaning.now }
    {
        match meaning {
            Meaning::Step {
                step: Step::Act { leaf, cmd },
                ..
            } => !self.is_suited(*leaf, cmd),
            _ => false,
        }
    }

    /// Whether a line is one node, leaf, report or sync too many.
    #[inline(always)]
    pub fn is_one_too_many(&self, meaning: &Meaning) -> bool
        ensures result { result ≡ is_one_too_many self.now meaning.now }
        ensures invariant { IsSoFar self.now }
    {
        match meaning {
            Meaning::Item(Item::Node { .. }) => self.node_count() >= MOST_NODES,
            Meaning::Item(Item::Leaf { .. }) => {
                self.node_count() >= MOST_NODES || self.leaf_count() >= MOST_LEAVES
            }
            Meaning::Report(_) => self.report_count >= MOST_REPORTS,
            Meaning::Sync => self.ended.len() >= MOST_SYNCS,
            _ => false,
        }
    }

    /// Whether a command is one of a leaf's widget.
    fn is_suited(&self, leaf: LeafId, cmd: &WidgetCmd) -> bool
        ensures { result ≡ suits_leaf cmd.now (slice_get (contents_of self.now.items) leaf.0) }
    {
        let Some(declared) = &self.declared else {
            return false;
        };
        match content_of(&declared.opening, leaf) {
            Some(content) => suits(cmd, content),
            None => false,
        }
    }
}
