ghost use Rattle.std.specs.Prelude.{◌≡◌, ◌<◌, IfSome, length};
ghost use Rattle.tr_grammar.specs.Names.{number_of};
ghost use Rattle.tr_grammar.specs.States.{nothing_yet};

use crate::names::NameTable;
use crate::parts::{Part, Steps};
use std::alloc::Global;
use std::marker::Model;
use tr_grammar::Place;
use tr_journal::{Opening, Query};
use tr_widget::{Widget, WidgetCmd};

/// The opening so far, and the names of its nodes and leaves.
#[derive(Drop)]
pub(crate) struct Declared<'a> {
    pub(crate) opening: Opening<Widget>,
    pub(crate) nodes: NameTable<'a>,
    pub(crate) leaves: NameTable<'a>,
}

/// The meaning of the lines of a script so far.
#[derive(Drop)]
pub struct Reader<'a> {
    pub(crate) alloc: Global,
    pub(crate) version: u8,
    pub(crate) place: Place,
    pub(crate) declared: Option<Declared<'a>>,
    pub(crate) glyphs: Vec<u8>,
    pub(crate) ended: Vec<Part>,
    pub(crate) reports: Vec<Query>,
    pub(crate) steps: Steps<WidgetCmd>,
    pub(crate) report_count: usize,
}

impl<'a> Model for Reader<'a> {
    ghost use Rattle.tr_grammar.specs.States.{SoFar};

    ghost Value = { SoFar };

    ghost use Rattle.tr_reader.specs.Insides.{so_far, HoldsTogether};

    ghost view = { so_far };

    ghost invariant = { HoldsTogether };
}

impl<'a> Reader<'a> {
    /// The reader before the first line.
    pub fn new(alloc: Global) -> Reader<'a>
        ensures { result ≡ nothing_yet }
    {
        Reader {
            alloc,
            version: 0,
            place: Place::Start,
            declared: None,
            glyphs: Vec::new(alloc),
            ended: Vec::new(alloc),
            reports: Vec::new(alloc),
            steps: Steps::new(alloc),
            report_count: 0,
        }
    }

    /// The number of nodes.
    pub(crate) fn node_count(&self) -> usize
        ensures { result ≡ length self.now.names.nodes }
    {
        match &self.declared {
            Some(declared) => declared.nodes.len(),
            None => 0,
        }
    }

    /// The number of leaves.
    pub(crate) fn leaf_count(&self) -> usize
        ensures { result ≡ length self.now.names.leaves }
    {
        match &self.declared {
            Some(declared) => declared.leaves.len(),
            None => 0,
        }
    }

    /// The number of a node, which may be a leaf.
    pub(crate) fn node_number(&self, name: &str) -> Option<u16>
        ensures { result ≡ number_of self.now.names.nodes name.now }
    {
        match &self.declared {
            Some(declared) => declared.nodes.number_of(name),
            None => None,
        }
    }

    /// The number of a leaf.
    pub(crate) fn leaf_number(&self, name: &str) -> Option<u16>
        ensures result { result ≡ number_of self.now.names.leaves name.now }
        ensures most { IfSome result (λ number. number < 256) }
    {
        match &self.declared {
            Some(declared) => declared.leaves.number_of(name),
            None => None,
        }
    }
}
