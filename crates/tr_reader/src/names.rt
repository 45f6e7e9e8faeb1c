ghost use Rattle.std.specs.Prelude.{◌≡◌, ◌≤◌, ◌<◌, ℕ, List, [], ◌∷◌, ◌++◌, true, None, Some, IfOk, OnOk, OnErr, IfSome, length, map};
ghost use Rattle.tr_grammar.specs.Names.{number_of};
ghost use Rattle.tr_words.specs.Answers.{texts};

use std::alloc::Global;
use std::collections::BTreeMap;
use std::marker::Model;
use tr_base::{LeafId, NoMemory, NodeId};
use tr_journal::NameOf;

/// The names of a script's nodes, leaves included, and those of its leaves, each by their numbers.
#[derive(Debug, Drop)]
pub struct Names {
    nodes: Vec<Vec<u8>>,
    leaves: Vec<Vec<u8>>,
}

impl Model for Names {
    ghost use Rattle.std.specs.Prelude.{map};
    ghost use Rattle.tr_journal.specs.Names.{Names as Seen};

    ghost Value = { Seen };

    ghost view = { λ n. record {
      nodes = map (λ v. v.items) n.nodes.items;
      leaves = map (λ v. v.items) n.leaves.items;
    } };
}

impl NameOf for Names {
    ghost node_names = { λ n. n.nodes };

    ghost leaf_names = { λ n. n.leaves };

    fn node(&self, node: NodeId) -> &[u8] {
        &self.nodes[usize::from(node.0)]
    }

    fn leaf(&self, leaf: LeafId) -> &[u8] {
        &self.leaves[usize::from(leaf.0)]
    }
}

impl Names {
    /// Copies of the names in two tables.
    pub(crate) fn of(
        alloc: Global,
        nodes: &NameTable,
        leaves: &NameTable,
    ) -> Result<Names, NoMemory>
        ensures { IfOk result (λ n. n ≡ record { nodes = nodes.now; leaves = leaves.now }) }
    {
        Ok(Names {
            nodes: nodes.copies(alloc)?,
            leaves: leaves.copies(alloc)?,
        })
    }
}

/// The most names that a table has.
const MOST_NAMES: usize = 256;

/// The number of hints of a table.
const HINTS: usize = 256;

/// The place of a name's hint.
#[inline(always)]
fn hint_of(name: &str) -> usize
    ensures { result < HINTS }
{
    let mut hint: u8 = 0;
    for byte in name.as_bytes() {
        hint = hint.wrapping_mul(31).wrapping_add(*byte);
    }
    usize::from(hint)
}

/// Names in the order of their declaration, which numbers them from 0.
#[derive(Drop)]
pub struct NameTable<'a> {
    names: Vec<&'a str>,
    numbers: BTreeMap<&'a str, u16>,
    /// At each place the number of the last name with this hint. It is only a guess.
    hints: [u8; HINTS],
}

impl<'a> Model for NameTable<'a> {
    ghost use Rattle.std.specs.Prelude.{◌≡◌, ◌≤◌, ℕ, List, Some, slice_get, vec_len};
    ghost use Rattle.std.specs.BTreeMap.{get_by};
    ghost use Rattle.std.specs.Cmp.Lexicographic.{slice_cmp};
    ghost use Rattle.std.specs.Ordering.{nat_cmp};
    ghost use Rattle.tr_grammar.specs.Names.{number_of};
    ghost use Rattle.tr_words.specs.Answers.{texts};

    ghost Value = { List (List ℕ) };

    ghost view = { λ t. texts t.names.items };

    ghost invariant = { λ t. (vec_len t.names ≤ 256)
        × ((q : List ℕ) →
        get_by (λ k. slice_cmp nat_cmp q k.now) t.numbers ≡ number_of (texts t.names.items) q)
        × ((k : ℕ) (name : List ℕ) →
        slice_get (texts t.names.items) k ≡ Some name → number_of (texts t.names.items) name ≡ Some k) };
}

impl<'a> NameTable<'a> {
    /// No names.
    pub fn new(alloc: Global) -> Self
        ensures { result ≡ [] }
    {
        NameTable {
            names: Vec::new(alloc),
            numbers: BTreeMap::new(alloc),
            hints: [0; HINTS],
        }
    }

    /// The number of names.
    pub fn len(&self) -> usize
        ensures count { result ≡ length self.now }
        ensures most { result ≤ MOST_NAMES }
    {
        self.names.len()
    }

    /// Whether the name with this number is `name`.
    #[inline(always)]
    fn is_named(&self, number: usize, name: &str) -> bool
        ensures { result ≡ true → number_of self.now name.now ≡ Some number }
    {
        match self.names.get(number) {
            Some(found) => *found == name,
            None => false,
        }
    }

    /// The number of a name.
    pub fn number_of(&self, name: &str) -> Option<u16>
        ensures result { result ≡ number_of self.now name.now }
        ensures most { IfSome result (λ number. number < MOST_NAMES) }
    {
        // In the map alone, a name among 16 took 200 instructions.
        let hinted = self.hints[hint_of(name)];
        if self.is_named(usize::from(hinted), name) {
            return Some(u16::from(hinted));
        }
        self.numbers.get(name).copied()
    }

    /// Adds a name, which gets the next number.
    pub fn declare(&mut self, name: &'a str) -> Result<(), NoMemory>
        requires new { number_of self.old name.now ≡ None }
        requires room { length self.old < MOST_NAMES }
        ensures ok { OnOk result (self.new ≡ self.old ++ name.now ∷ []) }
        ensures err { OnErr result (self.new ≡ self.old) }
    {
        let number = self.len() as u16;
        self.names.reserve(1)?;
        self.numbers.insert(name, number)?;
        self.names.push_reserved(name);
        self.hints[hint_of(name)] = number as u8;
        Ok(())
    }

    /// Removes the name that was declared last.
    pub fn withdraw(&mut self, name: &str)
        requires last { (before : List (List ℕ)) ×
            (self.old ≡ before ++ name.now ∷ []) × (number_of before name.now ≡ None) }
        ensures { self.old ≡ self.new ++ name.now ∷ [] }
    {
        self.names.pop();
        self.numbers.remove(name);
    }

    /// Copies of the names.
    fn copies(&self, alloc: Global) -> Result<Vec<Vec<u8>>, NoMemory>
        ensures { IfOk result (λ copies. map (λ v. v.items) copies.items ≡ self.now) }
    {
        let mut copies = Vec::with_capacity(alloc, self.names.len())?;
        for name in &self.names {
            copies.push(Vec::from_slice(alloc, name.as_bytes())?)?;
        }
        Ok(copies)
    }
}
