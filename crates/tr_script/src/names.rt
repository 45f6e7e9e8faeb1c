//! The nodes and leaves that words name.
ghost use Rattle.std.specs.Prelude.{◌≡◌, is_none, IfOk};
ghost use Rattle.tr_forest.specs.Nodes.{IsNode};
ghost use Rattle.tr_journal.specs.Steps.{IsLeaf};
ghost use Rattle.tr_grammar.specs.declared.Code.TheVariants.{B3};
ghost use Rattle.tr_grammar.specs.Names.{number_of, numbered};
ghost use Rattle.tr_grammar.specs.Faults.{nodes_so_far};
ghost use Rattle.tr_words.specs.Answers.{Answers};
ghost use Rattle.tr_reader.specs.Laws.{IsSoFar};

use tr_base::{LeafId, NodeId};
use tr_grammar::{Code, Meaning};
use tr_reader::Reader;

/// Tells the prover the laws of every script so far. It does nothing.
fn known(reader: &Reader)
    ensures { IsSoFar reader.now }
{
    let _few = reader.is_one_too_many(&Meaning::End);
}

/// The node that a word names. It is one of the opening's.
pub fn node_of(reader: &Reader, name: &str) -> Result<NodeId, Code>
    ensures value { Answers (is_none (number_of reader.now.names.nodes name.now)) B3
        (λ n. n ≡ record { 0 = numbered reader.now.names.nodes name.now }) result }
    ensures within { IfOk result (λ n. IsNode (nodes_so_far reader.now) n) }
{
    known(reader);
    reader.node(name)
}

/// The leaf that a word names. It is one of the opening's.
pub fn leaf_of(reader: &Reader, name: &str) -> Result<LeafId, Code>
    ensures value { Answers (is_none (number_of reader.now.names.leaves name.now)) B3
        (λ l. l ≡ record { 0 = numbered reader.now.names.leaves name.now }) result }
    ensures within { IfOk result (λ l. IsLeaf (nodes_so_far reader.now) l) }
{
    known(reader);
    reader.leaf(name)
}
