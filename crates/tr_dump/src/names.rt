ghost use Rattle.std.specs.Prelude.{◌≡◌};
ghost use Rattle.tr_journal.specs.Names.{HasLeaf, HasNode, names_of};
ghost use Rattle.tr_journal.specs.Names as spec;

use tr_base::{LeafId, NodeId};
use tr_journal::NameOf;

/// The name of a node.
pub(crate) fn node_name<N: NameOf>(names: &N, node: NodeId) -> &[u8]
    requires { HasNode (names_of N.NameOf names.now) node }
    ensures { result.now ≡ spec.node_name (names_of N.NameOf names.now) node }
{
    names.node(node)
}

/// The name of a leaf.
pub(crate) fn leaf_name<N: NameOf>(names: &N, leaf: LeafId) -> &[u8]
    requires { HasLeaf (names_of N.NameOf names.now) leaf }
    ensures { result.now ≡ spec.leaf_name (names_of N.NameOf names.now) leaf }
{
    names.leaf(leaf)
}
