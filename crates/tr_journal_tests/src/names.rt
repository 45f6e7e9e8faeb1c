//! Names through the bound.
ghost use Rattle.std.specs.Prelude.{◌<◌, length};

use tr_base::{LeafId, NodeId};
use tr_journal::NameOf;

/// The names of two nodes, of which the second is a leaf.
pub struct TwoNames;

impl NameOf for TwoNames {
    ghost use Rattle.std.specs.Prelude.{◌∷◌, []};

    ghost node_names = { λ _. (114 ∷ []) ∷ (97 ∷ []) ∷ [] };

    ghost leaf_names = { λ _. (97 ∷ []) ∷ [] };

    fn node(&self, node: NodeId) -> &[u8] {
        if node.0 == 0 { b"r" } else { b"a" }
    }

    fn leaf(&self, _leaf: LeafId) -> &[u8] {
        b"a"
    }
}

/// The name of a node through the bound.
fn name_of_node<N: NameOf>(names: &N, node: u16) -> &[u8]
    requires { node < length (N.node_names names.now) }
{
    names.node(NodeId(node))
}

/// The name of a leaf through the bound.
fn name_of_leaf<N: NameOf>(names: &N, leaf: u8) -> &[u8]
    requires { leaf < length (N.leaf_names names.now) }
{
    names.leaf(LeafId(leaf))
}

#[test]
fn nodes_and_leaves_have_names(rt: HostRuntime) {
    let root = name_of_node(&TwoNames, 0) == b"r".as_slice();
    let leaf = name_of_node(&TwoNames, 1) == name_of_leaf(&TwoNames, 0);
    assert!(rt; root && leaf);
}
