ghost use Rattle.std.specs.Prelude.{◌≡◌, ◌<◌, ℕ, List, length, slice_get, Some};

use tr_base::{LeafId, NodeId};

/// The names of all nodes and of all leaves, as bytes.
pub trait NameOf {
    /// The names of the nodes, by their numbers.
    ghost node_names: { Self → List (List ℕ) };

    /// The names of the leaves, by their numbers.
    ghost leaf_names: { Self → List (List ℕ) };

    /// The name of a node.
    fn node(&self, node: NodeId) -> &[u8]
        requires { node.0 < length (node_names self.now) }
        ensures { slice_get (node_names self.now) node.0 ≡ Some result.now };

    /// The name of a leaf.
    fn leaf(&self, leaf: LeafId) -> &[u8]
        requires { leaf.0 < length (leaf_names self.now) }
        ensures { slice_get (leaf_names self.now) leaf.0 ≡ Some result.now };
}
