use tr_base::{LeafId, NodeId};
use tr_journal::NameOf;

/// The names of the nodes, and of the windows among them, in texts.
pub struct Names;

impl NameOf for Names {
    ghost use Rattle.std.specs.Prelude.{◌∷◌, [], codes};

    ghost node_names = { λ _. codes "border" ∷ codes "row" ∷ codes "west" ∷ codes "east" ∷ [] };

    ghost leaf_names = { λ _. codes "west" ∷ codes "east" ∷ [] };

    fn node(&self, node: NodeId) -> &[u8] {
        match node.0 {
            0 => b"border",
            1 => b"row",
            2 => b"west",
            _ => b"east",
        }
    }

    fn leaf(&self, leaf: LeafId) -> &[u8] {
        if leaf.0 == 0 { b"west" } else { b"east" }
    }
}
