ghost use Rattle.std.specs.Prelude.{◌≡◌};
ghost use Rattle.std.specs.List.{find};
ghost use Rattle.tr_base.specs.declared.Point.{Point};
ghost use Rattle.tr_base.specs.declared.NodeId.{NodeId};
ghost use Rattle.tr_base.specs.Rects.{has_point};
ghost use Rattle.tr_forest.specs.Nodes.{node, IsNode};
ghost use Rattle.tr_forest.specs.Forests.{IsForest};
ghost use Rattle.tr_tree.specs.Places.{domain};
ghost use Rattle.tr_spot.specs.Spots.{owner, followed};
ghost use Rattle.tr_spot.specs.Ways.{front};

use tr_base::{NodeId, Point};
use tr_tree::Tree;

/// Sixteen levels are enough, so owners are those of trees of any depth: the owner of a point at a
/// node is its owner at the first child whose domain has it, and else the node. The call does nothing.
pub fn levels_suffice(tree: &Tree)
    ensures { (n : NodeId) (p : Point) → owner tree.now n p ≡
        followed n (λ c. owner tree.now c p)
        (find (λ c. has_point (domain tree.now c) p) (node tree.now.nodes n).children) }
{
    tree.invariant();
}

/// The first child of a node whose domain has the point.
fn child_at(tree: &Tree, n: NodeId, p: Point) -> Option<NodeId>
    requires forest { IsForest tree.now.nodes }
    requires node { IsNode tree.now.nodes n }
    ensures { result ≡ front tree.now p (node tree.now.nodes n).children }
{
    for child in tree.children(n) {
        if tree.domain(*child).has(p) {
            return Some(*child);
        }
    }
    None
}

/// The owner of a point, found by the walk from a node whose domain has the point.
pub(crate) fn owner_of(tree: &Tree, top: NodeId, p: Point) -> NodeId
    requires forest { IsForest tree.now.nodes }
    requires node { IsNode tree.now.nodes top }
    ensures owner { result ≡ owner tree.now top p }
    ensures node { IsNode tree.now.nodes result }
{
    let mut n = top;
    while let Some(child) = child_at(tree, n, p) {
        n = child;
    }
    n
}
