ghost use Rattle.std.specs.Prelude.{◌≡◌, ◌≤◌, ◌+◌, IfSome};
ghost use Rattle.tr_forest.specs.Nodes.{IsNode, node};
ghost use Rattle.tr_forest.specs.Families.{depth_within, height_within, is_under_within};
ghost use Rattle.tr_forest.specs.Forests.{IsForest};

use crate::families::Family;
use tr_base::NodeId;

/// The most nodes that may lie one below another.
pub(crate) const LEVELS: u8 = 16;

/// A node's parent, which is a node too.
pub(crate) fn parent_of(family: &Family, n: NodeId) -> Option<NodeId>
    requires forest { IsForest family.now }
    requires node { IsNode family.now n }
    ensures value { result ≡ (node family.now n).parent }
    ensures within { IfSome result (IsNode family.now) }
{
    family.parent(n)
}

/// The number of nodes from n up to its topmost node.
pub(crate) fn depth_of(family: &Family, levels: u8, n: NodeId) -> u8
    requires forest { IsForest family.now }
    requires node { IsNode family.now n }
    requires levels { levels ≤ 16 }
    ensures depth { result ≡ depth_within levels family.now n }
    ensures most { result ≤ levels + 1 }
{
    if levels == 0 {
        return 1;
    }
    let Some(parent) = parent_of(family, n) else {
        return 1;
    };
    depth_of(family, levels - 1, parent) + 1
}

/// Whether n is `top` or lies below it.
pub(crate) fn lies_under(family: &Family, levels: u8, top: NodeId, n: NodeId) -> bool
    requires forest { IsForest family.now }
    requires node { IsNode family.now n }
    ensures { result ≡ is_under_within levels family.now top n }
{
    if n.0 == top.0 {
        return true;
    }
    if levels == 0 {
        return false;
    }
    let Some(parent) = parent_of(family, n) else {
        return false;
    };
    lies_under(family, levels - 1, top, parent)
}

/// The number of nodes from n down to its lowest node.
pub(crate) fn height_of(family: &Family, levels: u8, n: NodeId) -> u8
    requires forest { IsForest family.now }
    requires node { IsNode family.now n }
    requires levels { levels ≤ 16 }
    ensures height { result ≡ height_within levels family.now n }
    ensures most { result ≤ levels + 1 }
{
    if levels == 0 {
        return 1;
    }
    let mut most: u8 = 0;
    for c in family.children(n) {
        most = most.max(height_of(family, levels - 1, *c));
    }
    most + 1
}
