ghost use Rattle.std.specs.Prelude.{◌≡◌, ◌<◌, ◌&&◌, not, length, All, IfOk};
ghost use Rattle.tr_base.specs.declared.Point.{Point};
ghost use Rattle.tr_base.specs.Rects.{has_point, whole_of};
ghost use Rattle.tr_region.specs.Points.{holds};
ghost use Rattle.tr_forest.specs.Nodes.{node, leaf_count, IsNode};
ghost use Rattle.tr_forest.specs.Forests.{IsForest};
ghost use Rattle.tr_forest.specs.Edits.{is_root};
ghost use Rattle.tr_spot.specs.Spots.{is_in_leaf, is_on_frame, is_spot_of, spot};
ghost use Rattle.tr_spot.specs.Ways.{front, is_it, is_nobody, comes_to};

use std::alloc::Global;
use tr_base::{LeafId, NoMemory, NodeId, whole};
use tr_region::Region;
use tr_tree::{NodeKind, Tree};

/// The domains of more nodes than these are united before they are removed from a region of more rectangles.
const MANY: usize = 64;

/// The points that belong to a leaf.
pub fn visible(alloc: Global, tree: &Tree, leaf: LeafId) -> Result<Region, NoMemory>
    requires { leaf.0 < leaf_count tree.now.nodes }
    ensures points { IfOk result (λ r. (p : Point) → holds r p ≡ is_in_leaf leaf (spot tree.now p)) }
{
    tree.invariant();
    owned(alloc, tree, tree.node_of(leaf))
}

/// The points that belong to a node's frame. A leaf has none.
pub fn frame(alloc: Global, tree: &Tree, n: NodeId) -> Result<Region, NoMemory>
    requires { IsNode tree.now.nodes n }
    ensures points { IfOk result (λ r. (p : Point) → holds r p ≡ is_on_frame n (spot tree.now p)) }
{
    tree.invariant();
    if let NodeKind::Leaf { .. } = tree.kind_of(n) {
        return Ok(Region::empty(alloc));
    }
    owned(alloc, tree, n)
}

/// The points of a part of the plane that belong to a node: visible points of a leaf, points of
/// another node's frame.
pub fn own_points(alloc: Global, tree: &Tree, n: NodeId, part: Region) -> Result<Region, NoMemory>
    requires { IsNode tree.now.nodes n }
    ensures { IfOk result (λ r. (p : Point) →
        holds r p ≡ holds part p && is_spot_of tree.now n (spot tree.now p)) }
{
    tree.invariant();
    owned_in(alloc, tree, n, part)
}

/// The points at which the walk from the root to the owner reaches a node.
pub fn reached(alloc: Global, tree: &Tree, n: NodeId) -> Result<Region, NoMemory>
    requires { IsNode tree.now.nodes n }
    ensures { IfOk result (λ r. (p : Point) → holds r p ≡ comes_to tree.now p n) }
{
    tree.invariant();
    let screen = Region::of_rect(alloc, whole(tree.size()))?;
    reached_in(alloc, tree, n, screen)
}

/// The points whose spot is that of the node.
fn owned(alloc: Global, tree: &Tree, n: NodeId) -> Result<Region, NoMemory>
    requires forest { IsForest tree.now.nodes }
    requires node { IsNode tree.now.nodes n }
    ensures { IfOk result (λ r. (p : Point) → holds r p ≡ is_spot_of tree.now n (spot tree.now p)) }
{
    let screen = Region::of_rect(alloc, whole(tree.size()))?;
    owned_in(alloc, tree, n, screen)
}

/// The points of a part whose spot is that of the node: the walk from the root reaches it, and no
/// child of it has the point.
fn owned_in(alloc: Global, tree: &Tree, n: NodeId, part: Region) -> Result<Region, NoMemory>
    requires forest { IsForest tree.now.nodes }
    requires node { IsNode tree.now.nodes n }
    ensures { IfOk result (λ r. (p : Point) →
        holds r p ≡ holds part p && is_spot_of tree.now n (spot tree.now p)) }
{
    let all = reached_in(alloc, tree, n, part)?;
    uncovered(alloc, tree, n, all)
}

/// The points of a part at which the walk from the root reaches the node.
fn reached_in(alloc: Global, tree: &Tree, n: NodeId, part: Region) -> Result<Region, NoMemory>
    requires forest { IsForest tree.now.nodes }
    requires node { IsNode tree.now.nodes n }
    ensures { IfOk result (λ r. (p : Point) → holds r p ≡ holds part p && comes_to tree.now p n) }
{
    if is_root(tree, n) {
        return part.within(&whole(tree.size()));
    }
    match tree.parent(n) {
        None => {
            drop(part);
            Ok(Region::empty(alloc))
        }
        Some(parent) => {
            let above = reached_in(alloc, tree, parent, part)?;
            passed_on(alloc, tree, parent, n, above)
        }
    }
}

fn is_root(tree: &Tree, n: NodeId) -> bool
    ensures { result ≡ is_root tree.now.nodes n }
{
    match tree.root() {
        Some(root) => root.0 == n.0,
        None => false,
    }
}

/// The points of a part of the parent at which the walk continues at the child: its domain has them,
/// and no child in front has them.
fn passed_on(
    alloc: Global,
    tree: &Tree,
    parent: NodeId,
    child: NodeId,
    part: Region,
) -> Result<Region, NoMemory>
    requires forest { IsForest tree.now.nodes }
    requires parent { IsNode tree.now.nodes parent }
    requires child { IsNode tree.now.nodes child }
    ensures { IfOk result (λ r. (p : Point) →
        holds r p
        ≡ holds part p && is_it child (front tree.now p (node tree.now.nodes parent).children)) }
{
    let left = part.within(&tree.domain(child))?;
    let siblings = tree.children(parent);
    for (count, sibling) in siblings.iter().enumerate() {
        if sibling.0 == child.0 {
            return outside_all(alloc, tree, &siblings[..count], left);
        }
    }
    drop(left);
    Ok(Region::empty(alloc))
}

/// The points of a part of the node that no child's domain has.
fn uncovered(alloc: Global, tree: &Tree, n: NodeId, part: Region) -> Result<Region, NoMemory>
    requires forest { IsForest tree.now.nodes }
    requires node { IsNode tree.now.nodes n }
    ensures { IfOk result (λ r. (p : Point) →
        holds r p ≡ holds part p && is_nobody (front tree.now p (node tree.now.nodes n).children)) }
{
    outside_all(alloc, tree, tree.children(n), part)
}

/// The points of a part of the plane that none of the nodes' domains has. The domains are removed one by
/// one, and each removal costs a walk over all points that are left. If many are left and many domains are to
/// come, their union is removed at once.
fn outside_all(
    alloc: Global,
    tree: &Tree,
    nodes: &[NodeId],
    part: Region,
) -> Result<Region, NoMemory>
    requires { All (λ n. IsNode tree.now.nodes n) nodes.now }
    ensures { IfOk result (λ r. (p : Point) →
        holds r p ≡ holds part p && is_nobody (front tree.now p nodes.now)) }
{
    let mut left = part;
    for (at, n) in nodes.iter().enumerate() {
        if nodes.len() - at > MANY && left.rects().len() > MANY {
            let all = covered(alloc, tree, &nodes[at..])?;
            let rest = left.less(&all);
            drop(all);
            return rest;
        }
        left = left.outside(&tree.domain(*n))?;
    }
    Ok(left)
}

/// The points that the domain of one of the nodes has. Both halves are united first, so that each rectangle
/// takes part in few unions.
fn covered(alloc: Global, tree: &Tree, nodes: &[NodeId]) -> Result<Region, NoMemory>
    requires nodes { All (λ n. IsNode tree.now.nodes n) nodes.now }
    requires some { 0 < length nodes.now }
    ensures { IfOk result (λ r. (p : Point) →
        holds r p ≡ not (is_nobody (front tree.now p nodes.now))) }
{
    let half = nodes.len() / 2;
    if half == 0 {
        return Region::of_rect(alloc, tree.domain(nodes[0]));
    }
    let first = covered(alloc, tree, &nodes[..half])?;
    let second = covered(alloc, tree, &nodes[half..])?;
    first.union(&second)
}
