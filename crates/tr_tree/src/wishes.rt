ghost use Rattle.std.specs.Prelude.{◌≡◌, ◌≤◌, false, true, length};
ghost use Rattle.tr_base.specs.declared.NodeId.{NodeId};
ghost use Rattle.tr_forest.specs.Nodes.{node, IsNode, IsNodeKind};
ghost use Rattle.tr_forest.specs.Forests.{IsForest};
ghost use Rattle.tr_tree.specs.Wishes.{shape, shape_of, only_child, no_shapes};
ghost use Rattle.tr_tree.specs.Tables.{shape_in};
ghost use Rattle.tr_tree.specs.Filling.{Fills, HasChildren};

use crate::domains::gather;
use tr_base::{NodeId, Shapes, no_lengths};
use tr_filter::{border_shape, rigid_shape, translate_shape};
use tr_forest::{Forest, NodeKind};
use tr_pack::pack_shape;
use tr_stack::{max_shape, page_shape};

/// Fills the table with the shapes of each node, each computed once. It takes no memory: the room
/// is for the shapes of one node's children.
pub(crate) fn fill_shapes(forest: &Forest, room: &mut Vec<Shapes>, shapes: &mut Vec<Shapes>)
    requires room { length room.old.items ≡ length forest.now.entries }
    requires count { length shapes.old.items ≡ length forest.now.entries }
    ensures shapes { (n : NodeId) → shape_in shapes.new.items n ≡ shape forest.now n }
    ensures room { length room.new.items ≡ length room.old.items }
    ensures count { length shapes.new.items ≡ length shapes.old.items }
{
    let count = forest.count();
    for k in 0..count as u16 {
        let n = NodeId(k);
        if forest.parent(n).is_none() {
            fill_below(forest, n, room, shapes);
        }
    }
}

/// Fills the entries of a node and of all nodes below it, children first.
fn fill_below(forest: &Forest, n: NodeId, room: &mut Vec<Shapes>, shapes: &mut Vec<Shapes>)
    requires forest { IsForest forest.now }
    requires node { IsNode forest.now n }
    requires room { length room.old.items ≡ length forest.now.entries }
    requires count { length shapes.old.items ≡ length forest.now.entries }
    ensures fills { Fills forest.now n shapes.old.items shapes.new.items }
    ensures room { length room.new.items ≡ length room.old.items }
    ensures count { length shapes.new.items ≡ length shapes.old.items }
{
    for c in forest.children(n) {
        fill_below(forest, *c, room, shapes);
    }
    shapes[usize::from(n.0)] = shape_above(forest, n, room, shapes);
}

/// The shapes of a node, from its children's in the table.
fn shape_above(forest: &Forest, n: NodeId, room: &mut Vec<Shapes>, table: &[Shapes]) -> Shapes
    requires forest { IsForest forest.now }
    requires node { IsNode forest.now n }
    requires room { length room.old.items ≡ length forest.now.entries }
    requires count { length table.now ≡ length forest.now.entries }
    requires children { HasChildren forest.now n table.now }
    ensures shapes { result ≡ shape forest.now n }
    ensures room { length room.new.items ≡ length room.old.items }
{
    let children = forest.children(n);
    gather(table, children, room);
    shape_of(forest.kind_of(n), &room[..children.len()])
}

/// The shapes of a node of this kind, from its children's.
fn shape_of(kind: NodeKind, children: &[Shapes]) -> Shapes
    requires kind { IsNodeKind kind }
    requires count { length children.now ≤ 255 }
    ensures { result ≡ shape_of kind children.now }
{
    match kind {
        NodeKind::H => tr_hv::shape(false, children),
        NodeKind::V => tr_hv::shape(true, children),
        NodeKind::Z | NodeKind::T { .. } => max_shape(children),
        NodeKind::Page { per, .. } => page_shape(per, children),
        NodeKind::Border { width } => border_shape(width, only_child(children)),
        NodeKind::Rigid { size } => rigid_shape(size),
        NodeKind::Translate { .. } => translate_shape(only_child(children)),
        NodeKind::Pack { down, gap } => pack_shape(down, gap, children),
        NodeKind::Leaf { shapes, .. } => shapes,
    }
}

/// The shapes of a filter's child, with 0 for all lengths if it has none.
fn only_child(children: &[Shapes]) -> Shapes
    ensures { result ≡ only_child children.now }
{
    match children {
        [] => no_shapes(),
        [child, ..] => *child,
    }
}

/// The shapes of a node that wants nothing.
pub(crate) fn no_shapes() -> Shapes
    ensures { result ≡ no_shapes }
{
    Shapes {
        across: no_lengths(),
        down: no_lengths(),
    }
}
