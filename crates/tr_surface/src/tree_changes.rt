ghost use Rattle.std.specs.Prelude.{IfSome};
ghost use Rattle.std.proofs.Props.{props};
ghost use Rattle.tr_forest.specs.Nodes.{IsNode};
ghost use Rattle.tr_surface.specs.Survivors.{AreSides};

use std::alloc::Global;
use tr_base::NodeId;
use tr_region::Region;
use tr_tree::Tree;

/// The good points of a screen after an edit of its tree: those of each node, and all those that move along
/// with the moved child.
#[derive(Drop)]
pub(crate) struct Known {
    pub good: Vec<Region>,
    pub follows: Region,
}

/// A tree before and after an edit that keeps the kind of its screen, with the good points of its nodes
/// before the edit, and the child that the edit moves.
#[derive(Clone, Copy)]
pub(crate) struct TreeChange<'a> {
    pub alloc: Global,
    pub was: &'a Tree,
    pub is: &'a Tree,
    pub good: &'a [Region],
    pub moved: Option<NodeId>,
    pub ghost sides: { AreSides was.now is.now good.now },
    pub ghost child: { IfSome moved (IsNode was.now.nodes) } by { Prim.hlevel props },
}
