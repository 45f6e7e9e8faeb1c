ghost use Rattle.std.specs.Prelude.{◌≡◌, ◌⊎◌, ◌&&◌, not, if◌then◌else◌, None, IfOk, IfSome, IsTrue};
ghost use Rattle.tr_base.specs.declared.Point.{Point};
ghost use Rattle.tr_base.specs.declared.NodeId.{NodeId};
ghost use Rattle.tr_base.specs.Rects.{before_shift, has_point};
ghost use Rattle.tr_region.specs.Points.{holds};
ghost use Rattle.tr_forest.specs.Nodes.{IsNode};
ghost use Rattle.tr_tree.specs.Places.{domain};
ghost use Rattle.tr_spot.specs.Changes.{AreAlikeBut};
ghost use Rattle.tr_spot.specs.Covers.{comes_upon, lies_under};
ghost use Rattle.tr_surface.specs.Survivors.{way_from};
ghost use Rattle.tr_surface.specs.TreeChanges.{IsCover};

use crate::tree_changes::TreeChange;
use tr_base::{NoMemory, NodeId};
use tr_region::Region;
use tr_spot::reached;
use tr_tree::Tree;

/// The cover of a child that moved with all nodes below it, or came in front, while all other nodes
/// stayed: the points at which the walk from the root reaches it. Without a child it is empty.
#[derive(Drop)]
pub(crate) struct Cover {
    pub child: Option<NodeId>,
    pub region: Region,
}

impl Cover {
    /// The points of a part that the node owns after the change: the covered ones if it is the child
    /// or lies below the child, else the others.
    pub fn left_of(&self, is: &Tree, n: NodeId, part: Region) -> Result<Region, NoMemory>
        requires { IsNode is.now.nodes n }
        ensures { let covered = λ (p : Point). holds self.now.region p in
            IfOk result (λ r. (p : Point) → holds r p ≡ holds part p
            && (if lies_under is.now.nodes self.now.child n then covered p else not (covered p))) }
    {
        if lies_under(is, self.child, n) {
            let met = part.meet(&self.region);
            drop(part);
            met
        } else {
            part.less(&self.region)
        }
    }
}

impl TreeChange<'_> {
    /// The cover of a child, if each node moved as its points do.
    pub fn cover(&self, child: Option<NodeId>) -> Result<Option<Cover>, NoMemory>
        requires alike { AreAlikeBut child self.now.was.now self.now.is.now }
        requires child { IfSome child (IsNode self.now.is.now.nodes) }
        requires moved { (self.now.moved ≡ None) ⊎ (self.now.moved ≡ child) }
        ensures { let s = self.now in
            IfOk result (λ o. IfSome o (IsCover s.was.now s.is.now s.moved)) }
    {
        self.was.invariant();
        self.is.invariant();
        if !self.moves_all() {
            return Ok(None);
        }
        let region = self.covered(child)?;
        Ok(Some(Cover { child, region }))
    }

    /// The points at which the walk from the root reaches a child, if there is one.
    fn covered(&self, child: Option<NodeId>) -> Result<Region, NoMemory>
        requires { IfSome child (IsNode self.now.is.now.nodes) }
        ensures { IfOk result (λ r. (p : Point) → holds r p ≡ comes_upon self.now.is.now p child) }
    {
        match child {
            Some(child) => reached(self.alloc, self.is, child),
            None => Ok(Region::empty(self.alloc)),
        }
    }

    /// Whether the rectangle of each node moved as its points do.
    fn moves_all(&self) -> bool
        ensures { let s = self.now in IsTrue result → (n : NodeId) (p : Point) → IsNode s.is.now.nodes n →
            has_point (domain s.is.now n) p
            ≡ has_point (domain s.was.now n) (before_shift p (way_from s.was.now s.is.now s.moved n)) }
    {
        for i in 0..self.is.count() {
            if !self.moves(NodeId(i as u16)) {
                return false;
            }
        }
        true
    }

    /// Whether the rectangle of a node moved as its points do.
    fn moves(&self, n: NodeId) -> bool
        requires { IsNode self.now.is.now.nodes n }
        ensures { let s = self.now in IsTrue result → (p : Point) →
            has_point (domain s.is.now n) p
            ≡ has_point (domain s.was.now n) (before_shift p (way_from s.was.now s.is.now s.moved n)) }
    {
        self.was.domain(n).shift(self.way(n)) == self.is.domain(n)
    }
}

/// Whether a node is the child or lies below it, if there is a child.
fn lies_under(tree: &Tree, child: Option<NodeId>, n: NodeId) -> bool
    requires { IsNode tree.now.nodes n }
    ensures { result ≡ lies_under tree.now.nodes child n }
{
    match child {
        Some(child) => tree.is_under(child, n),
        None => false,
    }
}
