ghost use Rattle.std.specs.Prelude.{◌≡◌, ◌↔◌, ◌<◌, ◌+◌, ◌&&◌, ◌||◌, ℕ, not, true, length, IfOk, IfSome, IsTrue};
ghost use Rattle.tr_base.specs.declared.Point.{Point};
ghost use Rattle.tr_base.specs.declared.NodeId.{NodeId};
ghost use Rattle.tr_base.specs.Rects.{InReach, before_shift, has_point};
ghost use Rattle.tr_base.specs.Layouts.{IsDomain};
ghost use Rattle.tr_region.specs.Points.{holds};
ghost use Rattle.tr_repair.specs.Near.{IsAround, IsDistance};
ghost use Rattle.tr_paint.specs.Batches.{touches};
ghost use Rattle.tr_forest.specs.Nodes.{IsNode, leaf_count, leaf_of, node};
ghost use Rattle.tr_tree.specs.Places.{domain};
ghost use Rattle.tr_spot.specs.Spots.{is_spot_of, region_of, spot, from_corner as spec_from, size_of as spec_size};
ghost use Rattle.tr_surface.specs.TreeSteps.{is_kept, same_point, way_of};
ghost use Rattle.tr_surface.specs.declared.survivors.Survivors.TheVariants as variants;
ghost use Rattle.tr_surface.specs.Survivors.{IsFitting, corner_of, follows, good_at, has_survivor, in_moved};
ghost use Rattle.tr_surface.specs.Survivors.{leaf_survivors, survivors_from, unmoved, way_from};
ghost use Rattle.tr_surface.specs.TreeChanges.{IsCover};

use crate::covers::Cover;
use crate::keepers::Keeper;
use crate::survivors::Survivors;
use crate::tree_changes::{Known, TreeChange};
use std::alloc::Global;
use tr_base::{LeafId, NoMemory, NodeId, Point, Rect, Size};
use tr_paint::{Batch, Paint};
use tr_region::Region;
use tr_repair::shifted;
use tr_spot::{from_corner, own_points, size_of};
use tr_tree::{NodeKind, Tree};

impl TreeChange<'_> {
    /// The good points of each node after the edit, and those that move along with the moved child.
    pub fn known<K: Keeper>(&self, keeper: &K, cover: &Option<Cover>) -> Result<Known, NoMemory>
        requires leaves { K.leaves keeper.now ≡ leaf_count self.now.was.now.nodes }
        requires cover { let s = self.now in IfSome cover.now (IsCover s.was.now s.is.now s.moved) }
        ensures count { IfOk result (λ r. length r.good.items ≡ length self.now.is.now.nodes.entries) }
        ensures good { let s = self.now in
            IfOk result (λ r. (n : NodeId) (p : Point) → IsNode s.is.now.nodes n →
            holds (region_of r.good.items n) p
            ≡ good_at (K.keeping keeper.now) s.was.now s.is.now s.moved s.good.now n p) }
        ensures follows { let s = self.now in IfOk result (λ r. (p : Point) →
            holds r.follows p ≡ follows s.is.now.nodes s.moved r.good.items p) }
    {
        let good = self.all_good(keeper, cover)?;
        let Ok(follows) = self.follows(&good) else {
            drop(good);
            return Err(NoMemory);
        };
        Ok(Known { good, follows })
    }

    /// The good points of each node after the edit, by the nodes' numbers.
    fn all_good<K: Keeper>(
        &self,
        keeper: &K,
        cover: &Option<Cover>,
    ) -> Result<Vec<Region>, NoMemory>
        requires leaves { K.leaves keeper.now ≡ leaf_count self.now.was.now.nodes }
        requires cover { let s = self.now in IfSome cover.now (IsCover s.was.now s.is.now s.moved) }
        ensures count { IfOk result (λ r. length r.items ≡ length self.now.is.now.nodes.entries) }
        ensures good { let s = self.now in
            IfOk result (λ r. (n : NodeId) (p : Point) → IsNode s.is.now.nodes n →
            holds (region_of r.items n) p
            ≡ good_at (K.keeping keeper.now) s.was.now s.is.now s.moved s.good.now n p) }
    {
        let count = self.is.count();
        let mut good = Vec::with_capacity(self.alloc, count)?;
        for i in 0..count {
            let Ok(region) = self.good_after(keeper, cover, NodeId(i as u16)) else {
                drop(good);
                return Err(NoMemory);
            };
            let Ok(()) = good.push(region) else {
                drop(good);
                return Err(NoMemory);
            };
        }
        Ok(good)
    }

    /// The good points of a node after the edit. If none was good, it looks at nothing.
    fn good_after<K: Keeper>(
        &self,
        keeper: &K,
        cover: &Option<Cover>,
        n: NodeId,
    ) -> Result<Region, NoMemory>
        requires node { IsNode self.now.is.now.nodes n }
        requires leaves { K.leaves keeper.now ≡ leaf_count self.now.was.now.nodes }
        requires cover { let s = self.now in IfSome cover.now (IsCover s.was.now s.is.now s.moved) }
        ensures { let s = self.now in IfOk result (λ r. (p : Point) → holds r p
            ≡ good_at (K.keeping keeper.now) s.was.now s.is.now s.moved s.good.now n p) }
    {
        self.was.invariant();
        if self.good_before(n).is_empty() {
            return Ok(Region::empty(self.alloc));
        }
        let by = self.way(n);
        let survivors = self.survivors(n, by);
        let left = self.surviving(keeper, n, by, survivors)?;
        self.own(cover, n, left)
    }

    /// The good points of a node before the edit.
    fn good_before(&self, n: NodeId) -> &Region
        requires { IsNode self.now.is.now.nodes n }
        ensures { result.now ≡ region_of self.now.good.now n }
    {
        &self.good[usize::from(n.0)]
    }

    /// The distance by which the points of a node move.
    pub fn way(&self, n: NodeId) -> Point
        requires { IsNode self.now.is.now.nodes n }
        ensures value { let s = self.now in result ≡ way_from s.was.now s.is.now s.moved n }
        ensures near { IsDistance result }
    {
        match self.moved {
            Some(child) if self.is.is_under(child, n) => way_of(self.was, self.is, child),
            _ => Point { h: 0, v: 0 },
        }
    }

    /// The points of a node that show the same after a move by this distance.
    fn survivors(&self, n: NodeId, by: Point) -> Survivors
        requires node { IsNode self.now.is.now.nodes n }
        requires by { IsDistance by }
        ensures value { result ≡ survivors_from self.now.was.now self.now.is.now by n }
        ensures fits { IsFitting (leaf_count self.now.was.now.nodes) result }
    {
        match leaf_in(self.was, n) {
            Some(leaf) => leaf_survivors(leaf, &self.was.domain(n), &self.is.domain(n), by),
            None if self.was.tint_of(n) == self.is.tint_of(n) => Survivors::All,
            None => Survivors::Nothing,
        }
    }

    /// The new places of a node's good points that survive.
    fn surviving<K: Keeper>(
        &self,
        keeper: &K,
        n: NodeId,
        by: Point,
        survivors: Survivors,
    ) -> Result<Region, NoMemory>
        requires node { IsNode self.now.is.now.nodes n }
        requires by { IsDistance by }
        requires fits { IsFitting (K.leaves keeper.now) survivors }
        ensures { let s = self.now in IfOk result (λ r. (p : Point) →
            holds r p ≡ holds (region_of s.good.now n) (before_shift p by)
            && has_survivor (K.keeping keeper.now) survivors (spec_from (domain s.is.now n) p)) }
    {
        match survivors {
            Survivors::Nothing => Ok(Region::empty(self.alloc)),
            Survivors::All => self.moved_along(n, by),
            Survivors::Kept { leaf, from, to } => {
                let kept = self.kept_points(keeper, n, leaf, from, to)?;
                let Ok(moved) = self.moved_along(n, by) else {
                    drop(kept);
                    return Err(NoMemory);
                };
                let both = moved.meet(&kept);
                drop((moved, kept));
                both
            }
        }
    }

    /// The new places of a node's good points.
    fn moved_along(&self, n: NodeId, by: Point) -> Result<Region, NoMemory>
        requires node { IsNode self.now.is.now.nodes n }
        requires by { IsDistance by }
        ensures { IfOk result (λ r. (p : Point) →
            holds r p ≡ holds (region_of self.now.good.now n) (before_shift p by)) }
    {
        self.was.invariant();
        let good = self.good_before(n);
        if is_nowhere(by) {
            let same = good.copy()?;
            return Ok(same);
        }
        shifted(good, by)
    }

    /// The points of the screen that a leaf, node n, keeps, and that no waiting command touches.
    fn kept_points<K: Keeper>(
        &self,
        keeper: &K,
        n: NodeId,
        leaf: LeafId,
        from: Size,
        to: Size,
    ) -> Result<Region, NoMemory>
        requires node { IsNode self.now.is.now.nodes n }
        requires fits { IsFitting (K.leaves keeper.now) (variants.Kept leaf from to) }
        ensures { IfOk result (λ r. (p : Point) →
            holds r p
            ≡ is_kept (K.keeping keeper.now) leaf from to (spec_from (domain self.now.is.now n) p)) }
    {
        let rect = keeper.keeps(leaf, from, to);
        let left = untouched(self.alloc, rect, keeper.batch(leaf))?;
        let kept = shifted(&left, self.is.domain(n).corner());
        drop(left);
        kept
    }

    /// The points of a part that belong to the node after the change. They belonged to it before they moved.
    fn own(&self, cover: &Option<Cover>, n: NodeId, part: Region) -> Result<Region, NoMemory>
        requires node { IsNode self.now.is.now.nodes n }
        requires cover { let s = self.now in IfSome cover.now (IsCover s.was.now s.is.now s.moved) }
        requires part { let s = self.now in (p : Point) → holds part p ≡ true → is_spot_of s.was.now n
            (spot s.was.now (before_shift p (way_from s.was.now s.is.now s.moved n))) ≡ true }
        ensures { let t = self.now.is.now in IfOk result (λ r. (p : Point) →
            holds r p ≡ holds part p && is_spot_of t n (spot t p)) }
    {
        match cover {
            Some(cover) => cover.left_of(self.is, n, part),
            None => own_points(self.alloc, self.is, n, part),
        }
    }

    /// The good points of the moved child and of the nodes below it, from those of all nodes.
    fn follows(&self, good: &[Region]) -> Result<Region, NoMemory>
        requires { length good.now ≡ length self.now.is.now.nodes.entries }
        ensures { IfOk result (λ r. (p : Point) →
            holds r p ≡ follows self.now.is.now.nodes self.now.moved good.now p) }
    {
        let mut points = Region::empty(self.alloc);
        let Some(child) = self.moved else {
            return Ok(points);
        };
        for i in 0..self.is.count() {
            if !good[i].is_empty() {
                points = self.with_node(points, child, good, NodeId(i as u16))?;
            }
        }
        Ok(points)
    }

    /// The same points, with the good ones of node n if it is the child or lies below it.
    fn with_node(
        &self,
        points: Region,
        child: NodeId,
        good: &[Region],
        n: NodeId,
    ) -> Result<Region, NoMemory>
        requires node { IsNode self.now.is.now.nodes n }
        requires count { length good.now ≡ length self.now.is.now.nodes.entries }
        requires points { (p : Point) →
            holds points p ≡ in_moved n.0 self.now.is.now.nodes child good.now p }
        ensures { IfOk result (λ r. (p : Point) →
            holds r p ≡ in_moved (n.0 + 1) self.now.is.now.nodes child good.now p) }
    {
        if self.is.is_under(child, n) {
            let more = points.union(&good[usize::from(n.0)]);
            drop(points);
            more
        } else {
            Ok(points)
        }
    }
}

/// The distance by which a child moves.
pub(crate) fn way_of(was: &Tree, is: &Tree, child: NodeId) -> Point
    requires was { IsNode was.now.nodes child }
    requires is { IsNode is.now.nodes child }
    ensures value { result ≡ way_of was.now is.now child }
    ensures near { IsDistance result }
{
    let from = was.domain(child);
    let to = is.domain(child);
    from_corner(&from, to.corner())
}

/// Whether a distance is zero.
fn is_nowhere(by: Point) -> bool
    ensures { IsTrue result ↔ (by ≡ unmoved) }
{
    by.h == 0 && by.v == 0
}

/// The points that a leaf keeps when its rectangle changes, if its points move by this distance.
fn leaf_survivors(leaf: LeafId, was: &Rect, is: &Rect, by: Point) -> Survivors
    requires was { IsDomain was.now }
    requires is { IsDomain is.now }
    requires by { IsDistance by }
    ensures value { let stays = same_point (before_shift (corner_of is.now) by) (corner_of was.now) in
        result ≡ leaf_survivors stays leaf (spec_size was.now) (spec_size is.now) }
    ensures fits { (leaves : ℕ) → leaf.0 < leaves → IsFitting leaves result }
{
    if !comes_to(was.corner(), is.corner(), by) {
        return Survivors::Nothing;
    }
    let (from, to) = (size_of(was), size_of(is));
    if from == to {
        Survivors::All
    } else {
        Survivors::Kept { leaf, from, to }
    }
}

/// Whether this distance moves the old corner to the new one.
fn comes_to(old: Point, new: Point, by: Point) -> bool
    requires across { InReach new.h }
    requires down { InReach new.v }
    requires by { IsDistance by }
    ensures { result ≡ same_point (before_shift new by) old }
{
    new.h - by.h == old.h && new.v - by.v == old.v
}

/// The points of a rectangle that no command touches.
fn untouched(alloc: Global, rect: Rect, batch: &Batch) -> Result<Region, NoMemory>
    ensures { IfOk result (λ r. (q : Point) → holds r q ≡ (has_point rect q && not (touches batch.now q))) }
{
    // Names `Paint`, so that the borrow checker knows the types that a view lends.
    let _none: Option<Paint> = None;
    let mut left = Region::of_rect(alloc, rect)?;
    for i in 0..batch.len() {
        let paint = batch.get(i);
        let Ok(area) = Region::of_rect(alloc, paint.area()) else {
            drop(left);
            return Err(NoMemory);
        };
        let rest = left.minus(&area);
        drop((left, area));
        left = rest?;
    }
    Ok(left)
}

/// The leaf of a node, if it is one.
fn leaf_in(tree: &Tree, n: NodeId) -> Option<LeafId>
    requires { IsNode tree.now.nodes n }
    ensures value { result ≡ leaf_of (node tree.now.nodes n).kind }
    ensures leaf { IfSome result (λ leaf. leaf.0 < leaf_count tree.now.nodes) }
{
    tree.invariant();
    match tree.kind_of(n) {
        NodeKind::Leaf { leaf, .. } => Some(leaf),
        _ => None,
    }
}
