ghost use Rattle.std.specs.Prelude.{◌≡◌, ◌<◌, ◌&&◌, not, true, false, IsTrue, IfOk};
ghost use Rattle.tr_base.specs.declared.Point.{Point};
ghost use Rattle.tr_base.specs.Rects.{Edges};
ghost use Rattle.tr_base.specs.Layouts.{IsPartOf};
ghost use Rattle.tr_region.specs.Points.{holds};
ghost use Rattle.tr_forest.specs.Nodes.{leaf_count};
ghost use Rattle.tr_spot.specs.Spots.{spot, is_in_leaf};
ghost use Rattle.tr_repair.specs.Near.{IsDistance};
ghost use Rattle.tr_exec.specs.Executions.{IsOrigin};
ghost use Rattle.tr_surface.specs.Counts.{count_on};
ghost use Rattle.tr_surface.specs.Surfaces.{HasBadPoints, is_bad, is_frame, back_from};

use crate::executes::origin_of;
use crate::surfaces::Surface;
use tr_base::{LeafId, NoMemory, NodeId, Point, Rect, whole};
use tr_region::Region;
use tr_repair::shifted;

impl Surface {
    /// The number of bad points of the screen.
    pub fn bad_count(&self) -> u32
        ensures { result ≡ count_on self.now.tree.size (is_bad self.now) }
    {
        self.tree.invariant();
        let size = self.tree.size();
        let mut count = u32::from(size.wide) * u32::from(size.high);
        for region in &self.good {
            region.invariant();
            count -= region.count() as u32;
        }
        count
    }

    /// The bad points of the screen.
    pub fn bad(&self) -> Result<Region, NoMemory>
        ensures { IfOk result (λ r. (p : Point) → holds r p ≡ is_bad self.now p) }
    {
        let mut bad = Region::of_rect(self.alloc, whole(self.tree.size()))?;
        for good in &self.good {
            bad = bad.less(good)?;
        }
        Ok(bad)
    }

    /// Whether a visible point of the leaf is bad.
    pub fn is_bad(&self, leaf: LeafId) -> Result<bool, NoMemory>
        requires { leaf.0 < leaf_count self.now.tree.nodes }
        ensures some { IfOk result (λ b. IsTrue b → (p : Point) ×
            ((is_in_leaf leaf (spot self.now.tree p) ≡ true) × (is_bad self.now p ≡ true))) }
        ensures none { IfOk result (λ b. IsTrue (not b) → (p : Point) →
            is_in_leaf leaf (spot self.now.tree p) ≡ true → is_bad self.now p ≡ false) }
    {
        Ok(holds_some(self.bad_of(leaf)?))
    }

    /// Whether a point of a frame is bad.
    pub fn is_frame_bad(&self) -> Result<bool, NoMemory>
        ensures some { IfOk result (λ b. IsTrue b → (p : Point) ×
            ((is_frame (spot self.now.tree p) ≡ true) × (is_bad self.now p ≡ true))) }
        ensures none { IfOk result (λ b. IsTrue (not b) → (p : Point) →
            is_frame (spot self.now.tree p) ≡ true → is_bad self.now p ≡ false) }
    {
        let count = self.tree().count();
        for n in 0..count {
            if holds_some(self.bad_frame(NodeId(n as u16))?) {
                return Ok(true);
            }
        }
        Ok(false)
    }

    /// The least rectangle that has each bad visible point of a leaf, in the coordinates of the leaf's
    /// window. It is empty if none is bad.
    pub fn bad_extents(&self, leaf: LeafId) -> Result<Rect, NoMemory>
        requires { leaf.0 < leaf_count self.now.tree.nodes }
        ensures all { IfOk result (HasBadPoints self.now leaf) }
        ensures least { IfOk result (λ r. (outer : Edges) →
            HasBadPoints self.now leaf outer → IsPartOf r outer) }
    {
        self.tree.invariant();
        let origin = origin_of(&self.tree, leaf);
        let here = self.bad_of(leaf)?;
        let bad = shifted(&here, opposite(origin));
        drop(here);
        let bad = bad?;
        bad.invariant();
        let extents = bad.extents();
        drop(bad);
        Ok(extents)
    }

    /// The bad visible points of a leaf.
    pub fn bad_of(&self, leaf: LeafId) -> Result<Region, NoMemory>
        requires { leaf.0 < leaf_count self.now.tree.nodes }
        ensures { IfOk result (λ r. (p : Point) →
            holds r p ≡ is_bad self.now p && is_in_leaf leaf (spot self.now.tree p)) }
    {
        let visible = self.visible(leaf)?;
        visible.less(self.good_of(leaf))
    }
}

/// Whether a region holds a point. It takes the region by value for the prover: so no caller drops one.
fn holds_some(region: Region) -> bool
    ensures some { IsTrue result → (p : Point) × (holds region p ≡ true) }
    ensures none { IsTrue (not result) → (p : Point) → holds region p ≡ false }
{
    region.invariant();
    !region.is_empty()
}

/// The move from the screen's coordinates to a window's.
fn opposite(origin: Point) -> Point
    requires { IsOrigin origin }
    ensures value { result ≡ back_from origin }
    ensures near { IsDistance result }
{
    Point {
        h: -origin.h,
        v: -origin.v,
    }
}
