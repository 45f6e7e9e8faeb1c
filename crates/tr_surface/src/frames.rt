ghost use Rattle.std.specs.Prelude.{◌≡◌, ◌&&◌, ◌||◌, not, true, false, length, IfOk, OnOk, OnErr};
ghost use Rattle.tr_base.specs.declared.Point.{Point};
ghost use Rattle.tr_region.specs.Points.{holds};
ghost use Rattle.tr_screen.specs.Pictures.{pixel_of};
ghost use Rattle.tr_screen.specs.Runs.{Repaints};
ghost use Rattle.tr_forest.specs.Nodes.{IsNode};
ghost use Rattle.tr_spot.specs.Spots.{spot, is_on_frame, region_of};
ghost use Rattle.tr_surface.specs.Surfaces.{any_holds, is_bad, is_on, is_frame, frame_colour};
ghost use Rattle.tr_surface.specs.Frames.{AreBadFrames, AreGoodFrames, AreOnFrames};

use crate::fills::Fill;
use crate::surfaces::Surface;
use tr_base::{NoMemory, NodeId, Op, eff};
use tr_exec::paint_within;
use tr_region::Region;
use tr_screen::Screen;
use tr_spot::frame;
use tr_tree::Tree;

impl Surface {
    /// Gives each bad point of a frame its colour, and makes it good. It takes all memory before it writes
    /// the first pixel: if memory runs out, nothing changes.
    pub fn paint_frame(&mut self) -> Result<(), NoMemory>
        // No point of a frame is bad any more.
        ensures bad { OnOk result ((p : Point) →
            is_bad self.new p ≡ is_bad self.old p && not (is_frame (spot self.old.tree p))) }
        ensures painted { let t = self.old.tree in
            OnOk result ((p : Point) → is_bad self.old p ≡ true → is_frame (spot t p) ≡ true →
            pixel_of self.new.screen p ≡ frame_colour (spot t p)) }

        // All other points of the screen keep their pixels.
        ensures others { let t = self.old.tree in
            OnOk result ((p : Point) → is_on t p ≡ true →
            is_bad self.old p && is_frame (spot t p) ≡ false →
            pixel_of self.new.screen p ≡ pixel_of self.old.screen p) }
        ensures tree { self.new.tree ≡ self.old.tree }
        ensures err { OnErr result (self.new ≡ self.old) }
    {
        let frames = self.bad_frames()?;
        let Ok(good) = self.good_frames() else {
            drop(frames);
            return Err(NoMemory);
        };
        paint_frames(&mut self.screen, &self.tree, &frames);
        drop(frames);
        self.good = good;
        Ok(())
    }

    /// The bad points of each node's frame, by the nodes' numbers.
    fn bad_frames(&self) -> Result<Vec<Region>, NoMemory>
        ensures { IfOk result (λ frames. AreBadFrames self.now frames.items) }
    {
        let count = self.tree.count();
        let mut frames = Vec::with_capacity(self.alloc, count)?;
        for n in 0..count {
            let Ok(bad) = self.bad_frame(NodeId(n as u16)) else {
                drop(frames);
                return Err(NoMemory);
            };
            let Ok(()) = frames.push(bad) else {
                drop(frames);
                return Err(NoMemory);
            };
        }
        Ok(frames)
    }

    /// The good points of each node once its frame is good, by the nodes' numbers.
    fn good_frames(&self) -> Result<Vec<Region>, NoMemory>
        ensures { IfOk result (λ good. AreGoodFrames self.now good.items) }
    {
        let count = self.tree.count();
        let mut all = Vec::with_capacity(self.alloc, count)?;
        for n in 0..count {
            let Ok(good) = self.good_frame(NodeId(n as u16)) else {
                drop(all);
                return Err(NoMemory);
            };
            let Ok(()) = all.push(good) else {
                drop(all);
                return Err(NoMemory);
            };
        }
        Ok(all)
    }

    /// The good points of a node once its frame is good.
    fn good_frame(&self, n: NodeId) -> Result<Region, NoMemory>
        requires { IsNode self.now.tree.nodes n }
        ensures { let s = self.now in IfOk result (λ r. (p : Point) →
            holds r p ≡ holds (region_of s.good n) p || is_on_frame n (spot s.tree p)) }
    {
        let frame = frame(self.alloc, self.tree(), n)?;
        let all = self.good(n).union(&frame);
        drop(frame);
        all
    }

    /// The bad points of a node's frame. A leaf has none.
    pub(crate) fn bad_frame(&self, n: NodeId) -> Result<Region, NoMemory>
        requires { IsNode self.now.tree.nodes n }
        ensures { IfOk result (λ r. (p : Point) →
            holds r p ≡ is_bad self.now p && is_on_frame n (spot self.now.tree p)) }
    {
        let frame = frame(self.alloc, self.tree(), n)?;
        frame.less(self.good(n))
    }
}

/// Gives the points of each region, which are on the frame of its node, the frame's colour.
fn paint_frames(screen: &mut Screen, tree: &Tree, frames: &[Region])
    requires size { screen.old.size ≡ tree.now.size }
    requires frames { AreOnFrames tree.now frames.now }
    ensures { Repaints (any_holds frames.now) (λ p. frame_colour (spot tree.now p)) screen.old screen.new }
{
    let count = tree.count();
    for n in 0..count {
        paint_one(screen, tree, NodeId(n as u16), &frames[n]);
    }
}

/// Gives the points of a region, which are on the frame of a node, the frame's colour.
fn paint_one(screen: &mut Screen, tree: &Tree, n: NodeId, frame: &Region)
    requires size { screen.old.size ≡ tree.now.size }
    requires node { IsNode tree.now.nodes n }
    requires points { (p : Point) → holds frame.now p ≡ true → is_on_frame n (spot tree.now p) ≡ true }
    ensures { Repaints (holds frame.now) (λ p. frame_colour (spot tree.now p)) screen.old screen.new }
{
    let pixel = eff(tree.kind(), Op::Set(tree.tint_of(n)), 0);
    let area = frame.extents();
    paint_within(screen, frame, &Fill { area, pixel });
}
