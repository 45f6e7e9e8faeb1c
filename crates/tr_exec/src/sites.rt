ghost use Rattle.std.specs.Prelude.{◌≡◌, IfOk};
ghost use Rattle.tr_base.specs.declared.Point.{Point};
ghost use Rattle.tr_base.specs.Rects.{has_point, before_shift};
ghost use Rattle.tr_region.specs.Points.{holds, Includes};
ghost use Rattle.tr_paint.specs.Paints.{IsNearPaint, IsNearPoint, area as area_of};
ghost use Rattle.tr_paint.specs.Views.{viewed};
ghost use Rattle.tr_exec.specs.Executions.{IsOrigin, RegionLiesOn, greatest_screen};
ghost use Rattle.tr_exec.specs.Unknown as spec;

use crate::effects::Effect;
use std::alloc::Global;
use tr_base::{NoMemory, Point, Rect};
use tr_paint::PaintView;
use tr_region::Region;

/// The place of a batch: the window's north-west corner on the screen, and the visible points of the
/// window, in the screen's coordinates.
#[derive(Clone, Copy)]
pub(crate) struct Site<'a> {
    pub alloc: Global,
    pub origin: Point,
    pub visible: &'a Region,
}

impl Site<'_> {
    /// The area of a command, in the screen's coordinates.
    pub fn area(&self, paint: &PaintView) -> Rect
        requires near { IsNearPaint (viewed paint.now) }
        requires origin { IsOrigin self.now.origin }
        ensures { (p : Point) → has_point result p
            ≡ has_point (area_of (viewed paint.now)) (before_shift p self.now.origin) }
    {
        paint.area().shift(self.origin)
    }

    /// The visible points that are unknown after an effect in an area, given those before it.
    pub fn unknown_after(
        &self,
        effect: Effect,
        area: &Region,
        unknown: Region,
    ) -> Result<Region, NoMemory>
        requires near { spec.IsNearEffect effect }
        requires visible { RegionLiesOn greatest_screen self.now.visible.now }
        requires seen { Includes self.now.visible.now unknown }
        ensures { IfOk result (λ r. (p : Point) → holds r p
            ≡ spec.unknown_after effect area.now self.now.visible.now unknown p) }
    {
        match effect {
            Effect::Tells => unknown.minus(area),
            Effect::Loses => unknown.union(&self.visible.meet(area)?),
            Effect::Keeps => Ok(unknown),
            Effect::Moves(delta) => self.unknown_after_move(delta, area, &unknown),
        }
    }

    /// The same, if each point of the area is known exactly if the point `delta` before it was.
    fn unknown_after_move(
        &self,
        delta: Point,
        area: &Region,
        unknown: &Region,
    ) -> Result<Region, NoMemory>
        requires delta { IsNearPoint delta }
        requires visible { RegionLiesOn greatest_screen self.now.visible.now }
        requires seen { Includes self.now.visible.now unknown.now }
        ensures { IfOk result (λ r. (p : Point) → holds r p
            ≡ spec.unknown_after (Effect.Moves delta) area.now self.now.visible.now unknown.now p) }
    {
        let known = self.moved(&self.visible.minus(unknown)?, delta)?;
        let lost = self.visible.meet(area)?.minus(&known)?;
        unknown.minus(area)?.union(&lost)
    }

    /// The points that an effect in an area moves: the visible ones whose source is visible.
    pub fn moved_by(&self, effect: Effect, area: &Region) -> Result<Region, NoMemory>
        requires near { spec.IsNearEffect effect }
        requires visible { RegionLiesOn greatest_screen self.now.visible.now }
        ensures { IfOk result (λ r. (p : Point) → holds r p
            ≡ spec.moved_by effect area.now self.now.visible.now p) }
    {
        match effect {
            Effect::Moves(delta) => {
                let moved = self.moved(self.visible, delta)?;
                self.visible.meet(area)?.meet(&moved)
            }
            _ => Ok(Region::empty(self.alloc)),
        }
    }

    /// Points of the screen, each moved by `delta`.
    fn moved(&self, region: &Region, delta: Point) -> Result<Region, NoMemory>
        requires delta { IsNearPoint delta }
        requires region { RegionLiesOn greatest_screen region.now }
        ensures { IfOk result (λ r. (p : Point) → holds r p ≡ holds region.now (before_shift p delta)) }
    {
        region.invariant();
        region.shift(delta)
    }
}
