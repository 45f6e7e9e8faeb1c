ghost use Rattle.std.specs.Prelude.{◌≡◌, true, IfOk};
ghost use Rattle.tr_base.specs.declared.Point.{Point};
ghost use Rattle.tr_base.specs.Rects.{before_shift};
ghost use Rattle.tr_region.specs.Points.{holds};
ghost use Rattle.tr_repair.specs.Near.{IsAround, IsDistance};

use tr_base::{NoMemory, Point};
use tr_region::Region;

/// The same points, each moved by `delta`. This is `Region::shift` with a condition on the points of the
/// region in place of its edges.
pub fn shifted(region: &Region, delta: Point) -> Result<Region, NoMemory>
    requires points { (p : Point) → holds region.now p ≡ true → IsAround p }
    requires delta { IsDistance delta }
    ensures { IfOk result (λ r. (p : Point) → holds r p ≡ holds region.now (before_shift p delta)) }
{
    region.invariant();
    region.shift(delta)
}
