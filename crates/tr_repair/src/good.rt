ghost use Rattle.std.specs.Prelude.{◌≡◌, ◌↔◌, ◌&&◌, ◌||◌, true, length, IfOk};
ghost use Rattle.tr_base.specs.declared.Point.{Point};
ghost use Rattle.tr_region.specs.Points.{holds};
ghost use Rattle.tr_repair.specs.Good.{StaysInOne, stays_below};

use std::alloc::Global;
use tr_base::NoMemory;
use tr_region::Region;

/// The points of `good` that lie in `old[i]` and in `new[i]` for some i. If the two lists have the
/// visible parts of the same windows, these are the good points that show the same as before.
pub fn still_good(
    alloc: Global,
    good: &Region,
    old: &[Region],
    new: &[Region],
) -> Result<Region, NoMemory>
    requires { length old.now ≡ length new.now }
    ensures points { IfOk result (λ r. (p : Point) →
        holds r p ≡ stays_below (length new.now) old.now new.now p && holds good.now p) }
    ensures exactly { IfOk result (λ r. (p : Point) →
        (holds r p ≡ true) ↔ (StaysInOne old.now new.now p × (holds good.now p ≡ true))) }
{
    let mut all = Region::empty(alloc);
    for i in 0..new.len() {
        all = with_common(&all, &old[i], &new[i])?;
    }
    let still = all.meet(good)?;
    Ok(still)
}

/// The points of `all`, and those that the other two have in common.
fn with_common(all: &Region, old: &Region, new: &Region) -> Result<Region, NoMemory>
    ensures { IfOk result (λ r. (p : Point) →
        holds r p ≡ holds all.now p || (holds old.now p && holds new.now p)) }
{
    all.union(&old.meet(new)?)
}
