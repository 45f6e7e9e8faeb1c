ghost use Rattle.std.specs.Prelude.{◌≡◌, ◌<◌, ◌&&◌, ℕ, not, true, false, is_none, length, slice_index_or, IfOk, OnOk, OnErr, Some};
ghost use Rattle.tr_base.specs.declared.Point.{Point};
ghost use Rattle.tr_base.specs.Rects.{before_shift};
ghost use Rattle.tr_region.specs.Points.{holds, Includes};
ghost use Rattle.tr_screen.specs.Pictures.{pixel_of};
ghost use Rattle.tr_screen.specs.Runs.{IsOn};
ghost use Rattle.tr_paint.specs.Batches.{touches};
ghost use Rattle.tr_paint.specs.Traces.{look_of};
ghost use Rattle.tr_exec.specs.Executions.{IsOrigin, RegionLiesOn, base_of, colour_after, known_base};

use crate::sites::Site;
use std::alloc::Global;
use tr_base::{Env, NoMemory, Point};
use tr_paint::Batch;
use tr_region::Region;
use tr_screen::Screen;

/// Executes the commands of a batch in their order, within the visible points of a window. Each
/// coordinate of its north-west corner `origin` is within -65,536 to 65,536. The commands are in the
/// window's coordinates, both regions in the screen's, and both lie on the screen. The screen's kind
/// is that of `env`.
///
/// At first the pixels of the visible points that aren't bad are known. Afterwards each visible
/// point whose colour is known has it, and the bad ones among the visible points are those whose
/// colour isn't known. A bad point may show anything if a command touches it.
///
/// All memory is taken before the first pixel is written, so after an `Err` nothing has changed.
pub fn execute(
    alloc: Global,
    batch: &Batch,
    env: &Env<'_>,
    origin: Point,
    visible: &Region,
    screen: &mut Screen,
    bad: &mut Region,
) -> Result<(), NoMemory>
    requires origin { IsOrigin origin }
    requires visible { RegionLiesOn screen.old.size visible.now }
    requires bad { RegionLiesOn screen.old.size bad.old }
    requires kind { env.now.kind ≡ screen.old.kind }

    // Each visible point whose colour is known has it.
    ensures known { let look = look_of env.now.kind env.now.font.now in
        let base = base_of origin visible.now bad.old screen.old in
        OnOk result ((p : Point) (x : ℕ) → holds visible.now p ≡ true →
        colour_after look base batch.now origin p ≡ Some x → pixel_of screen.new p ≡ x) }

    // The bad ones among the visible points are those whose colour isn't known.
    ensures unknown { let look = look_of env.now.kind env.now.font.now in
        let base = base_of origin visible.now bad.old screen.old in
        OnOk result ((p : Point) → holds visible.now p ≡ true →
        holds bad.new p ≡ is_none (colour_after look base batch.now origin p)) }

    // A visible point that no command touches keeps its pixel, known or not.
    ensures untouched { OnOk result ((p : Point) → holds visible.now p ≡ true →
        touches batch.now (before_shift p origin) ≡ false →
        pixel_of screen.new p ≡ pixel_of screen.old p) }

    // Outside the visible points nothing changes.
    ensures pixels { OnOk result ((p : Point) → IsOn screen.old.size p →
        holds visible.now p ≡ false → pixel_of screen.new p ≡ pixel_of screen.old p) }
    ensures others { OnOk result ((p : Point) → holds visible.now p ≡ false →
        holds bad.new p ≡ holds bad.old p) }
    ensures size { screen.new.size ≡ screen.old.size }
    ensures kind { screen.new.kind ≡ screen.old.kind }
    ensures err_screen { OnErr result (screen.new ≡ screen.old) }
    ensures err_bad { OnErr result (bad.new ≡ bad.old) }
{
    screen.invariant();
    let site = Site {
        alloc,
        origin,
        visible,
    };
    let plan = site.plan(batch, bad)?;
    site.paint_all(env, batch, &plan.moves, screen);
    *bad = plan.bad;
    Ok(())
}

/// The same, given the good visible points in place of the bad ones: their pixels are known at first. It
/// returns the visible points whose colour is known afterwards.
pub fn execute_known(
    alloc: Global,
    batch: &Batch,
    env: &Env<'_>,
    origin: Point,
    visible: &Region,
    good: &Region,
    screen: &mut Screen,
) -> Result<Region, NoMemory>
    requires origin { IsOrigin origin }
    requires visible { RegionLiesOn screen.old.size visible.now }
    requires good { Includes visible.now good.now }
    requires kind { env.now.kind ≡ screen.old.kind }

    // Each visible point whose colour is known has it.
    ensures known { let look = look_of env.now.kind env.now.font.now in
        let base = known_base origin visible.now good.now screen.old in
        OnOk result ((p : Point) (x : ℕ) → holds visible.now p ≡ true →
        colour_after look base batch.now origin p ≡ Some x → pixel_of screen.new p ≡ x) }

    // These points are returned.
    ensures good { let look = look_of env.now.kind env.now.font.now in
        let base = known_base origin visible.now good.now screen.old in
        IfOk result (λ r. (p : Point) → holds r p
        ≡ (holds visible.now p && not (is_none (colour_after look base batch.now origin p)))) }

    // A visible point that no command touches keeps its pixel, known or not.
    ensures untouched { OnOk result ((p : Point) → holds visible.now p ≡ true →
        touches batch.now (before_shift p origin) ≡ false →
        pixel_of screen.new p ≡ pixel_of screen.old p) }

    // Outside the visible points nothing changes.
    ensures pixels { OnOk result ((p : Point) → IsOn screen.old.size p →
        holds visible.now p ≡ false → pixel_of screen.new p ≡ pixel_of screen.old p) }
    ensures size { screen.new.size ≡ screen.old.size }
    ensures kind { screen.new.kind ≡ screen.old.kind }
    ensures err { OnErr result (screen.new ≡ screen.old) }
{
    screen.invariant();
    let site = Site {
        alloc,
        origin,
        visible,
    };
    let bad = visible.minus(good)?;
    let plan = site.plan(batch, &bad);
    drop(bad);
    let plan = plan?;
    let Ok(known) = visible.minus(&plan.bad) else {
        drop(plan);
        return Err(NoMemory);
    };
    site.paint_all(env, batch, &plan.moves, screen);
    drop(plan);
    Ok(known)
}
