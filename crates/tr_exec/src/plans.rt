ghost use Rattle.std.specs.Prelude.{◌≡◌, ◌&&◌, ◌||◌, not, length, IfOk};
ghost use Rattle.std.specs.List.{AllZip};
ghost use Rattle.tr_base.specs.declared.Point.{Point};
ghost use Rattle.tr_region.specs.Points.{holds};
ghost use Rattle.tr_screen.specs.Pictures.{Picture};
ghost use Rattle.tr_paint.specs.Traces.{Look};
ghost use Rattle.tr_exec.specs.Executions.{IsOrigin, RegionLiesOn, greatest_screen, base_of};
ghost use Rattle.tr_exec.specs.Unknown.{IsMovedBy, bad_after};

use crate::effects::{effect_of, keeps_known};
use crate::sites::Site;
use tr_base::NoMemory;
use tr_paint::{Batch, Paint};
use tr_region::Region;

/// The results that are computed before the first pixel is written, so that no memory is needed afterwards.
#[derive(Drop)]
pub(crate) struct Plan {
    /// The points that each command of the batch moves.
    pub moves: Vec<Region>,
    /// The bad points after the batch.
    pub bad: Region,
}

impl Site<'_> {
    /// The points that a batch will move, and the points that are bad after it.
    pub fn plan(&self, batch: &Batch, bad: &Region) -> Result<Plan, NoMemory>
        requires origin { IsOrigin self.now.origin }
        requires visible { RegionLiesOn greatest_screen self.now.visible.now }
        ensures moves { IfOk result (λ plan.
            AllZip (IsMovedBy self.now.origin self.now.visible.now) batch.now plan.moves.items) }
        ensures count { IfOk result (λ plan. length plan.moves.items ≡ length batch.now) }
        ensures bad { IfOk result (λ plan. (look : Look) (screen : Picture) (p : Point) →
            holds plan.bad p ≡ bad_after look (base_of self.now.origin self.now.visible.now bad.now screen)
            batch.now self.now.origin self.now.visible.now bad.now p) }
    {
        // Names `Paint`, so that the borrow checker knows the types that a view lends.
        let _none: Option<Paint> = None;
        let mut moves = Vec::with_capacity(self.alloc, batch.len())?;
        let mut unknown = self.visible.meet(bad)?;
        for i in 0..batch.len() {
            let paint = batch.get(i);
            let effect = effect_of(&paint);
            if keeps_known(effect, &unknown) {
                moves.push(Region::empty(self.alloc))?;
            } else {
                let area = Region::of_rect(self.alloc, self.area(&paint))?;
                moves.push(self.moved_by(effect, &area)?)?;
                unknown = self.unknown_after(effect, &area, unknown)?;
            }
        }
        let bad = bad.minus(self.visible)?.union(&unknown)?;
        Ok(Plan { moves, bad })
    }
}
