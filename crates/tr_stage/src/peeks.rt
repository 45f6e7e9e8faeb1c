ghost use Rattle.std.specs.Prelude.{◌≡◌, ◌<◌, ◌&&◌, true, IfOk};
ghost use Rattle.tr_base.specs.declared.Point.{Point};
ghost use Rattle.tr_base.specs.declared.LeafId.{LeafId};
ghost use Rattle.tr_region.specs.Points.{holds};
ghost use Rattle.tr_screen.specs.Pictures.{pixel_of};
ghost use Rattle.tr_forest.specs.Nodes.{leaf_count};
ghost use Rattle.tr_surface.specs.Counts.{count_on};
ghost use Rattle.tr_journal.specs.Openings.{tree_of};
ghost use Rattle.tr_machine.specs.Paintings.{is_visible};
ghost use Rattle.tr_machine.specs.Pictures as spec;
ghost use Rattle.tr_machine.specs.Pictures.{is_stale, want};
ghost use Rattle.tr_stage.specs.Stages.{is_good_in, state};

use crate::counts::count_apart;
use crate::stages::Stage;
use tr_base::{LeafId, NoMemory};
use tr_client::Client;
use tr_journal::Peek3;
use tr_region::Region;
use tr_screen::Screen;

impl<C: Client> Stage<C> {
    /// The screen's lag: the numbers of bad points, of waiting paint commands and of stale points. It reads
    /// only the pixels of leaves with waiting commands.
    pub fn peek(&self) -> Result<Peek3, NoMemory>
        ensures bad { IfOk result (λ peek. peek.bad ≡ spec.bad_count (state C.Client self.now)) }
        ensures waiting { IfOk result (λ peek.
            peek.waiting ≡ spec.waiting_count C.Client (state C.Client self.now)) }
        ensures stale { IfOk result (λ peek.
            peek.stale ≡ spec.stale_count C.Client (state C.Client self.now)) }
    {
        self.invariant();
        let stale = self.stale_count()?;
        Ok(Peek3 {
            bad: self.bad_count(),
            waiting: self.windows.waiting(),
            stale,
        })
    }

    /// The number of bad points of the screen.
    pub fn bad_count(&self) -> u32
        ensures { result ≡ spec.bad_count (state C.Client self.now) }
    {
        self.invariant();
        self.surface.bad_count()
    }

    /// The number of points that are good but don't have their right colour. Only leaves with waiting
    /// commands can have such points.
    fn stale_count(&self) -> Result<u32, NoMemory>
        ensures { IfOk result (λ n. n ≡ spec.stale_count C.Client (state C.Client self.now)) }
    {
        self.invariant();
        if self.windows.waiting() == 0 {
            return Ok(0);
        }
        let screen = self.surface.screen();
        let mut wanted = Screen::blank(self.alloc, screen.size(), screen.kind())?;
        let mut count = 0;
        for n in 0..self.windows.count() {
            count += self.stale_in(LeafId(n), &mut wanted)?;
        }
        Ok(count)
    }

    /// The number of stale points of a leaf. The call may overwrite the leaf's points of `wanted`.
    fn stale_in(&self, leaf: LeafId, wanted: &mut Screen) -> Result<u32, NoMemory>
        requires leaf { leaf.0 < leaf_count (tree_of self.now.opening).nodes }
        requires size { wanted.old.size ≡ self.now.screen.size }
        requires kind { wanted.old.kind ≡ self.now.screen.kind }
        ensures count { let m = state C.Client self.now in IfOk result (λ n.
            n ≡ count_on m.tree.size (λ p. is_visible m leaf p && is_stale C.Client m p)) }
        ensures size { wanted.new.size ≡ wanted.old.size }
        ensures kind { wanted.new.kind ≡ wanted.old.kind }
    {
        self.invariant();
        if self.windows.batch(leaf).is_empty() {
            return Ok(0);
        }
        let good = self.paint_wanted(leaf, wanted)?;
        Ok(count_apart(&good, self.surface.screen(), wanted))
    }

    /// Gives each good visible point of a leaf its right colour, and returns these points.
    fn paint_wanted(&self, leaf: LeafId, wanted: &mut Screen) -> Result<Region, NoMemory>
        requires leaf { leaf.0 < leaf_count (tree_of self.now.opening).nodes }
        requires size { wanted.old.size ≡ self.now.screen.size }
        requires kind { wanted.old.kind ≡ self.now.screen.kind }
        ensures good { let m = state C.Client self.now in
            IfOk result (λ good. (p : Point) → holds good p ≡ is_good_in m leaf p) }
        ensures painted { let m = state C.Client self.now in
            IfOk result (λ good. (p : Point) → is_good_in m leaf p ≡ true →
            pixel_of wanted.new p ≡ want C.Client m p) }
        ensures size { wanted.new.size ≡ wanted.old.size }
        ensures kind { wanted.new.kind ≡ wanted.old.kind }
    {
        let good = self.surface.good_of(leaf).copy()?;
        self.paint_part(leaf, &good, wanted)?;
        Ok(good)
    }
}
