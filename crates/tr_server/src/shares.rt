ghost use Rattle.std.specs.Prelude.{◌≡◌, ◌<◌, ◌∷◌, [], false, map, Ok, IfOk, OnOk, OnErr};
ghost use Rattle.tr_base.specs.declared.LeafId.{LeafId};
ghost use Rattle.tr_base.specs.declared.Point.{Point};
ghost use Rattle.tr_forest.specs.Nodes.{leaf_count};
ghost use Rattle.tr_levels.specs.declared.Level.TheVariants.{Share as ShareLevel};
ghost use Rattle.tr_journal.specs.declared.Actor.TheVariants.{Painter};
ghost use Rattle.tr_journal.specs.Openings.{tree_of};
ghost use Rattle.tr_machine.specs.States.{leaf_batch};
ghost use Rattle.tr_machine.specs.Pictures.{render};
ghost use Rattle.tr_machine.specs.SharedRepaints.{IsPaintedOf, sharing};
ghost use Rattle.tr_stage.specs.Making.{MakesWithoutReply};
ghost use Rattle.tr_stage.specs.Stages.{KeepsOthers, state};
ghost use Rattle.tr_server.specs.Passes.{CountsStep};
ghost use Rattle.tr_server.specs.Shares as spec;
ghost use Rattle.tr_server.specs.Shares.{ArePaintedShares, HasMade, HasBegun, IsPaintedShare};

use crate::passes::Pass;
use crate::sessions::Session;
use crate::tree_locks::Mu;
use std::alloc::Global;
use std::marker::Model;
use std::thread;
use std::thread::Threads;
use tr_base::{LeafId, NoMemory};
use tr_client::Client;
use tr_journal::Step;
use tr_stage::{Painted, Stage};

/// A leaf's window, lent to be painted apart from the screen. While it is lent, the stage can't change.
#[derive(Drop)]
pub struct Share<'a, C: Client> {
    leaf: LeafId,
    stage: &'a Stage<C>,
}

impl<'a, C: Client> Model for Share<'a, C> {
    ghost use Rattle.std.specs.Prelude.{◌<◌};
    ghost use Rattle.tr_forest.specs.Nodes.{leaf_count};
    ghost use Rattle.tr_journal.specs.Openings.{tree_of};
    ghost use Rattle.tr_server.specs.Shares.{ShareView};

    ghost Value = { ShareView C C.Cmd };

    ghost view = { λ s. record { leaf = s.leaf; stage = s.stage.now } };

    ghost invariant = { λ s. s.leaf.0 < leaf_count (tree_of s.stage.now.opening).nodes };
}

impl<C: Client> Share<'_, C> {
    /// The leaf of the window.
    pub fn leaf(&self) -> LeafId
        ensures { result ≡ self.now.leaf }
    {
        self.leaf
    }

    /// Paints the window's bad points, apart from the screen.
    pub fn paint(self) -> Result<Painted, NoMemory>
        ensures { IfOk result (λ painted. IsPaintedShare C.Client self.entry painted) }
    {
        self.stage.paint_bad(self.leaf)
    }

    /// Gives it back unpainted.
    pub fn give_back(self) {}
}

impl<C: Client, L: Session<C::Cmd>> Mu<'_, C, L> {
    /// A share for each leaf that has bad visible points and no waiting commands, in the order of the
    /// leaves' numbers. While a share lives, no step can be made.
    pub fn shares(&self) -> Result<Vec<Share<'_, C>>, NoMemory>
        ensures { IfOk result (λ shares. shares.items ≡ spec.shares_of C.Client self.now) }
    {
        self.guard.shares()
    }

    /// Puts a leaf's painted bad points onto the screen, while no command waits for the leaf. This is the
    /// painter's step `Repaint`, at the leaf's share alone. If memory runs out, no step is made.
    pub fn put_painted(&mut self, pass: &mut Pass<C, L>, painted: Painted) -> Result<(), NoMemory>
        requires painter { pass.old.actor ≡ Painter }
        requires leaf { painted.leaf.0 < leaf_count (tree_of self.old.opening).nodes }
        requires idle { leaf_batch C.Client (state C.Client self.old) painted.leaf ≡ [] }
        requires painted { let m = state C.Client self.old in
            IsPaintedOf C.Client m painted.leaf painted.part painted.pixels.items }
        ensures made { MakesWithoutReply C.Client self.old self.new Painter (ShareLevel painted.leaf ∷ [])
            (Step.Repaint painted.leaf) result }
        ensures pass { CountsStep pass.old pass.new (Step.Repaint painted.leaf) result }
        ensures others { let t = (state C.Client self.old).tree in
            OnOk result (KeepsOthers {M = C.Cmd} t (Step.Repaint painted.leaf)
            self.old.screen self.new.screen) }
    {
        let locked = &mut *self.guard;
        locked.put_painted(pass, painted)
    }

    /// Brings the screen up to date by way of shares. It flushes each leaf with waiting commands; paints
    /// the bad points of all leaves apart from the screen, on several threads if they are more than
    /// `FEW_POINTS`; puts them onto the screen leaf by leaf, each at its share alone; and paints the
    /// frames, if a point of one is bad. If memory runs out, the steps made so far remain.
    pub fn repaint_shared<R: Threads + Sync>(
        &mut self,
        rt: &R,
        pass: &mut Pass<C, L>,
    ) -> Result<(), NoMemory>
        requires { pass.old.actor ≡ Painter }
        ensures ok { OnOk result (HasMade C.Client self.old self.new pass.old pass.new
            (sharing C.Client (state C.Client self.old))) }
        ensures err { OnErr result (HasBegun C.Client self.old self.new pass.old pass.new
            (sharing C.Client (state C.Client self.old))) }

        // Then no command waits, no point is bad, and the screen is as if painted from nothing.
        ensures idle { let m = state C.Client self.new in
            OnOk result ((leaf : LeafId) → leaf_batch C.Client m leaf ≡ []) }
        ensures good { let m = state C.Client self.new in OnOk result ((p : Point) → m.bad p ≡ false) }
        ensures screen { OnOk result (self.new.screen ≡ render C.Client (state C.Client self.new)) }
    {
        let locked = &mut *self.guard;
        locked.repaint_shared(rt, pass)
    }
}

/// A share for each leaf that has a bad visible point and no waiting commands, in the order of the
/// leaves' numbers.
pub(crate) fn shares_of<C: Client>(
    alloc: Global,
    stage: &Stage<C>,
) -> Result<Vec<Share<'_, C>>, NoMemory>
    ensures { IfOk result (λ shares. shares.items ≡ spec.shares_of C.Client stage.now) }
{
    stage.invariant();
    let mut shares = Vec::new(alloc);
    for n in 0..stage.opening().tree().leaves() {
        let leaf = LeafId(n);
        if is_ready(stage, leaf)? {
            shares.push(Share { leaf, stage })?;
        }
    }
    Ok(shares)
}

/// Whether a leaf may be painted as a share.
fn is_ready<C: Client>(stage: &Stage<C>, leaf: LeafId) -> Result<bool, NoMemory>
    requires { leaf.0 < leaf_count (tree_of stage.now.opening).nodes }
    ensures { IfOk result (λ b. b ≡ spec.is_ready C.Client (state C.Client stage.now) leaf) }
{
    if stage.batch(leaf).len() != 0 {
        return Ok(false);
    }
    stage.has_bad(leaf)
}

/// Paints all shares side by side, each in a thread of its own if one can be started.
pub(crate) fn paint_each<C: Client, R: Threads + Sync>(
    rt: &R,
    alloc: Global,
    shares: Vec<Share<'_, C>>,
) -> Result<Vec<Painted>, NoMemory>
    ensures { IfOk result (λ all. ArePaintedShares C.Client shares.entry.items all.items) }
{
    let results = thread::map_vec(
        rt,
        shares,
        &|share: Share<'_, C>| -> Result<Painted, NoMemory>
            ensures { IfOk result (λ painted. IsPaintedShare C.Client share.entry painted) }
        { share.paint() },
    )?;
    all_ok(alloc, results)
}

/// The values of all results, or the first error.
fn all_ok<T: Drop>(alloc: Global, results: Vec<Result<T, NoMemory>>) -> Result<Vec<T>, NoMemory>
    ensures { IfOk result (λ all. map (λ x. Ok x) all.items ≡ results.items) }
{
    let mut all = Vec::new(alloc);
    for one in results {
        all.push(one?)?;
    }
    Ok(all)
}
