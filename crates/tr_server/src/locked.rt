ghost use Rattle.std.specs.Prelude.{◌≡◌, ◌+◌, ◌<◌, ◌≤◌, ◌++◌, ◌∷◌, ◌⊎◌, [], false, Some, IsTrue, length, take, IfOk, IfSome, OnOk, OnErr};
ghost use Rattle.tr_forest.specs.Nodes.{leaf_count};
ghost use Rattle.tr_spot.specs.Leaves.{leaf_size};
ghost use Rattle.tr_journal.specs.declared.Actor.TheVariants.{Leaf};
ghost use Rattle.tr_journal.specs.Openings.{font_of, tree_of};
ghost use Rattle.tr_journal.specs.Steps.{IsFor, IsOwn};
ghost use Rattle.tr_machine.specs.States.{content_of};
ghost use Rattle.tr_stage.specs.Making.{Makes};
ghost use Rattle.tr_stage.specs.Sketching.{IsSketchOf};
ghost use Rattle.tr_stage.specs.Standings.{Stands};
ghost use Rattle.tr_stage.specs.Stages.{KeepsOthers, line, paints, state};
ghost use Rattle.tr_server.specs.Handing.{with_acts};
ghost use Rattle.tr_server.specs.Passes.{CountsClientStep, CountsStep, both_locks};
ghost use Rattle.tr_server.specs.Sessions.{HasIds};

use crate::baskets::Basket;
use crate::drawings::Drawn;
use crate::passes::Pass;
use crate::sessions::Session;
use std::alloc::Global;
use std::marker::Model;
use std::sync::ledger::{Book as Total, Share};
use tr_base::{Kind, LeafId, NoMemory, Size};
use tr_book::Book;
use tr_client::{Client, Prepared};
use tr_journal::{Attempt, Reply, Step};
use tr_levels::{Held, Level};
use tr_sketch::Sketch;
use tr_stage::Stage;

/// The data protected by the tree's lock: the stage, whose first entries are those with which the session
/// began, and the total of the session's ledger, which is the number of entries after these. The model is
/// the stage.
#[derive(Drop)]
pub(crate) struct Locked<C: Client, L: Session<C::Cmd>> {
    pub(crate) alloc: Global,
    pub(crate) stage: Stage<C>,
    pub(crate) counted: Total<L>,
}

impl<C: Client, L: Session<C::Cmd>> Model for Locked<C, L> {
    ghost use Rattle.std.specs.Prelude.{◌≡◌, ◌+◌, length, take};
    ghost use Rattle.tr_journal.specs.Openings.{font_of};
    ghost use Rattle.tr_stage.specs.Stages.{StageView};
    ghost use Rattle.tr_server.specs.Sessions.{HasIds};

    ghost Value = { StageView C C.Cmd };

    ghost view = { λ k. k.stage };

    ghost invariant = { λ k. (L.entries + k.counted.total ≡ length k.stage.journal)
        × HasIds L.nodes L.leaves k.stage.opening × (take L.entries k.stage.journal ≡ L.kept)
        × (font_of k.stage.opening ≡ L.font) };
}

impl<C: Client, L: Session<C::Cmd>> Locked<C, L> {
    /// A stage. The total counts none of the entries that it has at the session's start.
    pub(crate) fn new(alloc: Global, stage: Stage<C>, counted: Total<L>) -> Locked<C, L>
        requires counted { L.entries + counted.total ≡ length stage.journal }
        requires ids { HasIds L.nodes L.leaves stage.opening }
        requires kept { take L.entries stage.journal ≡ L.kept }
        requires font { font_of stage.opening ≡ L.font }
        ensures { result ≡ stage }
    {
        Locked {
            alloc,
            stage,
            counted,
        }
    }

    /// Tells the invariant of locked stages. Nothing runs.
    pub(crate) fn invariant(&self)
        ensures ids { HasIds L.nodes L.leaves self.now.opening }
        ensures stands { Stands C.Client self.now }
        ensures leaves { length (state C.Client self.now).windows
            ≡ leaf_count (tree_of self.now.opening).nodes }
        ensures font { (state C.Client self.now).font ≡ L.font }
    {
        let _stage = self.stage();
        self.stage.invariant();
    }

    /// The stage.
    pub(crate) fn stage(&self) -> &Stage<C>
        ensures value { result.now ≡ self.now }
        ensures ids { HasIds L.nodes L.leaves self.now.opening }
    {
        &self.stage
    }

    /// The stage. Its first entries are those with which the session began, and a part of the ledger counts
    /// at most as many entries as were made in the session.
    pub(crate) fn end(self, share: Share<L>) -> Stage<C>
        ensures value { result ≡ self }
        ensures ids { HasIds L.nodes L.leaves result.opening }
        ensures counted { L.entries + share.amount ≤ length result.journal }
        ensures kept { take L.entries result.journal ≡ L.kept }
    {
        let Locked {
            alloc: _,
            stage,
            counted,
        } = self;
        let mut counted = counted;
        let mut share = share;
        counted.audit(&mut share);
        stage
    }

    /// The actor of a pass makes a step. If memory runs out, no step is made.
    pub(crate) fn step(
        &mut self,
        pass: &mut Pass<C, L>,
        level: Held,
        step: Step<C::Cmd>,
    ) -> Result<Reply, NoMemory>
        requires allowed { IsFor (tree_of self.old.opening).nodes pass.old.actor level step }
        ensures made { Makes C.Client self.old self.new pass.old.actor level step result }
        ensures pass { CountsStep pass.old pass.new step result }
        ensures screen { IfOk result (λ r. paints step r.answer ≡ false → self.new.screen ≡ self.old.screen) }
        ensures others { let t = (state C.Client self.old).tree in
            OnOk result (KeepsOthers t step self.old.screen self.new.screen) }
    {
        let Ok(mine) = step.copy(*pass.mine.allocator()) else {
            drop(step);
            return Err(NoMemory);
        };
        if let Err(refused) = pass.mine.push(mine) {
            drop((refused, step));
            return Err(NoMemory);
        }
        let actor = pass.actor;
        match self.stage.step(Attempt { actor, level, step }) {
            Ok(reply) => {
                self.counted.add(&mut pass.share, 1);
                Ok(reply)
            }
            Err(e) => {
                drop(pass.mine.pop());
                Err(e)
            }
        }
    }

    /// The same, given a sketch of a leaf's present content, if there is one: a flush of that leaf may put
    /// it.
    fn step_with(
        &mut self,
        pass: &mut Pass<C, L>,
        level: Held,
        step: Step<C::Cmd>,
        sketch: (LeafId, Option<Sketch<C>>),
    ) -> Result<Reply, NoMemory>
        requires allowed { IsFor (tree_of self.old.opening).nodes pass.old.actor level step }
        requires sketch { IfSome sketch.1 (IsSketchOf C.Client (state C.Client self.old) sketch.0) }
        ensures made { Makes C.Client self.old self.new pass.old.actor level step result }
        ensures pass { CountsStep pass.old pass.new step result }
        ensures screen { IfOk result (λ r. paints step r.answer ≡ false → self.new.screen ≡ self.old.screen) }
        ensures others { let t = (state C.Client self.old).tree in
            OnOk result (KeepsOthers t step self.old.screen self.new.screen) }
    {
        let (leaf, sketch) = sketch;
        let Some(sketch) = sketch else {
            return self.step(pass, level, step);
        };
        match step {
            Step::Flush { leaf: at } if at == leaf => self.flush_with(pass, level, leaf, &sketch),
            step => self.step(pass, level, step),
        }
    }

    /// The actor of a pass flushes a leaf with a sketch of the leaf's present content. If memory runs out, no
    /// step is made.
    fn flush_with(
        &mut self,
        pass: &mut Pass<C, L>,
        level: Held,
        leaf: LeafId,
        sketch: &Sketch<C>,
    ) -> Result<Reply, NoMemory>
        requires allowed { let t = (tree_of self.old.opening).nodes in
            IsFor {M = C.Cmd} t pass.old.actor level (Step.Flush leaf) }
        requires sketch { IsSketchOf C.Client (state C.Client self.old) leaf sketch.now }
        ensures made { Makes C.Client self.old self.new pass.old.actor level (Step.Flush leaf) result }
        ensures pass { CountsStep pass.old pass.new (Step.Flush leaf) result }
        ensures others { let t = (state C.Client self.old).tree in
            OnOk result (KeepsOthers {M = C.Cmd} t (Step.Flush leaf) self.old.screen self.new.screen) }
    {
        if let Err(refused) = pass.mine.push(Step::Flush { leaf }) {
            drop(refused);
            return Err(NoMemory);
        }
        match self.stage.flush_with(pass.actor, level, leaf, sketch) {
            Ok(reply) => {
                self.counted.add(&mut pass.share, 1);
                Ok(reply)
            }
            Err(e) => {
                drop(pass.mine.pop());
                Err(e)
            }
        }
    }

    /// Hands over the waiting commands of a leaf's book: one entry for each command, in their order, at the
    /// command's level and the window's. If memory runs out, the stage is unchanged, and the same
    /// commands wait.
    pub(crate) fn hand_over(
        &mut self,
        leaf: LeafId,
        basket: &mut Basket<C, L>,
    ) -> Result<(), NoMemory>
        requires leaf { leaf.0 < leaf_count (tree_of self.old.opening).nodes }
        ensures opening { self.new.opening ≡ self.old.opening }
        ensures screen { self.new.screen ≡ self.old.screen }
        ensures ok { OnOk result (self.new.journal ≡
            (with_acts C.Client self.old leaf basket.old.prepared.commands basket.old.levels).journal) }
        ensures none { OnOk result (basket.new.prepared.commands ≡ []) }
        ensures no_levels { OnOk result (basket.new.levels ≡ []) }
        ensures handed { OnOk result (basket.new.handed ≡
            basket.old.handed + length basket.old.prepared.commands) }
        ensures err_journal { OnErr result (self.new.journal ≡ self.old.journal) }
        ensures err_commands { OnErr result (basket.new.prepared.commands ≡ basket.old.prepared.commands) }
        ensures err_levels { OnErr result (basket.new.levels ≡ basket.old.levels) }
        ensures err_handed { OnErr result (basket.new.handed ≡ basket.old.handed) }
    {
        let sketch = self.hand_over_drawn(leaf, basket)?;
        drop(sketch);
        Ok(())
    }

    /// Like `hand_over`. If the waiting commands were drawn, and are prepared over the leaf's present
    /// content, it also returns the sketch, which shows the content after them.
    fn hand_over_drawn(
        &mut self,
        leaf: LeafId,
        basket: &mut Basket<C, L>,
    ) -> Result<Option<Sketch<C>>, NoMemory>
        requires leaf { leaf.0 < leaf_count (tree_of self.old.opening).nodes }
        ensures opening { self.new.opening ≡ self.old.opening }
        ensures screen { self.new.screen ≡ self.old.screen }
        ensures ok { OnOk result (self.new.journal ≡
            (with_acts C.Client self.old leaf basket.old.prepared.commands basket.old.levels).journal) }
        ensures sketch { IfOk result (λ o. IfSome o (IsSketchOf C.Client (state C.Client self.new) leaf)) }
        ensures none { OnOk result (basket.new.prepared.commands ≡ []) }
        ensures no_levels { OnOk result (basket.new.levels ≡ []) }
        ensures handed { OnOk result (basket.new.handed ≡
            basket.old.handed + length basket.old.prepared.commands) }
        ensures err_journal { OnErr result (self.new.journal ≡ self.old.journal) }
        ensures err_commands { OnErr result (basket.new.prepared.commands ≡ basket.old.prepared.commands) }
        ensures err_levels { OnErr result (basket.new.levels ≡ basket.old.levels) }
        ensures err_handed { OnErr result (basket.new.handed ≡ basket.old.handed) }
    {
        // For most windows no command waits, most of the time: then nothing is compared, and nothing copied.
        if basket.waiting() == 0 {
            return Ok(None);
        }
        self.invariant();
        let Some(Drawn { sketch, spare }) = basket.drawn.take() else {
            self.hand_over_copies(leaf, basket)?;
            return Ok(None);
        };
        if fits(&self.stage, leaf, basket.book.prepared()) {
            self.hand_over_all(leaf, basket, spare)?;
            return Ok(Some(sketch));
        }
        drop((sketch, spare));
        self.hand_over_copies(leaf, basket)?;
        Ok(None)
    }

    /// Hands over copies of the waiting commands.
    fn hand_over_copies(&mut self, leaf: LeafId, basket: &mut Basket<C, L>) -> Result<(), NoMemory>
        requires leaf { leaf.0 < leaf_count (tree_of self.old.opening).nodes }
        ensures opening { self.new.opening ≡ self.old.opening }
        ensures screen { self.new.screen ≡ self.old.screen }
        ensures ok { OnOk result (self.new.journal ≡
            (with_acts C.Client self.old leaf basket.old.prepared.commands basket.old.levels).journal) }
        ensures none { OnOk result (basket.new.prepared.commands ≡ []) }
        ensures no_levels { OnOk result (basket.new.levels ≡ []) }
        ensures handed { OnOk result (basket.new.handed ≡
            basket.old.handed + length basket.old.prepared.commands) }
        ensures err_journal { OnErr result (self.new.journal ≡ self.old.journal) }
        ensures err_commands { OnErr result (basket.new.prepared.commands ≡ basket.old.prepared.commands) }
        ensures err_levels { OnErr result (basket.new.levels ≡ basket.old.levels) }
        ensures err_handed { OnErr result (basket.new.handed ≡ basket.old.handed) }
    {
        self.invariant();
        // The drawing may show an old content.
        drop(basket.drawn.take());
        self.counted.audit(&mut basket.share);
        fit(self.alloc, &self.stage, leaf, &mut basket.book)?;
        let from = basket.book.prepared().to.copy(self.alloc)?;
        let more = basket.book.waiting() as u64;
        let taken = self
            .stage
            .take_over(leaf, basket.book.prepared(), basket.book.levels());
        let Ok(()) = taken else {
            drop(from);
            return Err(NoMemory);
        };
        // Tells the prover that the entries can be counted.
        let _ = self.stage.journal().len();
        self.counted.add(&mut basket.share, more);
        basket.book.restart(from);
        Ok(())
    }

    /// Hands over the waiting commands, which fit the leaf's present content, by moving them.
    fn hand_over_all(
        &mut self,
        leaf: LeafId,
        basket: &mut Basket<C, L>,
        spare: Prepared<C>,
    ) -> Result<(), NoMemory>
        requires leaf { leaf.0 < leaf_count (tree_of self.old.opening).nodes }
        requires spare { spare.commands.items ≡ [] }
        requires spare_font { spare.font ≡ L.font }
        requires from { content_of C.Client (state C.Client self.old) leaf
            ≡ Some basket.old.prepared.from }
        requires font { basket.old.prepared.font ≡ (state C.Client self.old).font }
        requires size { basket.old.prepared.size ≡ leaf_size (state C.Client self.old).tree leaf }
        requires kind { basket.old.prepared.kind ≡ (state C.Client self.old).tree.kind }
        ensures opening { self.new.opening ≡ self.old.opening }
        ensures screen { self.new.screen ≡ self.old.screen }
        ensures ok { OnOk result (self.new.journal ≡
            (with_acts C.Client self.old leaf basket.old.prepared.commands basket.old.levels).journal) }
        ensures none { OnOk result (basket.new.prepared.commands ≡ []) }
        ensures no_levels { OnOk result (basket.new.levels ≡ []) }
        ensures handed { OnOk result (basket.new.handed ≡
            basket.old.handed + length basket.old.prepared.commands) }
        ensures err_journal { OnErr result (self.new.journal ≡ self.old.journal) }
        ensures err_commands { OnErr result (basket.new.prepared.commands ≡ basket.old.prepared.commands) }
        ensures err_levels { OnErr result (basket.new.levels ≡ basket.old.levels) }
        ensures err_handed { OnErr result (basket.new.handed ≡ basket.old.handed) }
    {
        drop(basket.drawn.take());
        self.counted.audit(&mut basket.share);
        let more = basket.book.waiting() as u64;
        let (prepared, levels) = basket.book.give(spare);
        if let Err(prepared) = self.stage.take_all(leaf, prepared, &levels) {
            basket.book.take_back(prepared, levels);
            return Err(NoMemory);
        }
        drop(levels);
        // Tells the prover that the entries can be counted.
        let _ = self.stage.journal().len();
        self.counted.add(&mut basket.share, more);
        basket.book.count(more);
        Ok(())
    }

    /// Hands over the waiting commands of the leaf's book, and then makes a step of its client. If memory
    /// runs out, the step isn't made, but the commands may be handed over.
    pub(crate) fn client_step(
        &mut self,
        leaf: LeafId,
        basket: &mut Basket<C, L>,
        pass: &mut Pass<C, L>,
        step: Step<C::Cmd>,
    ) -> Result<Reply, NoMemory>
        requires leaf { leaf.0 < leaf_count (tree_of self.old.opening).nodes }
        requires actor { pass.old.actor ≡ Leaf leaf }
        requires own { IsOwn (tree_of self.old.opening).nodes pass.old.actor step }
        ensures opening { self.new.opening ≡ self.old.opening }
        ensures ok { let cmds = basket.old.prepared.commands in
            let mid = with_acts C.Client self.old leaf cmds basket.old.levels in
            OnOk result (self.new.journal ≡ mid.journal
            ++ line C.Client mid (Leaf leaf) (both_locks leaf) step ∷ []) }
        ensures reply { let cmds = basket.old.prepared.commands in
            let mid = with_acts C.Client self.old leaf cmds basket.old.levels in
            IfOk result (λ r. r ≡ (line C.Client mid (Leaf leaf) (both_locks leaf) step).entry.reply) }
        ensures none { OnOk result (basket.new.prepared.commands ≡ []) }
        ensures no_levels { OnOk result (basket.new.levels ≡ []) }
        ensures handed { OnOk result (basket.new.handed ≡
            basket.old.handed + length basket.old.prepared.commands) }
        ensures pass { CountsClientStep pass.old pass.new step result }
        ensures err_screen { OnErr result (self.new.screen ≡ self.old.screen) }

        // The screen stays as it is, unless the step paints; and where it may not paint, each pixel stays.
        ensures screen { IfOk result (λ r. paints step r.answer ≡ false → self.new.screen ≡ self.old.screen) }
        ensures others { let t = (state C.Client self.old).tree in
            OnOk result (KeepsOthers t step self.old.screen self.new.screen) }

        // If memory runs out, the commands still wait, or they were handed over, and no other step was made.
        ensures err { let cmds = basket.old.prepared.commands in let levels = basket.old.levels in
            OnErr result (((self.new.journal ≡ self.old.journal) × (basket.new.prepared.commands ≡ cmds)
            × (basket.new.levels ≡ levels))
            ⊎ ((self.new.journal ≡ (with_acts C.Client self.old leaf cmds levels).journal)
            × (basket.new.prepared.commands ≡ []) × (basket.new.levels ≡ []))) }
    {
        basket.invariant();
        let Ok(sketch) = self.hand_over_drawn(leaf, basket) else {
            drop(step);
            return Err(NoMemory);
        };
        let level = Held::none().with(Level::Mu).with(Level::Win(leaf));
        let is_changed = may_change(&step);
        let reply = self.step_with(pass, level, step, (leaf, sketch))?;
        pass.posted = 0;
        self.fit_if(is_changed, leaf, basket);
        Ok(reply)
    }

    /// After a step of the leaf's client. If it may have changed the content, the client's next commands are
    /// prepared over the new content. If memory runs out, they are prepared again when they are handed over.
    fn fit_if(&self, is_changed: bool, leaf: LeafId, basket: &mut Basket<C, L>)
        requires leaf { leaf.0 < leaf_count (tree_of self.now.opening).nodes }
        ensures commands { basket.new.prepared.commands ≡ basket.old.prepared.commands }
        ensures levels { basket.new.levels ≡ basket.old.levels }
        ensures handed { basket.new.handed ≡ basket.old.handed }
    {
        self.invariant();
        // A drawing of no commands shows the content before the step.
        drop(basket.drawn.take());
        if is_changed {
            let _ = fit(self.alloc, &self.stage, leaf, &mut basket.book);
        }
    }
}

/// Whether a step may change the content of its client's window.
fn may_change<M>(step: &Step<M>) -> bool {
    matches!(step, Step::Act { .. } | Step::Take { .. })
}

/// Whether commands are prepared over the leaf's present content, for its size and the screen's kind. Their
/// font is the stage's, by the invariants of both locks.
fn fits<C: Client>(stage: &Stage<C>, leaf: LeafId, prepared: &Prepared<C>) -> bool
    requires leaf { leaf.0 < leaf_count (tree_of stage.now.opening).nodes }
    ensures from { IsTrue result → content_of C.Client (state C.Client stage.now) leaf
        ≡ Some prepared.now.from }
    ensures size { IsTrue result → prepared.now.size ≡ leaf_size (state C.Client stage.now).tree leaf }
    ensures kind { IsTrue result → prepared.now.kind ≡ (state C.Client stage.now).tree.kind }
{
    let content = stage.content(leaf);
    let kind = stage.tree().kind();
    is_current(prepared, content, stage.leaf_size(leaf), kind)
}

/// Prepares a book's commands over the leaf's present content, unless they are prepared over it already.
fn fit<C: Client>(
    alloc: Global,
    stage: &Stage<C>,
    leaf: LeafId,
    book: &mut Book<C>,
) -> Result<(), NoMemory>
    requires leaf { leaf.0 < leaf_count (tree_of stage.now.opening).nodes }
    requires font { book.old.prepared.font ≡ (state C.Client stage.now).font }
    ensures from { OnOk result (content_of C.Client (state C.Client stage.now) leaf
        ≡ Some book.new.prepared.from) }
    ensures font { book.new.prepared.font ≡ (state C.Client stage.now).font }
    ensures size { OnOk result (book.new.prepared.size ≡ leaf_size (state C.Client stage.now).tree leaf) }
    ensures kind { OnOk result (book.new.prepared.kind ≡ (state C.Client stage.now).tree.kind) }
    ensures commands { book.new.prepared.commands ≡ book.old.prepared.commands }
    ensures levels { book.new.levels ≡ book.old.levels }
    ensures handed { book.new.handed ≡ book.old.handed }
{
    let content = stage.content(leaf);
    let size = stage.leaf_size(leaf);
    let kind = stage.tree().kind();
    if !is_current(book.prepared(), content, size, kind) {
        book.refit(content.copy(alloc)?, stage.font(), size, kind)?;
    }
    Ok(())
}

/// Whether commands were prepared over this content, for this size and kind. The cheapest facts are compared
/// first.
fn is_current<C: Client>(prepared: &Prepared<C>, content: &C, size: Size, kind: Kind) -> bool
    ensures from { IsTrue result → prepared.now.from ≡ content.now }
    ensures size { IsTrue result → prepared.now.size ≡ size }
    ensures kind { IsTrue result → prepared.now.kind ≡ kind }
{
    if prepared.size != size {
        return false;
    }
    if prepared.kind != kind {
        return false;
    }
    prepared.from.same(content)
}
