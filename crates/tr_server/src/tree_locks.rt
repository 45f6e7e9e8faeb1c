ghost use Rattle.std.specs.Prelude.{◌≡◌, ◌∷◌, ◌⊎◌, [], false, IfOk, OnOk, OnErr};
ghost use Rattle.tr_levels.specs.declared.Level.TheVariants.{Mu as MuLevel};
ghost use Rattle.tr_journal.specs.declared.Actor.TheVariants.{Leaf};
ghost use Rattle.tr_journal.specs.Openings.{tree_of};
ghost use Rattle.tr_journal.specs.Steps.{IsOwn};
ghost use Rattle.tr_stage.specs.Making.{Makes};
ghost use Rattle.tr_stage.specs.Stages.{KeepsOthers, paints, state};
ghost use Rattle.tr_server.specs.Handing.{HandedOver, HandedAndStepped};
ghost use Rattle.tr_server.specs.Passes.{CountsClientStep, CountsStep, is_client};
ghost use Rattle.tr_server.specs.Sessions.{HasIds};

use crate::locked::Locked;
use crate::passes::Pass;
use crate::sessions::Session;
use crate::windows::Window;
use std::marker::Model;
use std::sync::atomic::{AtomicBool, Ordering};
use std::sync::{MutexGuard, Wait};
use tr_base::NoMemory;
use tr_client::Client;
use tr_journal::{Reply, Step};
use tr_levels::{Held, Ladder, Level};
use tr_stage::Stage;

/// The tree's lock, while a thread holds it. Only `leave` releases it. The model is the stage.
pub struct Mu<'a, C: Client, L: Session<C::Cmd>> {
    pub(crate) guard: MutexGuard<'a, Locked<C, L>>,
    pub(crate) is_taken: &'a AtomicBool,
}

impl<'a, C: Client, L: Session<C::Cmd>> Model for Mu<'a, C, L> {
    ghost use Rattle.std.specs.Sync.Mutex.{mutex_guard_value};
    ghost use Rattle.tr_stage.specs.Stages.{StageView};

    ghost Value = { StageView C C.Cmd };

    ghost view = { λ m. mutex_guard_value m.guard };
}

impl<C: Client, L: Session<C::Cmd>> Mu<'_, C, L> {
    /// Tells the invariant of a server's stage. Nothing runs.
    pub fn invariant(&self)
        ensures { HasIds L.nodes L.leaves self.now.opening }
    {
        let _stage = self.stage();
    }

    /// The stage.
    pub fn stage(&self) -> &Stage<C>
        ensures value { result.now ≡ self.now }
        ensures invariant { HasIds L.nodes L.leaves self.now.opening }
    {
        self.guard.stage()
    }

    /// The desk, the painter or the player makes a step, at the tree's lock alone. If memory runs out, no
    /// step is made.
    pub fn step(&mut self, pass: &mut Pass<C, L>, step: Step<C::Cmd>) -> Result<Reply, NoMemory>
        requires actor { is_client pass.old.actor ≡ false }
        requires own { IsOwn (tree_of self.old.opening).nodes pass.old.actor step }
        ensures made { Makes C.Client self.old self.new pass.old.actor (MuLevel ∷ []) step result }
        ensures pass { CountsStep pass.old pass.new step result }
        ensures screen { IfOk result (λ r. paints step r.answer ≡ false → self.new.screen ≡ self.old.screen) }
        ensures others { let t = (state C.Client self.old).tree in
            OnOk result (KeepsOthers t step self.old.screen self.new.screen) }
    {
        let level = Held::none().with(Level::Mu);
        let locked = &mut *self.guard;
        locked.step(pass, level, step)
    }

    /// Hands over the commands that wait in a window, in their order, each at its level and the window's. If
    /// memory runs out, no command is handed over, and the same commands wait.
    pub fn hand_over<R: Wait>(&mut self, rt: &R, window: &Window<C, L>) -> Result<(), NoMemory>
        ensures opening { self.new.opening ≡ self.old.opening }
        ensures screen { self.new.screen ≡ self.old.screen }
        ensures ok { OnOk result (HandedOver C.Client window.now self.old self.new) }
        ensures err { OnErr result (self.new.journal ≡ self.old.journal) }
    {
        let locked = &mut *self.guard;
        locked.invariant();
        let leaf = window.leaf();
        let mut guard = window.basket.lock(rt);
        let basket = &mut *guard;
        basket.invariant();
        locked.hand_over(leaf, basket)
    }

    /// Hands over the commands that wait in a window, and makes a step of its client, at the tree's lock
    /// and the window's. If memory runs out, the step isn't made, and either all of the commands were
    /// handed over or none.
    pub fn client_step<R: Wait>(
        &mut self,
        rt: &R,
        window: &Window<C, L>,
        pass: &mut Pass<C, L>,
        step: Step<C::Cmd>,
    ) -> Result<Reply, NoMemory>
        requires actor { pass.old.actor ≡ Leaf window.now }
        requires own { IsOwn (tree_of self.old.opening).nodes pass.old.actor step }
        ensures opening { self.new.opening ≡ self.old.opening }
        ensures ok { IfOk result (λ r. HandedAndStepped C.Client window.now step r self.old self.new) }
        ensures pass { CountsClientStep pass.old pass.new step result }
        ensures err { OnErr result ((self.new.journal ≡ self.old.journal)
            ⊎ HandedOver C.Client window.now self.old self.new) }
        ensures screen { IfOk result (λ r. paints step r.answer ≡ false → self.new.screen ≡ self.old.screen) }
        ensures others { let t = (state C.Client self.old).tree in
            OnOk result (KeepsOthers t step self.old.screen self.new.screen) }
        ensures err_screen { OnErr result (self.new.screen ≡ self.old.screen) }
    {
        let locked = &mut *self.guard;
        locked.invariant();
        let leaf = window.leaf();
        let mut guard = window.basket.lock(rt);
        let basket = &mut *guard;
        basket.invariant();
        locked.client_step(leaf, basket, pass, step)
    }

    /// Releases the lock, after which the thread holds none.
    pub fn leave(self) -> Ladder
        ensures { result ≡ [] }
    {
        let Mu { guard, is_taken } = self;
        is_taken.store(false, Ordering::SeqCst);
        drop(guard);
        Ladder::ground()
    }
}
