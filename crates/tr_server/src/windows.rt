ghost use Rattle.std.specs.Prelude.{◌≡◌, ◌+◌, ◌<◌, ◌++◌, ◌∷◌, ◌⊎◌, [], IfOk, OnOk, OnErr};
ghost use Rattle.tr_levels.specs.Levels.{HoldsNoLeaf};
ghost use Rattle.tr_journal.specs.declared.Actor.TheVariants.{Leaf};
ghost use Rattle.tr_server.specs.Handing.{HandedOver, HandedAndStepped};
ghost use Rattle.tr_server.specs.Passes.{CountsClientStep};

use crate::baskets::Basket;
use crate::passes::Pass;
use crate::sessions::Session;
use crate::tree_locks::Mu;
use std::marker::Model;
use std::sync::{Mutex, Wait};
use tr_base::{LeafId, NoMemory};
use tr_client::Client;
use tr_journal::Step;
use tr_levels::Ladder;

/// A leaf's window. Its lock protects the waiting commands of its client. The model is the leaf.
#[derive(Drop)]
pub struct Window<C: Client, L: Session<C::Cmd>> {
    pub(crate) leaf: LeafId,
    pub(crate) basket: Mutex<Basket<C, L>>,
}

impl<C: Client, L: Session<C::Cmd>> Model for Window<C, L> {
    ghost use Rattle.std.specs.Prelude.{◌<◌};
    ghost use Rattle.tr_base.specs.declared.LeafId.{LeafId};

    ghost Value = { LeafId };

    ghost view = { λ w. w.leaf };

    ghost invariant = { λ w. w.leaf.0 < L.leaves };
}

impl<C: Client, L: Session<C::Cmd>> Window<C, L> {
    /// A window with a book.
    pub(crate) fn new(leaf: LeafId, basket: Basket<C, L>) -> Window<C, L>
        requires { leaf.0 < L.leaves }
        ensures { result ≡ leaf }
    {
        Window {
            leaf,
            basket: Mutex::new(basket),
        }
    }

    /// The leaf.
    pub fn leaf(&self) -> LeafId
        ensures value { result ≡ self.now }
        ensures invariant { self.now.0 < L.leaves }
    {
        self.leaf
    }

    /// The window's client posts a command, under the window's lock alone. The command waits until it is
    /// handed over, at the level that the caller holds now and the window's. A client may post at most 64
    /// commands before it makes a step under the tree's lock. If memory runs out, the command is dropped.
    pub fn act<R: Wait>(
        &self,
        rt: &R,
        ladder: &Ladder,
        pass: &mut Pass<C, L>,
        cmd: C::Cmd,
    ) -> Result<(), NoMemory>
        requires actor { pass.old.actor ≡ Leaf self.now }
        requires posted { pass.old.posted < 64 }
        requires ladder { HoldsNoLeaf ladder.now }
        ensures ok { OnOk result (pass.new ≡ record pass.old {
          mine = pass.old.mine ++ Step.Act self.now cmd ∷ [];
          posted = pass.old.posted + 1;
        }) }
        ensures err { OnErr result (pass.new ≡ pass.old) }
    {
        let level = ladder.held();
        let mut basket = self.basket.lock(rt);
        pass.post_into(self.leaf, &mut *basket, level, cmd)
    }

    /// Draws the waiting commands apart from the screen, under the window's lock alone. The commands are then
    /// handed over without copies, and a flush may put the drawn pixels. This is a hint, with no promise.
    pub fn draw<R: Wait>(&self, rt: &R) {
        let mut guard = self.basket.lock(rt);
        let basket = &mut *guard;
        basket.draw();
    }

    /// Hands over the commands that wait in the window, and makes one more of its client, at the tree's
    /// lock and the window's. If memory runs out, this one isn't made, and either all of the waiting
    /// commands were handed over or none.
    pub fn act_under<R: Wait>(
        &self,
        rt: &R,
        mu: &mut Mu<'_, C, L>,
        pass: &mut Pass<C, L>,
        cmd: C::Cmd,
    ) -> Result<(), NoMemory>
        requires actor { pass.old.actor ≡ Leaf self.now }
        ensures opening { mu.new.opening ≡ mu.old.opening }
        ensures ok { OnOk result ((r : _) ×
            HandedAndStepped C.Client self.now (Step.Act self.now cmd) r mu.old mu.new) }
        ensures pass { CountsClientStep pass.old pass.new (Step.Act self.now cmd) result }
        ensures err { OnErr result ((mu.new.journal ≡ mu.old.journal)
            ⊎ HandedOver C.Client self.now mu.old mu.new) }
        ensures screen { OnOk result (mu.new.screen ≡ mu.old.screen) }
        ensures err_screen { OnErr result (mu.new.screen ≡ mu.old.screen) }
    {
        let leaf = self.leaf();
        mu.invariant();
        mu.client_step(rt, self, pass, Step::Act { leaf, cmd })?;
        Ok(())
    }
}
