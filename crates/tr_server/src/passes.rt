ghost use Rattle.std.specs.Prelude.{◌≡◌, ◌+◌, ◌<◌, ◌++◌, ◌∷◌, [], OnOk, OnErr};
ghost use Rattle.tr_levels.specs.Levels.{HoldsNoLeaf};
ghost use Rattle.tr_server.specs.Passes.{fresh_pass};

use crate::baskets::Basket;
use crate::sessions::Session;
use std::alloc::Global;
use std::marker::Model;
use std::sync::ledger::Share;
use tr_base::{Command, LeafId, NoMemory};
use tr_client::Client;
use tr_journal::{Actor, Step};
use tr_levels::Held;

/// The token of an actor in a session, with the list of the steps that the actor made with it. It can't be
/// dropped: `Server::close` consumes it.
pub struct Pass<C: Client, L: Session<C::Cmd>> {
    pub(crate) actor: Actor,
    pub(crate) mine: Vec<Step<C::Cmd>>,
    pub(crate) posted: u8,
    pub(crate) share: Share<L>,
}

impl<C: Client, L: Session<C::Cmd>> Model for Pass<C, L> {
    ghost use Rattle.std.specs.Prelude.{◌≡◌};
    ghost use Rattle.tr_server.specs.Passes.{PassView};

    ghost Value = { PassView C.Cmd };

    ghost view = { λ p. record {
      actor = p.actor;
      mine = p.mine.items;
      posted = p.posted;
      made = p.share.amount;
    } };

    ghost invariant = { λ p. p.share.parts ≡ 1 };
}

/// The passes of a session. `workers` has those of the leaves' clients, by the leaves' numbers, then the
/// desk's, then the painter's; `player` is the player's.
pub struct Passes<C: Client, L: Session<C::Cmd>> {
    pub workers: Vec<Pass<C, L>>,
    pub player: Pass<C, L>,
}

impl<C: Client, L: Session<C::Cmd>> Pass<C, L> {
    /// A pass with which no step was made.
    pub(crate) fn fresh(alloc: Global, actor: Actor, share: Share<L>) -> Pass<C, L>
        requires { (share.parts ≡ 1) × (share.amount ≡ 0) }
        ensures { result ≡ fresh_pass actor }
    {
        Pass {
            actor,
            mine: Vec::new(alloc),
            posted: 0,
            share,
        }
    }

    /// The actor that makes steps with it.
    pub fn actor(&self) -> Actor
        ensures { result ≡ self.now.actor }
    {
        self.actor
    }

    /// The steps that were made with it, in their order.
    pub fn mine(&self) -> &[Step<C::Cmd>]
        ensures { result.now ≡ self.now.mine }
    {
        &self.mine
    }

    /// Makes room for `steps` more steps.
    pub fn reserve(&mut self, steps: usize) -> Result<(), NoMemory>
        ensures { self.new ≡ self.old }
    {
        self.mine.reserve(steps)?;
        Ok(())
    }

    /// The number of commands posted with it since its last step under the tree's lock.
    pub fn posted(&self) -> u8
        ensures { result ≡ self.now.posted }
    {
        self.posted
    }

    /// Posts a command of a leaf: it waits after the others, at the level that its caller holds. If memory
    /// runs out, it is dropped.
    pub(crate) fn post_into(
        &mut self,
        leaf: LeafId,
        basket: &mut Basket<C, L>,
        level: Held,
        cmd: C::Cmd,
    ) -> Result<(), NoMemory>
        requires posted { self.old.posted < 64 }
        requires level { HoldsNoLeaf level }
        ensures ok { OnOk result (self.new ≡ record self.old {
          mine = self.old.mine ++ Step.Act leaf cmd ∷ [];
          posted = self.old.posted + 1;
        }) }
        ensures prepared { OnOk result (basket.new.prepared ≡
            record basket.old.prepared { commands = basket.old.prepared.commands ++ cmd ∷ [] }) }
        ensures levels { OnOk result (basket.new.levels ≡ basket.old.levels ++ level ∷ []) }
        ensures handed { basket.new.handed ≡ basket.old.handed }
        ensures err { OnErr result (self.new ≡ self.old) }
        ensures err_basket { OnErr result (basket.new ≡ basket.old) }
    {
        let copy = cmd.copy(*self.mine.allocator())?;
        self.mine.push(Step::Act { leaf, cmd: copy })?;
        // The drawing doesn't show this command.
        drop(basket.drawn.take());
        match basket.book.post(level, cmd) {
            Ok(()) => {
                self.posted += 1;
                Ok(())
            }
            Err(e) => {
                self.mine.pop();
                Err(e)
            }
        }
    }

    /// The steps that were made with it, and its part of the ledger.
    pub(crate) fn spend(self) -> (Vec<Step<C::Cmd>>, Share<L>)
        ensures mine { result.0.items ≡ self.mine }
        ensures parts { result.1.parts ≡ 1 }
        ensures made { result.1.amount ≡ self.made }
    {
        let Pass {
            actor: _,
            mine,
            posted: _,
            share,
        } = self;
        (mine, share)
    }
}
