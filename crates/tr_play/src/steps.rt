ghost use Rattle.std.specs.Prelude.{◌≡◌, ◌+◌, ◌-◌, ◌^◌, ◌++◌, [], false, min, length, All, OnOk};
ghost use Rattle.tr_journal.specs.declared.Actor.TheVariants.{Leaf};
ghost use Rattle.tr_journal.specs.declared.Step.{Step};
ghost use Rattle.tr_journal.specs.declared.Step.TheVariants.{Act};
ghost use Rattle.tr_journal.specs.Openings.{tree_of};
ghost use Rattle.tr_journal.specs.Steps.{IsStep};
ghost use Rattle.tr_parts.specs.Turns.{IsPartStep};
ghost use Rattle.tr_play.specs.Workers.{AddsStep, AreNoCommands, HasWorked};

use crate::contexts::Context;
use crate::gates::Gate;
use crate::lists::List;
use std::sync::Wait;
use tr_base::NoMemory;
use tr_client::Client;
use tr_journal::{Actor, Step};
use tr_levels::Ladder;
use tr_server::{Mu, Pass, Session, Window};

/// The number of commands that may be posted with a pass before one is made under the tree's lock.
const MOST_POSTED: u8 = 64;

/// A worker draws before a flush only if it has posted this many commands.
const MANY_POSTED: u8 = 8;

/// A worker makes this many steps before it reports its progress.
const STEPS_A_NOTE: usize = 16;

impl<C: Client, L: Session<C::Cmd>, R: Wait, G: Gate> Context<'_, C, L, R, G> {
    /// Makes the steps of a list, one after another, until memory runs out. Commands are reported to the
    /// painter as they are made, since they wait for it, and other steps in the end: the next edit of the
    /// tree may cover the points that one makes bad. Until then only the progress is reported.
    pub(crate) fn work(
        &self,
        ladder: Ladder,
        pass: &mut Pass<C, L>,
        list: &List<'_, C::Cmd>,
    ) -> Ladder
        requires ladder { ladder ≡ [] }
        requires ready { All (λ step.
            IsPartStep (tree_of self.now.server.now.opening).nodes (pass.old.actor, step)) list.now }
        ensures ladder { result ≡ [] }
        ensures worked { HasWorked pass.old pass.new list.now }
    {
        // If there isn't memory for all of them at once, it is taken step by step.
        let _ = pass.reserve(list.len());
        let mut free = ladder;
        let mut left = list.len() as u64;
        for n in 0..list.len().div_ceil(STEPS_A_NOTE) {
            let slice = list.slice(n * STEPS_A_NOTE, STEPS_A_NOTE);
            let commands = slice.commands();
            let (after, made) = self.make_slice(free, pass, &slice, commands > 0);
            free = after;
            let Ok(()) = made else {
                self.made.add(left);
                return free;
            };
            self.made.add(commands);
            left = left.saturating_sub(commands);
        }
        self.made.add(left);
        free
    }

    /// Makes steps, one after another: under one lock, if the gate makes no worker wait and no command is
    /// among them, since a command needs its window's lock alone.
    fn make_slice(
        &self,
        ladder: Ladder,
        pass: &mut Pass<C, L>,
        list: &List<'_, C::Cmd>,
        has_commands: bool,
    ) -> (Ladder, Result<(), NoMemory>)
        requires ladder { ladder ≡ [] }
        requires ready { All (λ step.
            IsPartStep (tree_of self.now.server.now.opening).nodes (pass.old.actor, step)) list.now }
        requires commands { has_commands ≡ false → AreNoCommands list.now }
        ensures ladder { result.0 ≡ [] }
        ensures worked { HasWorked pass.old pass.new list.now }
        ensures ok { OnOk result.1 (pass.new.mine ≡ pass.old.mine ++ list.now) }
    {
        if self.gate.is_open() && !has_commands {
            self.make_together(ladder, pass, list)
        } else {
            self.make_each(ladder, pass, list)
        }
    }

    /// Makes steps, one after another. The gate is called before each, with no lock held.
    fn make_each(
        &self,
        ladder: Ladder,
        pass: &mut Pass<C, L>,
        list: &List<'_, C::Cmd>,
    ) -> (Ladder, Result<(), NoMemory>)
        requires ladder { ladder ≡ [] }
        requires ready { All (λ step.
            IsPartStep (tree_of self.now.server.now.opening).nodes (pass.old.actor, step)) list.now }
        ensures ladder { result.0 ≡ [] }
        ensures worked { HasWorked pass.old pass.new list.now }
        ensures ok { OnOk result.1 (pass.new.mine ≡ pass.old.mine ++ list.now) }
    {
        let mut free = ladder;
        for k in 0..list.len() {
            self.gate.turn(self.rt, pass.actor(), next_number(pass));
            let step = list.step(k);
            let (after, made) = self.make(free, pass, step);
            free = after;
            let Ok(()) = made else {
                return (free, Err(NoMemory));
            };
        }
        (free, Ok(()))
    }

    /// Makes steps, one after another, none of them a command, under the tree's lock, which is taken once.
    fn make_together(
        &self,
        ladder: Ladder,
        pass: &mut Pass<C, L>,
        list: &List<'_, C::Cmd>,
    ) -> (Ladder, Result<(), NoMemory>)
        requires ladder { ladder ≡ [] }
        requires ready { All (λ step.
            IsPartStep (tree_of self.now.server.now.opening).nodes (pass.old.actor, step)) list.now }
        requires commands { AreNoCommands list.now }
        ensures ladder { result.0 ≡ [] }
        ensures worked { HasWorked pass.old pass.new list.now }
        ensures ok { OnOk result.1 (pass.new.mine ≡ pass.old.mine ++ list.now) }
    {
        let mut mu = self.server.enter(self.rt, ladder);
        let made = self.make_all_under(&mut mu, pass, list);
        (mu.leave(), made)
    }

    /// The same, with the tree's lock taken.
    fn make_all_under(
        &self,
        mu: &mut Mu<'_, C, L>,
        pass: &mut Pass<C, L>,
        list: &List<'_, C::Cmd>,
    ) -> Result<(), NoMemory>
        requires ready { All (λ step.
            IsPartStep (tree_of self.now.server.now.opening).nodes (pass.old.actor, step)) list.now }
        requires steps { (step : Step C.Cmd) → IsStep (tree_of self.now.server.now.opening).nodes step →
            IsStep (tree_of mu.old.opening).nodes step }
        ensures worked { HasWorked pass.old pass.new list.now }
        ensures ok { OnOk result (pass.new.mine ≡ pass.old.mine ++ list.now) }
    {
        for k in 0..list.len() {
            let step = list.step(k).copy(self.alloc)?;
            self.make_with(mu, pass, step)?;
        }
        Ok(())
    }

    /// Makes a step, with the tree's lock taken.
    fn make_with(
        &self,
        mu: &mut Mu<'_, C, L>,
        pass: &mut Pass<C, L>,
        step: Step<C::Cmd>,
    ) -> Result<(), NoMemory>
        requires ready { IsPartStep (tree_of self.now.server.now.opening).nodes (pass.old.actor, step) }
        requires steps { (step : Step C.Cmd) → IsStep (tree_of self.now.server.now.opening).nodes step →
            IsStep (tree_of mu.old.opening).nodes step }
        ensures opening { mu.new.opening ≡ mu.old.opening }
        ensures pass { AddsStep pass.old pass.new step result }
    {
        match pass.actor() {
            Actor::Leaf(leaf) => mu.client_step(self.rt, self.server.window(leaf), pass, step)?,
            _ => mu.step(pass, step)?,
        };
        Ok(())
    }

    /// Makes a step, under the tree's lock.
    fn make_under(
        &self,
        ladder: Ladder,
        pass: &mut Pass<C, L>,
        step: Step<C::Cmd>,
    ) -> (Ladder, Result<(), NoMemory>)
        requires ladder { ladder ≡ [] }
        requires ready { IsPartStep (tree_of self.now.server.now.opening).nodes (pass.old.actor, step) }
        ensures ladder { result.0 ≡ [] }
        ensures made { AddsStep pass.old pass.new step result.1 }
    {
        let mut mu = self.server.enter(self.rt, ladder);
        let made = self.make_with(&mut mu, pass, step);
        (mu.leave(), made)
    }

    /// Makes a step.
    fn make(
        &self,
        ladder: Ladder,
        pass: &mut Pass<C, L>,
        step: &Step<C::Cmd>,
    ) -> (Ladder, Result<(), NoMemory>)
        requires ladder { ladder ≡ [] }
        requires ready { IsPartStep (tree_of self.now.server.now.opening).nodes (pass.old.actor, step.now) }
        ensures ladder { result.0 ≡ [] }
        ensures made { AddsStep pass.old pass.new step.now result.1 }
    {
        let Ok(step) = step.copy(self.alloc) else {
            return (ladder, Err(NoMemory));
        };
        match pass.actor() {
            Actor::Leaf(leaf) => self.make_in(ladder, self.server.window(leaf), pass, step),
            _ => self.make_under(ladder, pass, step),
        }
    }

    /// The client of a window makes a step.
    fn make_in(
        &self,
        ladder: Ladder,
        window: &Window<C, L>,
        pass: &mut Pass<C, L>,
        step: Step<C::Cmd>,
    ) -> (Ladder, Result<(), NoMemory>)
        requires ladder { ladder ≡ [] }
        requires actor { pass.old.actor ≡ Leaf window.now }
        requires step { IsPartStep (tree_of self.now.server.now.opening).nodes (pass.old.actor, step) }
        ensures ladder { result.0 ≡ [] }
        ensures made { AddsStep pass.old pass.new step result.1 }
    {
        match step {
            Step::Act { leaf: _, cmd } => self.act(ladder, window, pass, cmd),
            other => {
                self.draw_for(window, pass, &other);
                self.make_under(ladder, pass, other)
            }
        }
    }

    /// Before a flush of many commands, while another thread has the tree's lock, the worker draws their
    /// result: under the lock the flush then only puts pixels onto the screen. Few commands take less time
    /// than a picture, and if the lock is free, painting under it takes less time in all.
    fn draw_for(&self, window: &Window<C, L>, pass: &Pass<C, L>, step: &Step<C::Cmd>) {
        let is_flush = matches!(step, Step::Flush { .. });
        if is_flush && pass.posted() >= MANY_POSTED && self.server.is_busy() {
            window.draw(self.rt);
        }
    }

    /// The client of a window makes a command: it posts it, or, if it has posted as many as it may, makes
    /// it under the tree's lock.
    fn act(
        &self,
        ladder: Ladder,
        window: &Window<C, L>,
        pass: &mut Pass<C, L>,
        cmd: C::Cmd,
    ) -> (Ladder, Result<(), NoMemory>)
        requires ladder { ladder ≡ [] }
        requires actor { pass.old.actor ≡ Leaf window.now }
        ensures ladder { result.0 ≡ [] }
        ensures made { AddsStep pass.old pass.new (Act window.now cmd) result.1 }
    {
        if pass.posted() < MOST_POSTED {
            let made = window.act(self.rt, &ladder, pass, cmd);
            (ladder, made)
        } else {
            let mut mu = self.server.enter(self.rt, ladder);
            let made = window.act_under(self.rt, &mut mu, pass, cmd);
            (mu.leave(), made)
        }
    }
}

/// The number in the part of the next step that is made with a pass, counted from 1.
fn next_number<C: Client, L: Session<C::Cmd>>(pass: &Pass<C, L>) -> u32
    ensures { result ≡ min (length pass.now.mine + 1) (2 ^ 32 - 1) }
{
    let made = u32::try_from(pass.mine().len()).unwrap_or(u32::MAX);
    made.saturating_add(1)
}
