ghost use Rattle.std.specs.Prelude.{◌≡◌, ◌<◌, ◌≤◌, ◌++◌, ◌∷◌, [], Some, length, vec_capacity, IfErr, IfOk, OnOk, OnErr};
ghost use Rattle.tr_forest.specs.Nodes.{leaf_count};
ghost use Rattle.tr_spot.specs.Leaves.{leaf_size};
ghost use Rattle.tr_levels.specs.declared.Level.TheVariants.{Win};
ghost use Rattle.tr_levels.specs.Levels.{HaveLevels, HoldsNoLeaf};
ghost use Rattle.tr_journal.specs.declared.Actor.TheVariants.{Leaf};
ghost use Rattle.tr_journal.specs.Openings.{tree_of};
ghost use Rattle.tr_machine.specs.States.{leaf_batch, content_of};
ghost use Rattle.tr_machine.specs.Replays.{lines_by};
ghost use Rattle.tr_machine.specs.CommandSteps.{act_entries, act_entry, act_steps};
ghost use Rattle.tr_stage.specs.Stages.{state};

use crate::stages::Stage;
use std::alloc::Global;
use tr_base::{Command, LeafId, NoMemory};
use tr_client::{Client, Prepared};
use tr_journal::{Actor, Answer, Entry, Reply, Step};
use tr_levels::{Held, Level};

impl<C: Client> Stage<C> {
    /// Makes the prepared commands over the leaf's present content, in their order. The journal gets one
    /// entry for each command, with the level at which it was posted and the window's. For want of memory
    /// no step is made.
    pub fn take_over(
        &mut self,
        leaf: LeafId,
        prepared: &Prepared<C>,
        levels: &[Held],
    ) -> Result<(), NoMemory>
        requires leaf { leaf.0 < leaf_count (tree_of self.old.opening).nodes }
        requires from { content_of C.Client (state C.Client self.old) leaf ≡ Some prepared.now.from }
        requires font { prepared.now.font ≡ (state C.Client self.old).font }
        requires size { prepared.now.size ≡ leaf_size (state C.Client self.old).tree leaf }
        requires kind { prepared.now.kind ≡ (state C.Client self.old).tree.kind }
        requires levels { HaveLevels prepared.now.commands.items levels.now }
        ensures opening { self.new.opening ≡ self.old.opening }
        ensures ok { let m = state C.Client self.old in OnOk result (self.new.journal ≡ self.old.journal
            ++ lines_by C.Client (Leaf leaf) m (act_steps leaf prepared.now.commands.items levels.now)) }
        ensures err_journal { OnErr result (self.new.journal ≡ self.old.journal) }
        ensures screen { self.new.screen ≡ self.old.screen }
    {
        self.surface.invariant();
        let entries = entries_of(self.alloc, leaf, &prepared.commands, levels)?;
        // Takes room first, so that nothing can fail after the window has changed.
        let Ok(()) = self.journal.reserve_silent(entries.len()) else {
            drop(entries);
            return Err(NoMemory);
        };
        let Ok(content) = prepared.to.copy(self.alloc) else {
            drop(entries);
            return Err(NoMemory);
        };
        let Ok(()) = self.windows.take_over(leaf, content, &prepared.batch) else {
            drop(entries);
            return Err(NoMemory);
        };
        self.journal.extend(entries).unwrap();
        Ok(())
    }

    /// Like `take_over`, but takes the prepared commands by value. If no paint commands wait for the leaf, it
    /// moves the content, the commands and their patches, and copies none. For want of memory no step is
    /// made, and the error has the prepared commands, unchanged.
    pub fn take_all(
        &mut self,
        leaf: LeafId,
        prepared: Prepared<C>,
        levels: &[Held],
    ) -> Result<(), Prepared<C>>
        requires leaf { leaf.0 < leaf_count (tree_of self.old.opening).nodes }
        requires from { content_of C.Client (state C.Client self.old) leaf ≡ Some prepared.from }
        requires font { prepared.font ≡ (state C.Client self.old).font }
        requires size { prepared.size ≡ leaf_size (state C.Client self.old).tree leaf }
        requires kind { prepared.kind ≡ (state C.Client self.old).tree.kind }
        requires levels { HaveLevels prepared.commands.items levels.now }
        ensures opening { self.new.opening ≡ self.old.opening }
        ensures ok { let m = state C.Client self.old in OnOk result (self.new.journal ≡ self.old.journal
            ++ lines_by C.Client (Leaf leaf) m (act_steps leaf prepared.commands.items levels.now)) }
        ensures err_journal { OnErr result (self.new.journal ≡ self.old.journal) }
        ensures err_prepared { IfErr result (λ p. p ≡ prepared) }
        ensures screen { self.new.screen ≡ self.old.screen }
    {
        if self.batch(leaf).is_empty() {
            return self.take_moved(leaf, prepared, levels);
        }
        match self.take_over(leaf, &prepared, levels) {
            Ok(()) => {
                drop(prepared);
                Ok(())
            }
            Err(_) => Err(prepared),
        }
    }

    /// The same for a leaf without waiting commands.
    fn take_moved(
        &mut self,
        leaf: LeafId,
        prepared: Prepared<C>,
        levels: &[Held],
    ) -> Result<(), Prepared<C>>
        requires leaf { leaf.0 < leaf_count (tree_of self.old.opening).nodes }
        requires idle { leaf_batch C.Client (state C.Client self.old) leaf ≡ [] }
        requires from { content_of C.Client (state C.Client self.old) leaf ≡ Some prepared.from }
        requires font { prepared.font ≡ (state C.Client self.old).font }
        requires size { prepared.size ≡ leaf_size (state C.Client self.old).tree leaf }
        requires kind { prepared.kind ≡ (state C.Client self.old).tree.kind }
        requires levels { HaveLevels prepared.commands.items levels.now }
        ensures opening { self.new.opening ≡ self.old.opening }
        ensures ok { let m = state C.Client self.old in OnOk result (self.new.journal ≡ self.old.journal
            ++ lines_by C.Client (Leaf leaf) m (act_steps leaf prepared.commands.items levels.now)) }
        ensures err_journal { OnErr result (self.new.journal ≡ self.old.journal) }
        ensures err_prepared { IfErr result (λ p. p ≡ prepared) }
        ensures screen { self.new.screen ≡ self.old.screen }
    {
        self.surface.invariant();
        // Called for its clause: the content after the commands is valid.
        let _kept = prepared.to.keeps(prepared.size, prepared.size);
        // Takes room first, so that nothing can fail after the window has changed.
        let Ok(room) = Vec::with_capacity(self.alloc, prepared.commands.len()) else {
            return Err(prepared);
        };
        let Ok(()) = self.journal.reserve_silent(prepared.commands.len()) else {
            drop(room);
            return Err(prepared);
        };
        let Prepared {
            from,
            to,
            font,
            size: _,
            kind: _,
            commands,
            batch,
        } = prepared;
        drop((from, font));
        let entries = entries_in(room, leaf, commands, levels);
        self.windows.take_all(leaf, to, batch);
        self.journal.extend(entries).unwrap();
        Ok(())
    }
}

/// The entries of commands, which are copied.
fn entries_of<M: Command>(
    alloc: Global,
    leaf: LeafId,
    commands: &[M],
    levels: &[Held],
) -> Result<Vec<Entry<M>>, NoMemory>
    requires { HaveLevels commands.now levels.now }
    ensures { IfOk result (λ v. v.items ≡ act_entries leaf commands.now levels.now) }
{
    let mut entries = Vec::with_capacity(alloc, commands.len())?;
    for k in 0..commands.len() {
        let cmd = commands[k].copy(alloc)?;
        entries.push(entry_of(leaf, cmd, &levels[k]))?;
    }
    Ok(entries)
}

/// The entries of commands, which are moved, in an empty list with room for them.
fn entries_in<M: Command>(
    mut entries: Vec<Entry<M>>,
    leaf: LeafId,
    commands: Vec<M>,
    levels: &[Held],
) -> Vec<Entry<M>>
    requires empty { entries.items ≡ [] }
    requires room { length commands.items ≤ vec_capacity entries }
    requires levels { HaveLevels commands.items levels.now }
    ensures entries { result.items ≡ act_entries leaf commands.items levels.now }
    ensures count { length result.items ≡ length commands.items }
{
    for cmd in commands {
        let level = levels[entries.len()];
        entries.push_reserved(entry_of(leaf, cmd, &level));
    }
    entries
}

/// The entry of a command.
fn entry_of<M: Command>(leaf: LeafId, cmd: M, level: &Held) -> Entry<M>
    requires { HoldsNoLeaf level.now }
    ensures { result ≡ act_entry leaf (level.now ++ Win leaf ∷ [], Step.Act leaf cmd) }
{
    Entry {
        actor: Actor::Leaf(leaf),
        level: level.with(Level::Win(leaf)),
        step: Step::Act { leaf, cmd },
        reply: Reply {
            answer: Answer::Done,
            sent: 0,
        },
    }
}
