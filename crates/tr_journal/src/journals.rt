ghost use Rattle.std.specs.Prelude.{◌≡◌, ◌+◌, ◌*◌, ◌<◌, ◌≤◌, ◌↔◌, [], ◌∷◌, ◌++◌, IsTrue, map, length, get_or, slice_get, slice_range, Some, All, vec_len, IsOk, IfOk, OnOk, OnErr};
ghost use Rattle.tr_journal.specs.Journals.{IsCounted, silent};

use crate::entries::Entry;
use std::alloc::Global;
use std::marker::Model;
use tr_base::{Command, NoMemory};
use tr_inbox::Delivery;

/// The most deliveries of an entry for which room was reserved.
pub const DELIVERIES: usize = 32;

/// The entries of a run, in their order, each with the deliveries of its step.
#[derive(Debug, Drop)]
pub struct Journal<M: Drop> {
    entries: Vec<Entry<M>>,
    /// The end of each entry's deliveries in `sent`.
    ends: Vec<usize>,
    /// The deliveries of all entries, in a row.
    sent: Vec<Delivery>,
}

impl<M: Drop> Model for Journal<M> {
    ghost use Rattle.std.specs.Prelude.{◌-◌, min, vec_len, vec_capacity};
    ghost use Rattle.tr_journal.specs.Journals.{JournalView, AreKept, journal_lines, spare_of};

    ghost Value = { JournalView M };

    ghost view = { λ j. record {
      lines = journal_lines j.entries.items j.sent.items;
      spare = spare_of
          (vec_capacity j.entries - vec_len j.entries)
          (vec_capacity j.ends - vec_len j.ends)
          (vec_capacity j.sent - vec_len j.sent);
      silent_spare = min (vec_capacity j.entries - vec_len j.entries) (vec_capacity j.ends - vec_len j.ends);
    } };

    ghost invariant = { λ j. AreKept j.entries.items j.ends.items j.sent.items };
}

impl<M: Drop> Journal<M> {
    /// A journal with no entry.
    pub fn new(alloc: Global) -> Journal<M>
        ensures { result.lines ≡ [] }
    {
        Journal {
            entries: Vec::new(alloc),
            ends: Vec::new(alloc),
            sent: Vec::new(alloc),
        }
    }

    /// Appends an entry, with the deliveries of its step. If memory runs out, the journal keeps the same
    /// lines.
    #[inline(always)]
    pub fn push(&mut self, entry: Entry<M>, sent: &[Delivery]) -> Result<(), NoMemory>
        requires counted { entry.reply.sent ≡ length sent.now }
        ensures ok { OnOk result
            (self.new.lines ≡ self.old.lines ++ record { entry = entry; sent = sent.now } ∷ []) }
        ensures err { OnErr result (self.new.lines ≡ self.old.lines) }
        ensures room { 0 < self.old.spare → length sent.now ≤ DELIVERIES * self.old.spare → IsOk result }
        ensures spare { length sent.now ≤ DELIVERIES → self.old.spare ≤ self.new.spare + 1 }
        ensures silent_room { 0 < self.old.silent_spare → length sent.now ≡ 0 → IsOk result }
        ensures silent_spare { self.old.silent_spare ≤ self.new.silent_spare + 1 }
    {
        let Ok(()) = self.entries.reserve(1) else {
            drop(entry);
            return Err(NoMemory);
        };
        let Ok(()) = self.ends.reserve(1) else {
            drop(entry);
            return Err(NoMemory);
        };
        let Ok(()) = self.sent.extend_from_slice(sent) else {
            drop(entry);
            return Err(NoMemory);
        };
        self.ends.push_reserved(self.sent.len());
        self.entries.push_reserved(entry);
        Ok(())
    }

    /// Makes room for `n` more entries, with at most 32 deliveries each.
    pub fn reserve(&mut self, n: u32) -> Result<(), NoMemory>
        ensures ok { OnOk result (n ≤ self.new.spare) }
        ensures lines { self.new.lines ≡ self.old.lines }
        ensures spare { self.old.spare ≤ self.new.spare }
    {
        let n = n as usize;
        self.entries.reserve(n)?;
        self.ends.reserve(n)?;
        Ok(self.sent.reserve(n * DELIVERIES)?)
    }

    /// Appends an entry for which room was reserved, with the deliveries of its step: at most 32 for each
    /// entry with reserved room. Nothing is allocated.
    #[inline(always)]
    pub fn push_reserved(&mut self, entry: Entry<M>, sent: &[Delivery])
        requires spare { 0 < self.old.spare }
        requires counted { entry.reply.sent ≡ length sent.now }
        requires sent { length sent.now ≤ DELIVERIES * self.old.spare }
        ensures lines { self.new.lines ≡ self.old.lines ++ record { entry = entry; sent = sent.now } ∷ [] }
        ensures spare { length sent.now ≤ DELIVERIES → self.old.spare ≤ self.new.spare + 1 }
    {
        self.push(entry, sent).unwrap()
    }

    /// Makes room for `n` more entries without deliveries.
    pub fn reserve_silent(&mut self, n: usize) -> Result<(), NoMemory>
        ensures ok { OnOk result (n ≤ self.new.silent_spare) }
        ensures lines { self.new.lines ≡ self.old.lines }
        ensures spare { self.old.spare ≤ self.new.spare }
        ensures room { n ≤ self.old.silent_spare → IsOk result }
    {
        self.entries.reserve(n)?;
        Ok(self.ends.reserve(n)?)
    }

    /// Appends entries without deliveries, in their order: all of them, or none.
    pub fn extend(&mut self, entries: Vec<Entry<M>>) -> Result<(), NoMemory>
        requires silent { All (λ e. e.reply.sent ≡ 0) entries.items }
        ensures ok { OnOk result (self.new.lines ≡ self.old.lines ++ silent entries.items) }
        ensures err { OnErr result (self.new.lines ≡ self.old.lines) }
        ensures room { vec_len entries ≤ self.old.silent_spare → IsOk result }
    {
        let Ok(()) = self.reserve_silent(entries.len()) else {
            drop(entries);
            return Err(NoMemory);
        };
        for entry in entries {
            self.push_silent(entry);
        }
        Ok(())
    }

    /// Adds an entry without deliveries, for which room was reserved.
    fn push_silent(&mut self, entry: Entry<M>)
        requires room { 0 < self.old.silent_spare }
        requires silent { entry.reply.sent ≡ 0 }
        ensures lines { self.new.lines ≡ self.old.lines ++ silent (entry ∷ []) }
        ensures room { self.old.silent_spare ≤ self.new.silent_spare + 1 }
    {
        self.push(entry, &[]).unwrap()
    }

    /// Tells the invariant of journals. Nothing runs.
    pub fn invariant(&self)
        ensures { All IsCounted self.now.lines }
    {
        let _count = self.len();
    }

    /// The number of entries.
    pub fn len(&self) -> usize
        ensures count { result ≡ length self.now.lines }
        ensures invariant { All IsCounted self.now.lines }
    {
        self.entries.len()
    }

    /// Whether there is no entry.
    pub fn is_empty(&self) -> bool
        ensures { IsTrue result ↔ (self.now.lines ≡ []) }
    {
        self.entries.is_empty()
    }

    /// The entry at index `k`, counted from 0.
    pub fn get(&self, k: usize) -> &Entry<M>
        requires { k < length self.now.lines }
        ensures { slice_get (map (λ line. line.entry) self.now.lines) k ≡ Some result.now }
    {
        &self.entries[k]
    }

    /// The deliveries of the entry at index `k`, counted from 0, in their order.
    pub fn sent(&self, k: usize) -> &[Delivery]
        requires { k < length self.now.lines }
        ensures { slice_get (map (λ line. line.sent) self.now.lines) k ≡ Some result.now }
    {
        part(&self.ends, &self.sent, k)
    }
}

impl<M: Command> Journal<M> {
    /// A journal with the same lines.
    pub fn copy(&self) -> Result<Journal<M>, NoMemory>
        ensures { IfOk result (λ copied. copied.lines ≡ self.now.lines) }
    {
        let alloc = *self.sent.allocator();
        let entries = copies_of(alloc, &self.entries)?;
        let Ok(ends) = Vec::from_slice(alloc, &self.ends) else {
            drop(entries);
            return Err(NoMemory);
        };
        let Ok(sent) = Vec::from_slice(alloc, &self.sent) else {
            drop((entries, ends));
            return Err(NoMemory);
        };
        Ok(Journal {
            entries,
            ends,
            sent,
        })
    }
}

/// A copy of entries.
fn copies_of<M: Command>(alloc: Global, entries: &[Entry<M>]) -> Result<Vec<Entry<M>>, NoMemory>
    ensures { IfOk result (λ copies. copies.items ≡ entries.now) }
{
    let mut copies = Vec::with_capacity(alloc, entries.len())?;
    let Ok(()) = append_copies(alloc, entries, &mut copies) else {
        drop(copies);
        return Err(NoMemory);
    };
    Ok(copies)
}

/// Appends copies of entries.
fn append_copies<M: Command>(
    alloc: Global,
    entries: &[Entry<M>],
    copies: &mut Vec<Entry<M>>,
) -> Result<(), NoMemory>
    ensures { OnOk result (copies.new.items ≡ copies.old.items ++ entries.now) }
{
    for entry in entries {
        copies.push(entry.copy(alloc)?)?;
    }
    Ok(())
}

/// The deliveries of the entry with `k` others before it, out of the deliveries of all entries.
fn part<'a>(ends: &[usize], sent: &'a [Delivery], k: usize) -> &'a [Delivery]
    requires entry { k < length ends.now }
    requires order { get_or (0 ∷ ends.now) k 0 ≤ get_or ends.now k 0 }
    requires end { get_or ends.now k 0 ≤ length sent.now }
    ensures { result.now ≡ slice_range sent.now (get_or (0 ∷ ends.now) k 0) (get_or ends.now k 0) }
{
    &sent[start(ends, k)..ends[k]]
}

/// The beginning of the deliveries of the entry with `k` others before it.
fn start(ends: &[usize], k: usize) -> usize
    requires { k < length ends.now }
    ensures { result ≡ get_or (0 ∷ ends.now) k 0 }
{
    if k == 0 { 0 } else { ends[k - 1] }
}
