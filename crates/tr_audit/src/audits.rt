//! Whether a journal has the given entries and steps.
ghost use Rattle.std.specs.Prelude.{◌≡◌, ◌≤◌, ◌↔◌, ◌+◌, ◌^◌, ◌<◌, IsTrue, IfOk, IfNone, IfSome, length, take, drop, slice_get, Some};
ghost use Rattle.std.specs.Option.{ForSome};
ghost use Rattle.tr_journal.specs.Openings.{DifferAt};
ghost use Rattle.tr_journal.specs.Actors.{entries_of};
ghost use Rattle.tr_audit.specs.Audits.{HasAllEntries, HaveSameSteps, IsFirstFound, IsOwnDifference};
ghost use Rattle.tr_audit.specs.Progress.{step_found};

use crate::progress::first_own_apart;
use std::alloc::Global;
use tr_base::{Command, NoMemory};
use tr_journal::{Apart, Difference, Entry, Journal, Lists, Step};

/// The first difference between the given entries and steps and those of a journal: its first entries
/// must be those of `kept`, and after them each actor's steps must be those of its list. The deliveries
/// of steps aren't compared, and the painter's steps aren't either.
pub fn first_apart<M: Command>(
    alloc: Global,
    kept: &Journal<M>,
    lists: &Lists<M>,
    journal: &Journal<M>,
) -> Result<Option<Difference<M>>, NoMemory>
    ensures none { let made = entries_of kept.now.lines in let found = entries_of journal.now.lines in
        IfOk result (λ d. IfNone d (HasAllEntries made lists.now found)) }
    ensures some { let made = entries_of kept.now.lines in let found = entries_of journal.now.lines in
        IfOk result (λ d. IfSome d (IsFirstFound made lists.now found)) }
{
    if let Some(k) = first_kept_apart(kept, journal) {
        return Ok(Some(kept_difference(alloc, kept, journal, k)?));
    }
    own_difference(alloc, lists, journal, kept.len())
}

/// The first entry of `kept` that the journal doesn't have at the same place.
fn first_kept_apart<M: Command>(kept: &Journal<M>, journal: &Journal<M>) -> Option<usize>
    ensures none { let found = take (length kept.now.lines) (entries_of journal.now.lines) in
        IfNone result (entries_of kept.now.lines ≡ found) }
    ensures some { let found = take (length kept.now.lines) (entries_of journal.now.lines) in
        IfSome result (λ k. DifferAt (entries_of kept.now.lines) found (k + 1)) }
    ensures within { IfSome result (λ k. k < length kept.now.lines) }
    ensures counted { IfSome result (λ k. k + 1 < 2 ^ 64) }
{
    for k in 0..kept.len() {
        if !has_entry(journal, k, kept.get(k)) {
            return Some(k);
        }
    }
    None
}

/// Whether the journal has this entry after `k` others.
fn has_entry<M: Command>(journal: &Journal<M>, k: usize, entry: &Entry<M>) -> bool
    ensures { IsTrue result ↔ (slice_get (entries_of journal.now.lines) k ≡ Some entry.now) }
{
    k < journal.len() && journal.get(k).same(entry)
}

/// The difference of the entries after `k` others.
fn kept_difference<M: Command>(
    alloc: Global,
    kept: &Journal<M>,
    journal: &Journal<M>,
    k: usize,
) -> Result<Difference<M>, NoMemory>
    requires within { k < length kept.now.lines }
    requires counted { k + 1 < 2 ^ 64 }
    ensures place { IfOk result (λ d. d.place ≡ k + 1) }
    ensures what { let made = slice_get (entries_of kept.now.lines) k in
        let found = slice_get (entries_of journal.now.lines) k in
        IfOk result (λ d. d.what ≡ Apart.Kept made found) }
{
    Ok(Difference {
        place: k as u64 + 1,
        what: Apart::Kept {
            made: entry_of(alloc, kept, k)?,
            found: entry_of(alloc, journal, k)?,
        },
    })
}

/// The entry after `k` others, if there is one.
fn entry_of<M: Command>(
    alloc: Global,
    journal: &Journal<M>,
    k: usize,
) -> Result<Option<Entry<M>>, NoMemory>
    ensures { IfOk result (λ e. e ≡ slice_get (entries_of journal.now.lines) k) }
{
    if k < journal.len() {
        Ok(Some(journal.get(k).copy(alloc)?))
    } else {
        Ok(None)
    }
}

/// The first difference between the lists and the steps after the first `from` entries. The deliveries of
/// steps aren't compared, and the painter's steps aren't either.
pub fn own_difference<M: Command>(
    alloc: Global,
    lists: &Lists<M>,
    journal: &Journal<M>,
    from: usize,
) -> Result<Option<Difference<M>>, NoMemory>
    requires { from ≤ length journal.now.lines }
    ensures none { let later = drop from (entries_of journal.now.lines) in
        IfOk result (λ d. IfNone d (HaveSameSteps lists.now later)) }
    ensures some { let later = drop from (entries_of journal.now.lines) in
        IfOk result (λ d. IfSome d (IsOwnDifference lists.now later)) }
{
    let Some((actor, so_far)) = first_own_apart(alloc, lists, journal, from)? else {
        return Ok(None);
    };
    let list = lists.of(actor);
    // Tells the prover that the place can be counted.
    let _lengths = (list.len(), journal.len());
    Ok(Some(Difference {
        place: so_far.same as u64 + 1,
        what: Apart::Own {
            actor,
            made: step_in(alloc, list, so_far.same)?,
            found: step_of(alloc, journal, so_far.apart)?,
        },
    }))
}

/// The step after `k` others, if there is one.
fn step_in<M: Command>(
    alloc: Global,
    steps: &[Step<M>],
    k: usize,
) -> Result<Option<Step<M>>, NoMemory>
    ensures { IfOk result (λ step. step ≡ slice_get steps.now k) }
{
    match steps.get(k) {
        Some(step) => Ok(Some(step.copy(alloc)?)),
        None => Ok(None),
    }
}

/// The step of the entry after the given number of others, if one is given.
fn step_of<M: Command>(
    alloc: Global,
    journal: &Journal<M>,
    entry: Option<usize>,
) -> Result<Option<Step<M>>, NoMemory>
    requires { ForSome entry (λ k. k < length journal.now.lines) }
    ensures { IfOk result (λ step. step ≡ step_found (entries_of journal.now.lines) entry) }
{
    match entry {
        Some(k) => Ok(Some(journal.get(k).step.copy(alloc)?)),
        None => Ok(None),
    }
}
