//! The audit at the end of a session. It goes through the session's own entries, and through no others.
ghost use Rattle.std.specs.Prelude.{◌≡◌, ◌≤◌, [], length, take, IfNone, IfSome, IfOk, OnOk};
ghost use Rattle.tr_journal.specs.Differences.{IsFirstDiffering, Matches, account_of};

use std::alloc::Global;
use tr_audit::own_difference;
use tr_base::{Command, NoMemory};
use tr_client::Client;
use tr_journal::{Apart, Difference, Journal, Lists, Opening};
use tr_stage::Stage;

/// The first difference between a stage and its session: between its opening and the one with which the
/// session began, or else between the lists and its steps after this number of entries.
pub(crate) fn first_difference<C: Client>(
    alloc: Global,
    stage: &Stage<C>,
    opening: &Opening<C>,
    entries: usize,
    lists: &Lists<C::Cmd>,
) -> Result<Option<Difference<C::Cmd>>, NoMemory>
    requires { entries ≤ length stage.now.journal }
    ensures none { let kept = account_of opening.now (take entries stage.now.journal) in
        let found = account_of stage.now.opening stage.now.journal in
        IfOk result (λ d. IfNone d (Matches kept lists.now found)) }
    ensures some { let kept = account_of opening.now (take entries stage.now.journal) in
        let found = account_of stage.now.opening stage.now.journal in
        IfOk result (λ d. IfSome d (IsFirstDiffering kept lists.now found)) }
{
    if let Some(place) = opening.first_difference(stage.opening()) {
        let what = Apart::Opening;
        return Ok(Some(Difference { place, what }));
    }
    own_difference(alloc, lists, stage.journal(), entries)
}

/// A journal with the first entries of another.
pub(crate) fn first_entries<M: Command>(
    alloc: Global,
    journal: &Journal<M>,
    count: usize,
) -> Result<Journal<M>, NoMemory>
    requires { count ≤ length journal.now.lines }
    ensures { IfOk result (λ part. part.lines ≡ take count journal.now.lines) }
{
    let mut part = Journal::new(alloc);
    match add_first(alloc, journal, count, &mut part) {
        Ok(()) => Ok(part),
        Err(e) => {
            drop(part);
            Err(e)
        }
    }
}

/// Adds copies of these entries to an empty journal.
fn add_first<M: Command>(
    alloc: Global,
    journal: &Journal<M>,
    count: usize,
    part: &mut Journal<M>,
) -> Result<(), NoMemory>
    requires within { count ≤ length journal.now.lines }
    requires empty { part.old.lines ≡ [] }
    ensures { OnOk result (part.new.lines ≡ take count journal.now.lines) }
{
    journal.invariant();
    for k in 0..count {
        part.push(journal.get(k).copy(alloc)?, journal.sent(k))?;
    }
    Ok(())
}
