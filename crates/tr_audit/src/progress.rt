//! One pass over the entries after the kept ones. For each actor it finds how many of its first steps
//! are those of its list. It takes memory for the actors, and none for entries.
ghost use Rattle.std.specs.Prelude.{◌≡◌, ◌↔◌, ◌+◌, ◌^◌, ◌<◌, ◌≤◌, ℕ, IsTrue, IfOk, IfNone, IfSome, drop, length, slice_get, replicate, Some};
ghost use Rattle.tr_journal.specs.Lists.{HasList};
ghost use Rattle.tr_journal.specs.Actors.{entries_of};
ghost use Rattle.tr_audit.specs.Progress as spec;
ghost use Rattle.tr_audit.specs.Audits.{HaveSameSteps};
ghost use Rattle.tr_audit.specs.Progress.{AreFollowed, IsNextProgress, IsApartAt, IsThrough, no_progress};

use std::alloc::Global;
use tr_base::{Command, LeafId, NoMemory};
use tr_journal::{Actor, Journal, Lists, Step};

/// The progress of an actor through its list.
#[derive(Clone, Copy, Debug)]
pub(crate) struct Progress {
    /// The number of first steps that agree.
    pub(crate) same: usize,
    /// The entry with the next step, if that isn't the list's.
    pub(crate) apart: Option<usize>,
}

/// The first actor whose steps after the first `from` entries aren't those of its list, and its
/// progress.
pub(crate) fn first_own_apart<M: Command>(
    alloc: Global,
    lists: &Lists<M>,
    journal: &Journal<M>,
    from: usize,
) -> Result<Option<(Actor, Progress)>, NoMemory>
    requires { from ≤ length journal.now.lines }
    ensures none { let entries = entries_of journal.now.lines in
        IfOk result (λ o. IfNone o (HaveSameSteps lists.now (drop from entries))) }
    ensures some { let entries = entries_of journal.now.lines in
        IfOk result (λ o. IfSome o (λ p. IsApartAt lists.now entries from p.0 p.1)) }
{
    let progress = followed(alloc, lists, journal, from)?;
    let Some(rank) = first_rank_apart(lists, &progress) else {
        return Ok(None);
    };
    let actor = actor_at(lists.leaves(), rank);
    Ok(Some((actor, progress[rank])))
}

/// The progress of all actors after the last entry, without the first `from` entries.
fn followed<M: Command>(
    alloc: Global,
    lists: &Lists<M>,
    journal: &Journal<M>,
    from: usize,
) -> Result<Vec<Progress>, NoMemory>
    requires { from ≤ length journal.now.lines }
    ensures { let entries = entries_of journal.now.lines in
        IfOk result (λ progress. AreFollowed lists.now entries from (length entries) progress.items) }
{
    let mut progress = no_progress(alloc, usize::from(lists.leaves()) + 2)?;
    for k in from..journal.len() {
        follow_entry(&mut progress, lists, journal, k);
    }
    Ok(progress)
}

/// The progress of `count` actors before any step.
fn no_progress(alloc: Global, count: usize) -> Result<Vec<Progress>, NoMemory>
    ensures { IfOk result (λ progress. progress.items ≡ replicate count no_progress) }
{
    let mut progress = Vec::with_capacity(alloc, count)?;
    for _rank in 0..count {
        progress.push(Progress {
            same: 0,
            apart: None,
        })?;
    }
    Ok(progress)
}

/// Continues by the entry after `k` others.
fn follow_entry<M: Command>(
    progress: &mut Vec<Progress>,
    lists: &Lists<M>,
    journal: &Journal<M>,
    k: usize,
)
    requires count { length progress.old.items ≡ length lists.now.leaves + 2 }
    requires entry { k < length journal.now.lines }
    ensures { let entries = entries_of journal.now.lines in (from : ℕ) → from ≤ k
        → AreFollowed lists.now entries from k progress.old.items
        → AreFollowed lists.now entries from (k + 1) progress.new.items }
{
    let actor = journal.get(k).actor;
    if let Some(rank) = rank_of(lists.leaves(), actor) {
        let so_far = progress[rank];
        progress[rank] = follow(so_far, lists.of(actor), journal, k);
    }
}

/// Continues by the entry after `k` others; its actor is the list's.
fn follow<M: Command>(
    progress: Progress,
    list: &[Step<M>],
    journal: &Journal<M>,
    k: usize,
) -> Progress
    requires { k < length journal.now.lines }
    ensures { IsNextProgress list.now (entries_of journal.now.lines) k progress result }
{
    if progress.apart.is_some() {
        return progress;
    }
    let same = progress.same;
    if is_at(list, same, &journal.get(k).step) {
        Progress {
            same: same + 1,
            apart: None,
        }
    } else {
        Progress {
            same,
            apart: Some(k),
        }
    }
}

/// Whether the list has this step after `k` others.
fn is_at<M: Command>(list: &[Step<M>], k: usize, step: &Step<M>) -> bool
    ensures there { IsTrue result ↔ (slice_get list.now k ≡ Some step.now) }
    ensures counted { IsTrue result → k + 1 < 2 ^ 64 }
{
    k < list.len() && list[k].same(step)
}

/// The rank of the first actor whose steps aren't those of its list.
fn first_rank_apart<M: Command>(lists: &Lists<M>, progress: &[Progress]) -> Option<usize>
    requires { length progress.now ≡ length lists.now.leaves + 2 }
    ensures none { IfNone result (spec.AreThrough lists.now progress.now (length progress.now)) }
    ensures some { IfSome result (λ rank. spec.IsApartFirst lists.now progress.now rank) }
{
    for rank in 0..progress.len() {
        let list = lists.of(actor_at(lists.leaves(), rank));
        if !is_through(list, progress[rank]) {
            return Some(rank);
        }
    }
    None
}

/// Whether all steps of the list were made, and no other ones.
fn is_through<M>(list: &[Step<M>], progress: Progress) -> bool
    ensures { IsTrue result ↔ IsThrough list.now progress }
{
    progress.apart.is_none() && progress.same == list.len()
}

/// The rank of the actor's list among the leaves' lists and the two others, if it has one.
fn rank_of(leaves: u8, actor: Actor) -> Option<usize>
    ensures { result ≡ spec.rank_of leaves actor }
{
    match actor {
        Actor::Leaf(leaf) if leaf.0 < leaves => Some(usize::from(leaf.0)),
        Actor::Desk => Some(usize::from(leaves)),
        Actor::Player => Some(usize::from(leaves) + 1),
        _ => None,
    }
}

/// The actor with this rank.
fn actor_at(leaves: u8, rank: usize) -> Actor
    requires { rank < leaves + 2 }
    ensures actor { result ≡ spec.actor_at leaves rank }
    ensures listed { HasList leaves result }
{
    if rank < usize::from(leaves) {
        Actor::Leaf(LeafId(rank as u8))
    } else if rank == usize::from(leaves) {
        Actor::Desk
    } else {
        Actor::Player
    }
}
