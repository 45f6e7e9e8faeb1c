ghost use Rattle.std.specs.Prelude.{◌≡◌, ℕ, ◌+◌, ◌*◌, ◌<◌, ◌↔◌, [], All, IfOk, IfErr, IsTrue, length, vec_len, slice_index_or};
ghost use Rattle.std.specs.Thread.{IsSync};
ghost use Rattle.tr_journal.specs.Differences.{Matches, account_of};
ghost use Rattle.tr_journal.specs.Openings.{font_of, tree_of};
ghost use Rattle.tr_server.specs.Closing.{IfDiffers};
ghost use Rattle.tr_server.specs.Sessions.{HasIds};
ghost use Rattle.tr_play.specs.Sessions.{AreWhole, IsLeft, IsWhole};
ghost use Rattle.tr_play.specs.Workers.{AreReady, CanWork, HasTaken, HaveTaken, IsWorker};

use crate::contexts::Context;
use crate::counters::Counter;
use crate::gates::Gate;
use crate::lanes::halves_of;
use crate::lists::PartLists;
use crate::threads::Workers;
use std::sync::Wait;
use std::sync::ledger::Blank;
use std::thread;
use std::thread::Threads;
use tr_client::Client;
use tr_journal::Actor;
use tr_levels::Ladder;
use tr_server::{CloseRefused, Pass, Server, Session};
use tr_stage::Stage;

/// Two workers with steps of one part get a thread each, however few processors there are.
const LEAST_LANES: usize = 2;

/// A session on a stage: threads make the steps of the actors' lists, `steps` in all, and the painter
/// repaints the screen meanwhile.
pub(crate) fn session<C: Client, L: Session<C::Cmd>, R: Threads + Wait + Sync, G: Gate + Sync>(
    workers: &Workers<'_, R, G>,
    blank: Blank,
    stage: Stage<C>,
    lists: &PartLists<'_, C::Cmd>,
    steps: usize,
) -> Result<Stage<C>, CloseRefused<C>>
    requires name { blank.name ≡ L.name }
    requires parts { (blank.parts ≡ L.parts) × (L.parts ≡ 2 * L.leaves + 3) }
    requires ids { HasIds L.nodes L.leaves stage.opening }
    requires entries { length stage.journal ≡ L.entries }
    requires kept { stage.journal ≡ L.kept }
    requires font { font_of stage.opening ≡ L.font }
    requires count { length lists.now.leaves ≡ L.leaves }
    requires player { lists.now.player ≡ [] }
    requires ready { AreReady (tree_of stage.opening).nodes lists.now }
    ensures ok { IfOk result (λ s. Matches (account_of stage.opening stage.journal) lists.now
        (account_of s.opening s.journal)) }
    ensures differs { IfErr result (λ e. IfDiffers e (λ d. IsLeft stage lists.now d)) }
{
    let Ok((server, mut passes)) = Server::<C, L>::start(workers.alloc, blank, stage) else {
        return Err(CloseRefused::NoMemory);
    };
    let made = Counter::new();
    let context = Context {
        rt: workers.rt,
        alloc: workers.alloc,
        gate: workers.gate,
        server: &server,
        made: &made,
    };
    all_at_work(&context, &mut passes.workers, lists, steps);
    let is_whole = are_whole(&passes.workers, lists);
    let closed = server.close(workers.rt, passes);
    if !is_whole {
        drop(closed);
        return Err(CloseRefused::NoMemory);
    }
    closed
}

/// The same with the passes in a `Vec`, which is lent as a slice only here: so the prover has to consider
/// one list of passes at a time.
fn all_at_work<C: Client, L: Session<C::Cmd>, R: Threads + Wait + Sync, G: Gate + Sync>(
    context: &Context<'_, C, L, R, G>,
    workers: &mut Vec<Pass<C, L>>,
    lists: &PartLists<'_, C::Cmd>,
    steps: usize,
)
    requires some { 0 < vec_len workers.old }
    requires workers { All (λ pass. IsWorker (length lists.now.leaves) pass.actor) workers.old.items }
    requires ready { AreReady (tree_of context.now.server.now.opening).nodes lists.now }
    ensures count { vec_len workers.new ≡ vec_len workers.old }
    ensures taken { (i : ℕ) (d : _) → i < vec_len workers.old →
        HasTaken lists.now (slice_index_or workers.old.items i d) (slice_index_or workers.new.items i d) }
{
    let lanes = lanes_of(context, lists);
    all_work(context, lists, steps, lanes, workers.as_mut_slice());
}

/// The number of threads for all workers but the painter. Behind a gate that isn't open each of them has its
/// own, since one may wait there for another. More threads than processors only take the lock from each
/// other; but two of the workers never share the only thread. Where no more actors have steps, nobody asks
/// for the number of processors: the system's answer would take longer than a short part.
fn lanes_of<C: Client, L: Session<C::Cmd>, R: Threads + Wait, G: Gate>(
    context: &Context<'_, C, L, R, G>,
    lists: &PartLists<'_, C::Cmd>,
) -> usize {
    if !context.gate.is_open() {
        return usize::MAX;
    }
    if lists.busy_actors() <= LEAST_LANES {
        return LEAST_LANES;
    }
    match thread::available_parallelism(context.rt) {
        Ok(processors) => processors.get().max(LEAST_LANES),
        Err(_) => LEAST_LANES,
    }
}

/// All workers do their work: two halves of them side by side if both have work and there are threads for
/// both, and else one half after the other. The painter is a half by itself.
#[cycle(workers)]
fn all_work<C: Client, L: Session<C::Cmd>, R: Threads + Wait + Sync, G: Gate + Sync>(
    context: &Context<'_, C, L, R, G>,
    lists: &PartLists<'_, C::Cmd>,
    steps: usize,
    lanes: usize,
    workers: &mut [Pass<C, L>],
)
    requires { CanWork (tree_of context.now.server.now.opening).nodes lists.now workers.old }
    ensures { HaveTaken lists.now workers.old workers.new }
{
    if workers.len() == 1 {
        do_own(context, &mut workers[0], lists, steps);
        return;
    }
    let halves = halves_of(lists, steps, lanes, workers);
    let (front, back) = workers.split_at_mut(halves.cut);
    both_halves(
        context,
        lists,
        steps,
        halves.is_apart,
        halves.lanes,
        front,
        back,
    );
}

/// Two halves of the workers do their work, side by side or one after the other. It is a function of its own,
/// since a closure's `requires` must be that of the function around it.
#[cycle(workers)]
fn both_halves<C: Client, L: Session<C::Cmd>, R: Threads + Wait + Sync, G: Gate + Sync>(
    context: &Context<'_, C, L, R, G>,
    lists: &PartLists<'_, C::Cmd>,
    steps: usize,
    is_apart: bool,
    lanes: usize,
    front: &mut [Pass<C, L>],
    back: &mut [Pass<C, L>],
)
    requires front { CanWork (tree_of context.now.server.now.opening).nodes lists.now front.old }
    requires back { CanWork (tree_of context.now.server.now.opening).nodes lists.now back.old }
    ensures front { HaveTaken lists.now front.old front.new }
    ensures back { HaveTaken lists.now back.old back.new }
{
    if !is_apart {
        all_work(context, lists, steps, lanes, front);
        all_work(context, lists, steps, lanes, back);
        return;
    }
    let mut first = ||
        requires { IsSync R.row × IsSync G.row
            × CanWork (tree_of context.now.server.now.opening).nodes lists.now front.now }
        ensures { HaveTaken lists.entry.now front.entry.now front.exit.now }
    { all_work(context, lists, steps, lanes, front) };
    let mut second = ||
        requires { IsSync R.row × IsSync G.row
            × CanWork (tree_of context.now.server.now.opening).nodes lists.now back.now }
        ensures { HaveTaken lists.entry.now back.entry.now back.exit.now }
    { all_work(context, lists, steps, lanes, back) };
    // The back half may be the painter, which waits for the others' steps: if no thread can be started, the
    // first closure runs last.
    thread::join_mut(context.rt, &mut second, &mut first);
}

/// A worker does its own work: the painter repaints the screen, and each other actor makes the steps of
/// its list. A worker gets its ladder here alone, one for all of its steps.
fn do_own<C: Client, L: Session<C::Cmd>, R: Threads + Wait + Sync, G: Gate + Sync>(
    context: &Context<'_, C, L, R, G>,
    pass: &mut Pass<C, L>,
    lists: &PartLists<'_, C::Cmd>,
    steps: usize,
)
    requires worker { IsWorker (length lists.now.leaves) pass.old.actor }
    requires ready { AreReady (tree_of context.now.server.now.opening).nodes lists.now }
    ensures { HasTaken lists.now pass.old pass.new }
{
    let ladder = match pass.actor() {
        Actor::Painter => context.paint(Ladder::ground(), pass, steps),
        actor => context.work(Ladder::ground(), pass, &lists.of(actor)),
    };
    ladder.end();
}

/// Whether each actor but the painter made its whole list.
fn are_whole<C: Client, L: Session<C::Cmd>>(
    workers: &Vec<Pass<C, L>>,
    lists: &PartLists<'_, C::Cmd>,
) -> bool
    requires { All (λ pass. IsWorker (length lists.now.leaves) pass.actor) workers.now.items }
    ensures { IsTrue result ↔ AreWhole workers.now.items lists.now }
{
    for pass in workers {
        if !is_whole(pass, lists) {
            return false;
        }
    }
    true
}

/// Whether an actor made its whole list. The painter has none.
fn is_whole<C: Client, L: Session<C::Cmd>>(pass: &Pass<C, L>, lists: &PartLists<'_, C::Cmd>) -> bool
    requires { IsWorker (length lists.now.leaves) pass.now.actor }
    ensures { IsTrue result ↔ IsWhole pass.now lists.now }
{
    match pass.actor() {
        Actor::Painter => true,
        actor => pass.mine().len() == lists.of(actor).len(),
    }
}
