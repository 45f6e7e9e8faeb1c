ghost use Rattle.std.specs.Prelude.{◌≡◌, [], All, IfErr, IfOk, IsTrue};
ghost use Rattle.tr_journal.specs.Openings.{tree_of};
ghost use Rattle.tr_machine.specs.SettleSteps.{settling};
ghost use Rattle.tr_stage.specs.Stages.{state};
ghost use Rattle.tr_parts.specs.Turns.{HasRun, IsPartStep};
ghost use Rattle.tr_server.specs.Closing.{IfDiffers};
ghost use Rattle.tr_play.specs.Plays.{HasLeft};

use crate::gates::Gate;
use crate::lists::lists_of;
use crate::orders::{is_by_one, make_in_order};
use crate::sessions::session;
use std::alloc::Global;
use std::marker::Brand;
use std::sync::Wait;
use std::sync::ledger::Blank;
use std::thread::Threads;
use tr_client::Client;
use tr_journal::{Actor, Step};
use tr_server::CloseRefused;
use tr_stage::Stage;

/// The shared data of all workers: the right to start threads and to wait, the allocator, and the gate, which
/// is called before each step of a client or of the desk; if it is open, perhaps before commands alone.
#[derive(Drop)]
pub struct Workers<'a, R, G> {
    pub rt: &'a R,
    pub alloc: Global,
    pub gate: &'a G,
}

/// The least number of steps of a part for which the painter repaints once more.
pub(crate) const STEPS_A_REPAINT: usize = 16;

/// A long part is repainted about so many times.
pub(crate) const PARTS_A_REPAINT: u64 = 4;

/// Makes the steps of a part on a stage, by threads: those of an actor by one thread. The painter brings the
/// screen up to date, once and at most once more for each 16 steps, in a thread of its own if the part has
/// more than 16. If there is no step, and the screen is up to date, it starts no thread; and if one actor has
/// all steps, and they are many, this thread makes them in their order, without a painter.
pub(crate) fn make_side_by_side<C: Client, R: Threads + Wait + Sync, G: Gate + Sync>(
    workers: &Workers<'_, R, G>,
    stage: Stage<C>,
    steps: &[(Actor, Step<C::Cmd>)],
) -> Result<Stage<C>, CloseRefused<C>>
    requires { All (IsPartStep (tree_of stage.opening).nodes) steps.now }
    ensures ok { IfOk result (λ s. HasRun stage s steps.now) }
    ensures differs { IfErr result (λ e. IfDiffers e (λ d. HasLeft stage steps.now d)) }
{
    if steps.is_empty() && is_settled(&stage) {
        return Ok(stage);
    }
    if is_by_one(steps) {
        return make_in_order(workers, stage, steps);
    }
    let leaves = stage.opening().tree().leaves();
    let Ok(lists) = lists_of(workers.alloc, steps, leaves) else {
        drop(stage);
        return Err(CloseRefused::NoMemory);
    };
    let blank = Blank::new(2 * u64::from(leaves) + 3);
    stage.invariant();
    match session::<C, Brand, R, G>(workers, blank, stage, &lists, steps.len()) {
        Ok(stage) => {
            stage.invariant();
            Ok(stage)
        }
        Err(refused) => Err(refused),
    }
}

/// Whether no command waits for a window, and no point is bad. It is false if memory runs out: then the
/// painter has to look.
fn is_settled<C: Client>(stage: &Stage<C>) -> bool
    ensures { IsTrue result → settling C.Client (state C.Client stage.now) ≡ [] }
{
    match stage.steps_to_settle() {
        Ok(steps) => steps.is_empty(),
        Err(_) => false,
    }
}
