//! How workers share threads.
ghost use Rattle.std.specs.Prelude.{◌<◌, length};

use crate::lists::PartLists;
use crate::threads::STEPS_A_REPAINT;
use tr_client::Client;
use tr_journal::Actor;
use tr_server::{Pass, Session};

/// How some workers are cut into two halves: at which place, whether they work side by side, and the number
/// of threads for each half.
#[derive(Clone, Copy)]
pub(crate) struct Halves {
    pub(crate) cut: usize,
    pub(crate) is_apart: bool,
    pub(crate) lanes: usize,
}

/// The workers that have steps, and the number of these.
#[derive(Clone, Copy)]
struct Load {
    workers: usize,
    steps: usize,
}

/// How workers are cut, given the number of steps of the part, and the number of threads for the workers. The
/// painter is the last worker; it has a thread besides, if it may repaint more than once: else it waits for
/// all steps, and works when the others have ended.
pub(crate) fn halves_of<C: Client, L: Session<C::Cmd>>(
    lists: &PartLists<'_, C::Cmd>,
    steps: usize,
    lanes: usize,
    workers: &[Pass<C, L>],
) -> Halves
    requires { 1 < length workers.now }
    ensures some { 0 < result.cut }
    ensures fewer { result.cut < length workers.now }
{
    let last = workers.len() - 1;
    if workers[last].actor() == Actor::Painter {
        return Halves {
            cut: last,
            is_apart: steps > STEPS_A_REPAINT,
            lanes,
        };
    }
    let all = load_of(lists, workers);
    let has_each_own = all.workers <= lanes;
    let cut = cut_of(lists, has_each_own, all, workers);
    let front = load_of(lists, &workers[..cut]);
    let has_both = 0 < front.workers && front.workers < all.workers;
    Halves {
        cut,
        is_apart: has_both && 1 < lanes,
        lanes: if has_each_own || !has_both {
            lanes
        } else {
            lanes.div_ceil(2)
        },
    }
}

/// Where workers are cut, so that both halves have about as many steps; or about as many workers with steps,
/// if each of these gets a thread.
fn cut_of<C: Client, L: Session<C::Cmd>>(
    lists: &PartLists<'_, C::Cmd>,
    has_each_own: bool,
    all: Load,
    workers: &[Pass<C, L>],
) -> usize
    requires { 1 < length workers.now }
    ensures some { 0 < result }
    ensures fewer { result < length workers.now }
{
    let mut front = Load {
        workers: 0,
        steps: 0,
    };
    let last = workers.len() - 1;
    for n in 0..last {
        front = front.with(lists.count(workers[n].actor()));
        let is_half = if has_each_own {
            all.workers - front.workers.min(all.workers) <= front.workers
        } else {
            all.steps - front.steps.min(all.steps) <= front.steps
        };
        if is_half {
            return n + 1;
        }
    }
    last
}

/// The work of some workers.
fn load_of<C: Client, L: Session<C::Cmd>>(
    lists: &PartLists<'_, C::Cmd>,
    workers: &[Pass<C, L>],
) -> Load {
    let mut load = Load {
        workers: 0,
        steps: 0,
    };
    for pass in workers {
        load = load.with(lists.count(pass.actor()));
    }
    load
}

impl Load {
    /// The same with one more worker, which has this number of steps.
    fn with(self, steps: usize) -> Load {
        Load {
            workers: self.workers.saturating_add(if 0 < steps { 1 } else { 0 }),
            steps: self.steps.saturating_add(steps),
        }
    }
}
