use crate::plans::{Plan, copies_of};
use crate::stages::{Stopped, make, make_all, make_copies, stage_of};
use std::rt::Clock;
use std::time::Instant;
use tr_client::Client;
use tr_journal::Step;
use tr_stage::{Peek, Stage};

/// The extent of a measurement.
#[derive(Clone, Copy)]
pub struct Extent {
    /// The number of entries that the journal gets without any use, before the rounds.
    pub history: u32,
    /// The number of rounds.
    pub rounds: u32,
    /// Whether the clock is read.
    pub timed: bool,
}

/// The result of a measurement.
#[derive(Drop)]
pub struct Measured {
    /// The number of measured steps.
    pub steps: u64,
    /// The number of entries in the journal at the end.
    pub entries: usize,
    /// The screen's lag at the end.
    pub peek: Peek,
    /// The number of steps of a round.
    round: u64,
    /// The times of the rounds.
    spans: Spans,
}

/// The times of rounds in nanoseconds.
#[derive(Clone, Copy)]
struct Spans {
    all: u64,
    best: u64,
}

impl Measured {
    /// The mean time of a step.
    pub fn mean_nanos(&self) -> u64 {
        self.spans.all / self.steps.max(1)
    }

    /// The mean time of a step in the best round.
    pub fn best_nanos(&self) -> u64 {
        self.spans.best / self.round.max(1)
    }
}

/// Makes the stage of a plan, its history and the rounds.
pub fn measure<R: Clock + AllocGlobal, C: Client>(
    rt: &R,
    plan: &Plan<C>,
    extent: Extent,
) -> Result<Measured, Stopped> {
    let mut stage = stage_of(rt.alloc(), &plan.contents)?;
    let measured = run(rt, &mut stage, plan, extent);
    drop(stage);
    measured
}

fn run<R: Clock + AllocGlobal, C: Client>(
    rt: &R,
    stage: &mut Stage<C>,
    plan: &Plan<C>,
    extent: Extent,
) -> Result<Measured, Stopped> {
    make_copies(rt.alloc(), stage, &plan.first)?;
    lengthen(stage, extent.history)?;
    let spans = make_rounds(rt, stage, plan, extent)?;
    found(stage, plan.round.len() as u64, extent.rounds, spans)
}

fn make_rounds<R: Clock + AllocGlobal, C: Client>(
    rt: &R,
    stage: &mut Stage<C>,
    plan: &Plan<C>,
    extent: Extent,
) -> Result<Spans, Stopped> {
    let mut spans = Spans {
        all: 0,
        best: u64::MAX,
    };
    for _ in 0..extent.rounds {
        let nanos = make_round(rt, stage, plan, extent.timed)?;
        spans = spans.with(nanos);
    }
    Ok(spans)
}

/// Makes a round on a screen that is up to date, and answers its time in nanoseconds, or 0 if nothing is
/// timed.
fn make_round<R: Clock + AllocGlobal, C: Client>(
    rt: &R,
    stage: &mut Stage<C>,
    plan: &Plan<C>,
    timed: bool,
) -> Result<u64, Stopped> {
    stage.settle()?;
    make_copies(rt.alloc(), stage, &plan.before)?;
    let steps = copies_of(rt.alloc(), &plan.round)?;
    if timed {
        return span(rt, stage, steps);
    }
    make_all(stage, steps)?;
    Ok(0)
}

impl Spans {
    /// The times with one more round.
    fn with(self, nanos: u64) -> Spans {
        Spans {
            all: self.all.saturating_add(nanos),
            best: self.best.min(nanos),
        }
    }
}

/// Adds `history` entries to the journal.
fn lengthen<C: Client>(stage: &mut Stage<C>, history: u32) -> Result<(), Stopped> {
    for _ in 0..history {
        make(stage, Step::Sync)?;
    }
    Ok(())
}

/// The time of the steps in nanoseconds.
fn span<R: Clock, C: Client>(
    rt: &R,
    stage: &mut Stage<C>,
    steps: Vec<Step<C::Cmd>>,
) -> Result<u64, Stopped> {
    let start = Instant::now(rt)?;
    make_all(stage, steps)?;
    let nanos = start.elapsed(rt)?.as_nanos();
    Ok(u64::try_from(nanos).unwrap_or(u64::MAX))
}

/// The result for a stage.
fn found<C: Client>(
    stage: &Stage<C>,
    round: u64,
    rounds: u32,
    spans: Spans,
) -> Result<Measured, Stopped> {
    Ok(Measured {
        steps: round.wrapping_mul(u64::from(rounds)),
        entries: stage.journal().len(),
        peek: stage.peek()?,
        round,
        spans,
    })
}
