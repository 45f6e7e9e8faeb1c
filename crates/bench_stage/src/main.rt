//! Measures the steps of a stage: acts on three sorts of content, flushes, moves of windows and motions
//! of the cursor, at the beginning of a journal and after a long one.
//!
//! Each line has the workload, the number of entries that the journal got before without any use, the
//! number of steps that were made, and then the entries of the journal and the screen's lag, which never
//! change. With the word `time` the journal is longer and more steps are made, and each line ends with
//! the microseconds of a step, of all rounds and of the best one.
#![tactic(auto)]

mod plans;
mod rounds;
mod stages;
mod workloads;

use crate::rounds::{Extent, Measured, measure};
use crate::stages::Stopped;
use crate::workloads::Workload;
use std::io::ErrorKind;
use std::rt::{Clock, Env};
use std::{env, io};

/// The extent if nothing is timed.
const COUNTED: Extent = Extent {
    history: 1_000,
    rounds: 2,
    timed: false,
};

/// The extent if the steps are timed.
const TIMED: Extent = Extent {
    history: 100_000,
    rounds: 64,
    timed: true,
};

fn main(rt: HostRuntime) -> io::Result<()> {
    let long = if has_word(&rt)? { TIMED } else { COUNTED };
    let short = Extent { history: 0, ..long };
    lines(&rt, short)?;
    lines(&rt, long)
}

/// Prints a line for each workload.
fn lines<R: Print + Clock + AllocGlobal>(rt: &R, extent: Extent) -> io::Result<()> {
    for workload in [
        Workload::ActOnSolid,
        Workload::ActOnLines,
        Workload::ActOnCanvas,
        Workload::Flush(1),
        Workload::Flush(10),
        Workload::Flush(100),
        Workload::Move(2),
        Workload::Move(8),
        Workload::Move(31),
        Workload::Motion(2),
        Workload::Motion(31),
    ] {
        line(rt, workload, extent)?;
    }
    Ok(())
}

/// Whether the first word is `time`.
fn has_word<R: Env + AllocGlobal>(rt: &R) -> io::Result<bool> {
    let words = env::args(rt)?;
    Ok(words.skip(1).any(|word| word.as_str() == "time"))
}

/// Prints a line for a workload.
fn line<R: Print + Clock + AllocGlobal>(
    rt: &R,
    workload: Workload,
    extent: Extent,
) -> io::Result<()> {
    let measured = measure_workload(rt, workload, extent).map_err(error_of)?;
    print_counts(rt, workload, extent.history, &measured)?;
    if extent.timed {
        print_times(rt, &measured)?;
    }
    println!(rt; "")
}

fn measure_workload<R: Clock + AllocGlobal>(
    rt: &R,
    workload: Workload,
    extent: Extent,
) -> Result<Measured, Stopped> {
    let plan = workload.plan(rt.alloc())?;
    let measured = measure(rt, &plan, extent);
    drop(plan);
    measured
}

fn print_counts<R: Print + AllocGlobal>(
    rt: &R,
    workload: Workload,
    history: u32,
    measured: &Measured,
) -> io::Result<()> {
    let (steps, entries) = (measured.steps, measured.entries);
    let peek = measured.peek;
    print!(rt;
        "{workload} history={history} steps={steps} entries={entries} bad={} waiting={} stale={}",
        peek.bad, peek.waiting, peek.stale
    )
}

fn print_times<R: Print + AllocGlobal>(rt: &R, measured: &Measured) -> io::Result<()> {
    let (mean, best) = (measured.mean_nanos(), measured.best_nanos());
    print!(rt;
        " us_per_step={}.{:03} best={}.{:03}",
        mean / 1000,
        mean % 1000,
        best / 1000,
        best % 1000
    )
}

fn out_of_memory() -> io::Error {
    io::Error::from(ErrorKind::OutOfMemory)
}

fn error_of(stopped: Stopped) -> io::Error {
    match stopped {
        Stopped::NoMemory => out_of_memory(),
        Stopped::Refused => io::Error::from(ErrorKind::InvalidInput),
        Stopped::Io(error) => error,
    }
}
