//! Measures the region algebra: union, meet and minus of two regions of 1 to 1000 rectangles.
//!
//! Each line has the operation, the workload, the rectangles that each region was made of, and the
//! lengths of the three canonical lists, which never change. With the word `time` it ends with the
//! operations per second.
#![tactic(auto)]

mod operations;
mod workloads;

use crate::operations::Operation;
use crate::workloads::{Operands, Workload};
use std::io::ErrorKind;
use std::rt::{Clock, Env};
use std::time::{Duration, Instant};
use std::{env, io};
use tr_base::NoMemory;
use tr_region::Region;

/// The least time of an operation's repetitions, in milliseconds.
const SPAN_MILLIS: u64 = 200;

/// The number of repetitions between two readings of the clock.
const ROUND: u64 = 64;

fn main(rt: HostRuntime) -> io::Result<()> {
    let timed = has_word(&rt)?;
    for workload in [Workload::Random, Workload::Stairs] {
        for n in [1, 10, 100, 1000] {
            compare(&rt, workload, n, timed)?;
        }
    }
    Ok(())
}

/// Whether the first word is `time`.
fn has_word<R: Env + AllocGlobal>(rt: &R) -> io::Result<bool> {
    let words = env::args(rt)?;
    Ok(words.skip(1).any(|word| word.as_str() == "time"))
}

/// Prints a line for each operation on the two regions of a workload.
fn compare<R: Print + Clock + AllocGlobal>(
    rt: &R,
    workload: Workload,
    n: u16,
    timed: bool,
) -> io::Result<()> {
    let operands = Operands::of(rt.alloc(), workload, n).map_err(out_of_memory)?;
    lines(rt, &operands, timed)
}

fn lines<R: Print + Clock + AllocGlobal>(
    rt: &R,
    operands: &Operands,
    timed: bool,
) -> io::Result<()> {
    for operation in [Operation::Union, Operation::Meet, Operation::Minus] {
        line(rt, operation, operands, timed)?;
    }
    Ok(())
}

/// Prints a line for an operation.
fn line<R: Print + Clock + AllocGlobal>(
    rt: &R,
    operation: Operation,
    operands: &Operands,
    timed: bool,
) -> io::Result<()> {
    let (a, b) = (&operands.a, &operands.b);
    let rects_out = length_of(operation, a, b)?;
    print_lengths(rt, operation, operands, rects_out)?;
    if timed {
        let per_second = speed(rt, operation, a, b)?;
        print!(rt; " ops_per_s={per_second}")?;
    }
    println!(rt; "")
}

/// The number of rectangles of the operation's region.
fn length_of(operation: Operation, a: &Region, b: &Region) -> io::Result<usize> {
    let out = operation.apply(a, b).map_err(out_of_memory)?;
    Ok(out.rects().len())
}

fn print_lengths<R: Print + AllocGlobal>(
    rt: &R,
    operation: Operation,
    operands: &Operands,
    rects_out: usize,
) -> io::Result<()> {
    let (workload, n) = (operands.workload, operands.n);
    let (rects_a, rects_b) = (operands.a.rects().len(), operands.b.rects().len());
    print!(rt;
        "{operation} {workload} n={n} rects_a={rects_a} rects_b={rects_b} rects_out={rects_out}"
    )
}

/// The number of operations in a second.
fn speed<R: Clock>(rt: &R, operation: Operation, a: &Region, b: &Region) -> io::Result<u64> {
    let start = Instant::now(rt)?;
    for rounds in 1..u32::MAX {
        for _ in 0..ROUND {
            operation.apply(a, b).map_err(out_of_memory)?;
        }
        let passed = start.elapsed(rt)?;
        if passed >= Duration::from_millis(SPAN_MILLIS) {
            return Ok(per_second(u64::from(rounds) * ROUND, passed));
        }
    }
    Ok(0)
}

fn per_second(done: u64, passed: Duration) -> u64 {
    let micros = passed.as_micros().max(1);
    let times = u128::from(done) * 1_000_000 / micros;
    u64::try_from(times).unwrap_or(u64::MAX)
}

fn out_of_memory(_error: NoMemory) -> io::Error {
    io::Error::from(ErrorKind::OutOfMemory)
}
