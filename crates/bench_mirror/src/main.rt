//! Measures the writer and the reader of streams beside std's `==` and `copy_from_slice`, on
//! screens of 1024 by 1024.
//!
//! Each line has the number of bytes that a piece of work wrote or read, which never changes. With the
//! word `time` it ends with the best speed, in billions of bytes of a screen a second.
#![tactic(auto)]

mod feeds;
mod updates;

use crate::feeds::feeds;
use crate::updates::{Bench, Work, speed};
use std::io::ErrorKind;
use std::rt::{Clock, Env};
use std::{env, io};
use tr_base::NoMemory;

fn main(rt: HostRuntime) -> io::Result<()> {
    let timed = has_word(&rt)?;
    let mut bench = Bench::new(rt.alloc()).map_err(out_of_memory)?;
    let lined = lines(&rt, &mut bench, timed);
    drop(bench);
    lined
}

/// Prints all lines.
fn lines<R: Print + Clock + AllocGlobal>(rt: &R, bench: &mut Bench, timed: bool) -> io::Result<()> {
    for work in [
        Work::TwoComparisons,
        Work::SameScreen,
        Work::Copy,
        Work::CopyRows,
        Work::OtherScreen,
    ] {
        line(rt, bench, work, timed)?;
    }
    feeds(rt, bench.stream(), timed)
}

/// Whether the first word is `time`.
fn has_word<R: Env + AllocGlobal>(rt: &R) -> io::Result<bool> {
    let words = env::args(rt)?;
    Ok(words.skip(1).any(|word| word.as_str() == "time"))
}

/// Prints a line for a piece of work.
fn line<R: Print + Clock + AllocGlobal>(
    rt: &R,
    bench: &mut Bench,
    work: Work,
    timed: bool,
) -> io::Result<()> {
    let count = work.run(bench).map_err(out_of_memory)?;
    print!(rt; "{work}: {count} bytes")?;
    if timed {
        print_speed(rt, speed(rt, bench, work)?)?;
    }
    println!(rt; "")
}

/// Prints hundredths of a billion bytes a second.
pub(crate) fn print_speed<R: Print + AllocGlobal>(rt: &R, hundredths: u64) -> io::Result<()> {
    print!(rt; " {}.{:02} GB/s", hundredths / 100, hundredths % 100)
}

pub(crate) fn out_of_memory(_error: NoMemory) -> io::Error {
    io::Error::from(ErrorKind::OutOfMemory)
}
