//! Measures the kernels on rows of pixels beside std's `fill`, `copy_from_slice` and `==`.
//!
//! Each line has a kernel and, for rows of 1024 and of 67 pixels, its answer and the sum of the row after
//! it, which never change. With the word `time` it ends with the speed on each row, in billions of bytes
//! a second.
#![tactic(auto)]

mod kernels;
mod scrolls;
mod speeds;

use crate::kernels::{Kernel, Rows};
use crate::scrolls::{copy, scroll};
use crate::speeds::{print_speed, speed};
use std::alloc::Global;
use std::rt::{Clock, Env};
use std::{env, io};
use tr_base::{Op, Point};

/// The widths of the measured rows, in pixels.
const WIDTHS: [usize; 2] = [1024, 67];

fn main(rt: HostRuntime) -> io::Result<()> {
    let timed = has_word(&rt)?;
    lines(&rt, timed)
}

fn lines<R: Print + Clock + AllocGlobal>(rt: &R, timed: bool) -> io::Result<()> {
    row_lines(rt, timed)?;
    mask_lines(rt, timed)?;
    copy(rt, timed)?;
    scroll_lines(rt, timed)
}

/// Prints a line for each kernel without operations.
fn row_lines<R: Print + Clock + AllocGlobal>(rt: &R, timed: bool) -> io::Result<()> {
    for kernel in [
        Kernel::StdFill,
        Kernel::FillRow,
        Kernel::StdCopy,
        Kernel::CopyRow,
        Kernel::CopyRowsWithin,
        Kernel::ExchangeRow,
        Kernel::StdEqual,
        Kernel::FirstDifference,
        Kernel::LastDifference,
        Kernel::CountRow,
    ] {
        line(rt, kernel, Op::Transparent, Op::Transparent, timed)?;
    }
    Ok(())
}

/// Prints a line for each kernel with operations, for three pairs of these.
fn mask_lines<R: Print + Clock + AllocGlobal>(rt: &R, timed: bool) -> io::Result<()> {
    for kernel in [Kernel::MaskRow, Kernel::MaskCells] {
        line(rt, kernel, Op::Set(9), Op::Bg, timed)?;
        line(rt, kernel, Op::Fg, Op::Transparent, timed)?;
        line(rt, kernel, Op::Exchange(7, 1), Op::Transparent, timed)?;
    }
    Ok(())
}

/// Prints a line for each scroll.
fn scroll_lines<R: Print + Clock + AllocGlobal>(rt: &R, timed: bool) -> io::Result<()> {
    scroll(rt, 0, Point { h: 0, v: 8 }, timed)?;
    scroll(rt, 0, Point { h: 0, v: -8 }, timed)?;
    scroll(rt, 1, Point { h: 0, v: 8 }, timed)?;
    scroll(rt, 1, Point { h: 0, v: -8 }, timed)?;
    scroll(rt, 0, Point { h: 8, v: 0 }, timed)?;
    scroll(rt, 0, Point { h: -8, v: 0 }, timed)
}

/// Whether the first word is `time`.
fn has_word<R: Env + AllocGlobal>(rt: &R) -> io::Result<bool> {
    let words = env::args(rt)?;
    Ok(words.skip(1).any(|word| word.as_str() == "time"))
}

/// Prints a line for a kernel.
fn line<R: Print + Clock + AllocGlobal>(
    rt: &R,
    kernel: Kernel,
    one: Op,
    zero: Op,
    timed: bool,
) -> io::Result<()> {
    print!(rt; "{kernel} {one:?} {zero:?}")?;
    for width in WIDTHS {
        print_answer(rt, kernel, width, one, zero)?;
        if timed {
            print_speed(rt, speed(rt, kernel, width, one, zero)?)?;
        }
    }
    println!(rt; "")
}

fn print_answer<R: Print + AllocGlobal>(
    rt: &R,
    kernel: Kernel,
    width: usize,
    one: Op,
    zero: Op,
) -> io::Result<()> {
    let (answer, sum) = answer(rt.alloc(), kernel, width, one, zero)?;
    print!(rt; " {width}: {answer} {sum}")
}

/// The answer of a kernel, and the sum of the row after it.
fn answer(
    alloc: Global,
    kernel: Kernel,
    width: usize,
    one: Op,
    zero: Op,
) -> io::Result<(usize, u64)> {
    let mut rows = Rows::mixed(alloc, width)?;
    let answer = kernel.run(&mut rows, 0x9c, one, zero);
    Ok((answer, rows.sum()))
}
