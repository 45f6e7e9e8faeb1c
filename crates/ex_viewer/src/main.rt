//! A program to copy from: it reads a stream of updates from standard input, piece by piece as it comes, and
//! prints after each cut the changed part of the screen. A viewer that draws copies the rows of
//! `mirror.screen()` within that part. Only a run of the program shows that the lines arrive on standard
//! output.
#![tactic(auto)]

mod stops;

use crate::stops::Stopped;
use std::process::ExitCode;
use tr_io::{Source, StdSource};
use tr_mirror::{Change, Mirror};

/// The number of bytes in one read.
const PIECE: usize = 4096;

fn main(rt: HostRuntime) -> ExitCode {
    let mut source = StdSource::new(rt.stdin());
    match view(&rt, &mut source) {
        Ok(()) => ExitCode::SUCCESS,
        Err(stopped) => {
            let _ = println!(rt; "{stopped}");
            ExitCode::FAILURE
        }
    }
}

/// Prints the changes of the stream in a source, to its end.
fn view<R: Print + AllocGlobal, S: Source>(rt: &R, source: &mut S) -> Result<(), Stopped> {
    let mut piece = vec![in rt.alloc(); 0u8; PIECE]?;
    let mut mirror = Mirror::new(rt.alloc())?;
    view_pieces(rt, source, &mut mirror, &mut piece)
}

/// Prints the changes of the stream in a source, to its end. The bytes come by way of `piece`.
fn view_pieces<R: Print + AllocGlobal, S: Source>(
    rt: &R,
    source: &mut S,
    mirror: &mut Mirror,
    piece: &mut [u8],
) -> Result<(), Stopped> {
    'pieces: for _ in 0..u64::MAX {
        let count = source.read(piece)?;
        if count == 0 {
            break 'pieces;
        }
        view_piece(rt, mirror, &piece[..count])?;
    }
    mirror.end()?;
    Ok(())
}

/// Prints a line for each cut that the piece ends.
fn view_piece<R: Print + AllocGlobal>(
    rt: &R,
    mirror: &mut Mirror,
    piece: &[u8],
) -> Result<(), Stopped> {
    let mut rest = piece;
    while !rest.is_empty() {
        let cuts = mirror.cuts();
        let count = mirror.feed_to_cut(rest)?;
        rest = &rest[count..];
        if mirror.cuts() != cuts {
            print_change(rt, mirror)?;
        }
    }
    Ok(())
}

/// Prints the change of the last cut.
fn print_change<R: Print + AllocGlobal>(rt: &R, mirror: &Mirror) -> Result<(), Stopped> {
    let cut = mirror.cuts();
    match mirror.changed() {
        Change::Nothing => println!(rt; "cut {cut} unchanged")?,
        Change::Within(bounds) => {
            let (west, east) = (bounds.west, bounds.east);
            let (north, south) = (bounds.north, bounds.south);
            println!(rt; "cut {cut} changed {west} {east} {north} {south}")?;
        }
        Change::Screen => {
            if let Some(screen) = mirror.screen() {
                let size = screen.size();
                let (wide, high) = (size.wide, size.high);
                println!(rt; "cut {cut} screen {wide} {high}")?;
            }
        }
    }
    Ok(())
}
