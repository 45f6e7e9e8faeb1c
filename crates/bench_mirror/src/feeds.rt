ghost use Rattle.std.specs.Prelude.{◌<◌};

use crate::updates::PIXELS;
use crate::{out_of_memory, print_speed};
use std::alloc::Global;
use std::hint::black_box;
use std::io;
use std::io::ErrorKind;
use std::rt::Clock;
use std::time::Instant;
use tr_mirror::Mirror;

/// The number of measured spans. The best one counts.
const SPANS: u32 = 100;

/// Prints a line for a copy of a stream, and for each size of a mirror's pieces.
pub fn feeds<R: Print + Clock + AllocGlobal>(rt: &R, stream: &[u8], timed: bool) -> io::Result<()> {
    let nanos = best_copy(rt, rt.alloc(), stream, timed)?;
    line(rt, "std copy_from_slice", stream.len(), nanos)?;
    for (name, step) in [
        ("feed in one piece", usize::MAX),
        ("feed in pieces of 65536", 65_536),
        ("feed in pieces of 100", 100),
        ("feed in pieces of 1", 1),
    ] {
        let nanos = best_feed(rt, rt.alloc(), stream, step, timed)?;
        line(rt, name, stream.len(), nanos)?;
    }
    Ok(())
}

fn line<R: Print + AllocGlobal>(
    rt: &R,
    name: &str,
    count: usize,
    nanos: Option<u64>,
) -> io::Result<()> {
    print!(rt; "{name}: {count} bytes")?;
    if let Some(nanos) = nanos {
        print_speed(rt, (PIXELS as u64).wrapping_mul(100) / nanos.max(1))?;
    }
    println!(rt; "")
}

/// The best time of a copy of a stream in nanoseconds, if it is to be measured.
fn best_copy<R: Clock>(
    rt: &R,
    alloc: Global,
    stream: &[u8],
    timed: bool,
) -> io::Result<Option<u64>> {
    if !timed {
        return Ok(None);
    }
    let mut copy = vec![in alloc; 0; stream.len()].map_err(|_| no_memory())?;
    let mut best = u64::MAX;
    for _ in 0..SPANS {
        let start = Instant::now(rt)?;
        copy_all(&mut copy, black_box(stream));
        let nanos = start.elapsed(rt)?.as_nanos();
        best = best.min(u64::try_from(nanos).unwrap_or(u64::MAX));
    }
    Ok(Some(best))
}

#[inline(never)]
fn copy_all(copy: &mut [u8], stream: &[u8]) {
    if copy.len() == stream.len() {
        copy.copy_from_slice(stream);
    }
}

/// The best time of a new mirror for a stream in pieces of `step` bytes, in nanoseconds, if it is to be
/// measured.
fn best_feed<R: Clock>(
    rt: &R,
    alloc: Global,
    stream: &[u8],
    step: usize,
    timed: bool,
) -> io::Result<Option<u64>> {
    let spans = if timed { SPANS } else { 1 };
    let mut best = u64::MAX;
    for _ in 0..spans {
        best = best.min(feed_new(rt, alloc, stream, step)?);
    }
    Ok(timed.then_some(best))
}

/// The nanoseconds of a new mirror.
fn feed_new<R: Clock>(rt: &R, alloc: Global, stream: &[u8], step: usize) -> io::Result<u64> {
    let mut mirror = Mirror::new(alloc).map_err(out_of_memory)?;
    let nanos = span(rt, &mut mirror, stream, step);
    drop(mirror);
    nanos
}

/// The nanoseconds of a mirror that was fed nothing.
fn span<R: Clock>(rt: &R, mirror: &mut Mirror, stream: &[u8], step: usize) -> io::Result<u64> {
    let start = Instant::now(rt)?;
    if !is_fed(mirror, stream, step) {
        return Err(io::Error::from(ErrorKind::InvalidData));
    }
    let nanos = start.elapsed(rt)?.as_nanos();
    Ok(u64::try_from(nanos).unwrap_or(u64::MAX))
}

/// Feeds a stream to a mirror that was fed nothing. Answers whether it has no fault, and a cut.
#[inline(never)]
fn is_fed(mirror: &mut Mirror, stream: &[u8], step: usize) -> bool {
    if step == 0 || stream.len() > 2_000_000 {
        return false;
    }
    feed_all(mirror, stream, step) && mirror.cuts() == 1 && mirror.is_between()
}

/// Feeds a stream in pieces. Answers whether it has no fault.
fn feed_all(mirror: &mut Mirror, stream: &[u8], step: usize) -> bool
    requires step { 0 < step }
{
    let mut rest = stream;
    while !rest.is_empty() {
        let (piece, behind) = rest.split_at(step.min(rest.len()));
        if mirror.feed(piece).is_err() {
            return false;
        }
        rest = behind;
    }
    true
}

fn no_memory() -> io::Error {
    io::Error::from(ErrorKind::OutOfMemory)
}
