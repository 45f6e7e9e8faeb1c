use crate::out_of_memory;
use std::alloc::Global;
use std::hint::black_box;
use std::rt::Clock;
use std::time::Instant;
use std::{fmt, io};
use tr_base::{Kind, NoMemory, Size};
use tr_mirror::{has_its_pixels, update};
use tr_screen::Screen;

/// The number of measured spans. The best one counts.
const SPANS: u32 = 40;

/// The number of repetitions of a piece of work in a span.
const ROUND: u32 = 16;

/// The number of bytes of a screen's pixels.
pub(crate) const PIXELS: usize = 1024 * 1024;

/// A measured piece of work.
#[derive(Clone, Copy)]
pub enum Work {
    /// Two comparisons of as many bytes as a screen has, by std.
    TwoComparisons,
    /// The update from a screen to an equal one.
    SameScreen,
    /// A copy of as many bytes as a screen has, by std: into a Vec without elements that has room.
    Copy,
    /// That copy row by row, each row after seven other bytes, as in a stream.
    CopyRows,
    /// The update from a screen to one that differs in each pixel.
    OtherScreen,
}

/// Screens, and the same number of bytes beside them.
#[derive(Drop)]
pub struct Bench {
    last: Screen,
    same: Screen,
    other: Screen,
    bytes: Vec<u8>,
    copy: Vec<u8>,
    out: Vec<u8>,
    stream: Vec<u8>,
}

impl Bench {
    pub fn new(alloc: Global) -> Result<Bench, NoMemory> {
        let other = mixed(alloc, 1)?;
        let mut stream = Vec::new(alloc);
        push(None, &other, 1, &mut stream)?;
        Ok(Bench {
            last: mixed(alloc, 0)?,
            same: mixed(alloc, 0)?,
            other,
            bytes: vec![in alloc; 7; PIXELS]?,
            copy: vec![in alloc; 7; PIXELS]?,
            out: Vec::new(alloc),
            stream,
        })
    }

    /// A stream of one cut, with a Run for each row.
    pub fn stream(&self) -> &[u8] {
        &self.stream
    }
}

/// A screen without a row of one colour. Two with other numbers differ in each pixel.
fn mixed(alloc: Global, number: u8) -> Result<Screen, NoMemory> {
    let size = Size {
        wide: 1024,
        high: 1024,
    };
    let mut screen = Screen::blank(alloc, size, Kind::Map8)?;
    for v in 0..size.high {
        mix(screen.row_mut(v), number);
    }
    Ok(screen)
}

fn mix(row: &mut [u8], number: u8) {
    for (h, pixel) in row.iter_mut().enumerate() {
        *pixel = ((h % 251) as u8).wrapping_add(number);
    }
}

/// Appends the group for a screen, if it can be written.
fn push(
    last: Option<&Screen>,
    now: &Screen,
    number: u32,
    out: &mut Vec<u8>,
) -> Result<(), NoMemory> {
    if (1..=64).contains(&number) && last.is_none() == (number == 1) && has_its_pixels(now) {
        update(last, now, number, out)?;
    }
    Ok(())
}

/// Appends rows of 1024 bytes, each after seven others.
fn push_rows(bytes: &[u8], out: &mut Vec<u8>) -> Result<(), NoMemory> {
    for row in bytes.chunks_exact(1024) {
        out.extend_from_slice(&[2, 0, 0, 0, 0, 4, 0])?;
        out.extend_from_slice(row)?;
    }
    Ok(())
}

impl Work {
    /// Does the work once, and answers the number of bytes that it wrote.
    #[inline(never)]
    pub fn run(self, bench: &mut Bench) -> Result<usize, NoMemory> {
        bench.out.clear();
        match self {
            Work::TwoComparisons => {
                let once = black_box(bench.bytes.as_slice()) == bench.copy.as_slice();
                let twice = black_box(bench.copy.as_slice()) == bench.bytes.as_slice();
                return Ok(usize::from(once) + usize::from(twice));
            }
            Work::SameScreen => push(Some(&bench.last), &bench.same, 2, &mut bench.out)?,
            Work::Copy => bench
                .out
                .extend_from_slice(black_box(bench.bytes.as_slice()))?,
            Work::CopyRows => push_rows(black_box(bench.bytes.as_slice()), &mut bench.out)?,
            Work::OtherScreen => push(Some(&bench.last), &bench.other, 2, &mut bench.out)?,
        }
        Ok(bench.out.len())
    }
}

impl fmt::Display for Work {
    fn fmt<W: fmt::Write>(&self, f: &mut fmt::Formatter<W>) -> fmt::Result {
        f.write_str(match self {
            Work::TwoComparisons => "std ==, twice",
            Work::SameScreen => "update to the same screen",
            Work::Copy => "std extend_from_slice",
            Work::CopyRows => "std extend_from_slice, row by row",
            Work::OtherScreen => "update to another screen",
        })
    }
}

/// The best speed, in hundredths of a billion bytes of a screen a second.
pub fn speed<R: Clock>(rt: &R, bench: &mut Bench, work: Work) -> io::Result<u64> {
    let mut best = u64::MAX;
    for _ in 0..SPANS {
        let start = Instant::now(rt)?;
        for _ in 0..ROUND {
            black_box(work.run(bench).map_err(out_of_memory)?);
        }
        let nanos = start.elapsed(rt)?.as_nanos();
        best = best.min(u64::try_from(nanos).unwrap_or(u64::MAX));
    }
    Ok((PIXELS as u64).wrapping_mul(u64::from(ROUND) * 100) / best.max(1))
}
