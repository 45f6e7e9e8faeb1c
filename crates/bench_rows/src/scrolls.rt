ghost use Rattle.std.specs.Prelude.{◌≡◌, ◌≤◌, ◌≤ℤ◌, neg_ℤ, pos, IfOk};
ghost use Rattle.tr_region.specs.Points.{holds};
ghost use Rattle.tr_repair.specs.Moves.{MovesOn};

use crate::speeds::print_speed;
use std::alloc::Global;
use std::hint::black_box;
use std::io;
use std::io::ErrorKind;
use std::rt::Clock;
use std::time::Instant;
use tr_base::{Kind, NoMemory, Point, Rect, Size, whole};
use tr_region::Region;
use tr_repair::move_pixels;
use tr_screen::Screen;

/// The number of measured spans. The best one counts.
const SPANS: u32 = 40;

/// The number of scrolls of a screen in a span.
const ROUND: u64 = 32;

/// The size of each screen.
const SIZE: Size = Size {
    wide: 1024,
    high: 768,
};

/// A screen whose columns from `west` on are scrolled.
#[derive(Drop)]
struct Scrolled {
    screen: Screen,
    west: u16,
    delta: Point,
    /// The points whose pixels can come from `delta` before them.
    within: Region,
}

impl Scrolled {
    fn new(alloc: Global, west: u16, delta: Point) -> Result<Scrolled, NoMemory>
        requires west { neg_ℤ (pos 64) ≤ℤ delta.h }
        requires east { delta.h ≤ℤ pos 64 }
        requires north { neg_ℤ (pos 64) ≤ℤ delta.v }
        requires south { delta.v ≤ℤ pos 64 }
        ensures { IfOk result (λ s. MovesOn s.screen.size s.delta (holds s.within)) }
    {
        let within = movable(alloc, SIZE, west, delta)?;
        let Ok(screen) = mixed(alloc, SIZE) else {
            drop(within);
            return Err(NoMemory);
        };
        Ok(Scrolled {
            screen,
            west,
            delta,
            within,
        })
    }
}

/// Prints a line for a scroll of all columns of a screen from `west` on.
pub fn scroll<R: Print + Clock + AllocGlobal>(
    rt: &R,
    west: u16,
    delta: Point,
    timed: bool,
) -> io::Result<()>
    requires west { neg_ℤ (pos 64) ≤ℤ delta.h }
    requires east { delta.h ≤ℤ pos 64 }
    requires north { neg_ℤ (pos 64) ≤ℤ delta.v }
    requires south { delta.v ≤ℤ pos 64 }
{
    let mut scrolled = Scrolled::new(rt.alloc(), west, delta).map_err(out_of_memory)?;
    line(rt, &mut scrolled, timed)
}

/// Scrolls once, and prints the line.
fn line<R: Print + Clock + AllocGlobal>(
    rt: &R,
    scrolled: &mut Scrolled,
    timed: bool,
) -> io::Result<()>
    requires { MovesOn scrolled.old.screen.size scrolled.old.delta (holds scrolled.old.within) }
{
    move_pixels(&mut scrolled.screen, &scrolled.within, scrolled.delta);
    print_sum(rt, scrolled)?;
    if timed {
        let nanos = best_scroll(rt, &mut scrolled.screen, &scrolled.within, scrolled.delta)?;
        print_speed(rt, hundredths(nanos, bytes_in(&scrolled.within)))?;
    }
    println!(rt; "")
}

fn print_sum<R: Print + AllocGlobal>(rt: &R, scrolled: &Scrolled) -> io::Result<()> {
    let (west, delta, sum) = (scrolled.west, scrolled.delta, sum_of(&scrolled.screen));
    print!(rt; "move_pixels from {west} by {} {}: {sum}", delta.h, delta.v)
}

/// Prints a line for a copy of as many bytes as a screen has without 8 rows, in one call of std.
pub fn copy<R: Print + Clock + AllocGlobal>(rt: &R, timed: bool) -> io::Result<()> {
    print!(rt; "std copy_within of 768 rows")?;
    if timed {
        let nanos = best_copy(rt)?;
        print_speed(rt, hundredths(nanos, 778_240))?;
    }
    println!(rt; "")
}

/// The speed for this many bytes in this time, in hundredths of a billion bytes a second.
fn hundredths(nanos: u64, bytes: u64) -> u64 {
    bytes.wrapping_mul(ROUND * 100) / nanos.max(1)
}

fn zeros(alloc: Global, count: usize) -> io::Result<Vec<u8>> {
    vec![in alloc; 0; count].map_err(|_| io::Error::from(ErrorKind::OutOfMemory))
}

/// A screen whose rows differ from one another.
fn mixed(alloc: Global, size: Size) -> Result<Screen, NoMemory>
    requires { size ≡ record { wide = 1024; high = 768 } }
    ensures { IfOk result (λ s. s.size ≡ size) }
{
    let mut screen = Screen::blank(alloc, size, Kind::Map8)?;
    for v in 0..size.high {
        mix(screen.row_mut(v), usize::from(v));
    }
    Ok(screen)
}

/// Writes the colours from `start` on.
fn mix(row: &mut [u8], start: usize) {
    for (h, pixel) in row.iter_mut().enumerate() {
        let i = start.wrapping_add(h);
        *pixel = (i.wrapping_mul(i) / 7 % 251) as u8;
    }
}

/// The points of a screen from a column on whose pixels can come from `delta` before them.
fn movable(alloc: Global, size: Size, west: u16, delta: Point) -> Result<Region, NoMemory>
    requires wide { size.wide ≤ 1024 }
    requires high { size.high ≤ 1024 }
    requires west { neg_ℤ (pos 64) ≤ℤ delta.h }
    requires east { delta.h ≤ℤ pos 64 }
    requires north { neg_ℤ (pos 64) ≤ℤ delta.v }
    requires south { delta.v ≤ℤ pos 64 }
    ensures { IfOk result (λ r. MovesOn size delta (holds r)) }
{
    let all = whole(size);
    let both = all.meet(&all.shift(delta));
    let part = Rect::edges(i32::from(west), 65_536, 0, 65_536);
    let region = Region::of_rect(alloc, both.meet(&part))?;
    Ok(region)
}

/// The number of pixels of a region of one rectangle.
fn bytes_in(region: &Region) -> u64 {
    let mut count: u64 = 0;
    for rect in region.rects() {
        let (wide, high) = rect.size();
        count = count.wrapping_add(u64::from(wide).wrapping_mul(u64::from(high)));
    }
    count
}

/// A sum of all pixels that depends on their order.
fn sum_of(screen: &Screen) -> u64 {
    let mut sum: u64 = 0;
    for v in 0..screen.size().high {
        for pixel in screen.row(v) {
            sum = sum.wrapping_mul(31).wrapping_add(u64::from(*pixel));
        }
    }
    sum
}

fn best_scroll<R: Clock>(
    rt: &R,
    screen: &mut Screen,
    within: &Region,
    delta: Point,
) -> io::Result<u64>
    requires { MovesOn screen.old.size delta (holds within.now) }
{
    let mut best = u64::MAX;
    for _ in 0..SPANS {
        let start = Instant::now(rt)?;
        repeat(screen, within, delta);
        let nanos = start.elapsed(rt)?.as_nanos();
        best = best.min(u64::try_from(nanos).unwrap_or(u64::MAX));
    }
    Ok(best)
}

#[inline(never)]
fn repeat(screen: &mut Screen, within: &Region, delta: Point)
    requires { MovesOn screen.old.size delta (holds within.now) }
    ensures { screen.new.size ≡ screen.old.size }
{
    for _ in 0..ROUND {
        move_pixels(screen, within, delta);
    }
}

fn best_copy<R: Clock + AllocGlobal>(rt: &R) -> io::Result<u64> {
    let mut bytes = zeros(rt.alloc(), 786_432)?;
    best_copy_of(rt, &mut bytes)
}

fn best_copy_of<R: Clock>(rt: &R, bytes: &mut [u8]) -> io::Result<u64> {
    let mut best = u64::MAX;
    for _ in 0..SPANS {
        let start = Instant::now(rt)?;
        for _ in 0..ROUND {
            copy_on(black_box(&mut *bytes));
        }
        let nanos = start.elapsed(rt)?.as_nanos();
        best = best.min(u64::try_from(nanos).unwrap_or(u64::MAX));
    }
    Ok(best)
}

/// Copies all bytes but the last 8 rows of 1024 to 8 rows further.
#[inline(never)]
fn copy_on(bytes: &mut [u8]) {
    let count = bytes.len();
    if count > 8192 {
        bytes.copy_within(0..count - 8192, 8192);
    }
}

fn out_of_memory(_error: NoMemory) -> io::Error {
    io::Error::from(ErrorKind::OutOfMemory)
}
