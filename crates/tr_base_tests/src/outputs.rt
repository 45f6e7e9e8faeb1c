//! Texts that are kept until they are written, against plain texts of the same screens.
ghost use Rattle.std.specs.Prelude.{◌≡◌, ◌<◌, ◌≤◌};

use super::ends::made;
use super::screens::blank;
use std::process::Abort;
use tr_io::MemorySink;
use tr_output::{Output, WriteRefused};
use tr_screen::Screen;

/// The hex digit of a number.
fn digit(number: u8) -> u8
    requires { number < 16 }
{
    b"0123456789abcdef"[usize::from(number)]
}

/// Appends a line, and then a line for each row of a screen, pixel by pixel.
fn append_plain(rt: &impl Abort, text: &mut Vec<u8>, head: &[u8], screen: &Screen) {
    made(rt, text.extend_from_slice(head));
    for v in 0..screen.size().high {
        for pixel in screen.row(v) {
            made(rt, text.push(digit(*pixel / 16)));
            made(rt, text.push(digit(*pixel % 16)));
        }
        made(rt, text.push(b'\n'));
    }
}

/// A screen in which rows come in pairs, and again after eight.
fn drawn(rt: &(impl Abort + AllocGlobal), wide: u16, high: u16) -> Screen
    requires wide { 1 ≤ wide × (wide ≤ 1024) }
    requires high { 1 ≤ high × (high ≤ 1024) }
    ensures { result.size ≡ record { wide = wide; high = high } }
{
    let mut screen = blank(rt, wide, high);
    for v in 0..high {
        for (h, pixel) in screen.row_mut(v).iter_mut().enumerate() {
            *pixel = (h % 256) as u8 ^ (v / 2 % 4 * 29) as u8;
        }
    }
    screen
}

/// Whether a text comes out as these bytes by a sink that takes so many of them at once.
fn comes_out_by(rt: &(impl Abort + AllocGlobal), output: &Output, piece: usize, want: &[u8]) -> bool
    requires { 1 ≤ piece }
{
    let mut sink = MemorySink::new(rt.alloc(), piece, Vec::new(rt.alloc()));
    output.write_to(&mut sink).is_ok() && sink.written() == want
}

/// Whether a text comes out as these bytes by each sink, and again.
fn comes_out(rt: &(impl Abort + AllocGlobal), output: &Output, want: &[u8]) -> bool {
    let by_few = comes_out_by(rt, output, 1, want) && comes_out_by(rt, output, 7, want);
    by_few && comes_out_by(rt, output, 65_536, want) && comes_out_by(rt, output, 65_536, want)
}

/// Whether three dumps of a screen, of which one pixel changes in between, come out.
fn are_dumped(rt: &(impl Abort + AllocGlobal), wide: u16, high: u16) -> bool
    requires wide { 1 ≤ wide × (wide ≤ 1024) }
    requires high { 1 ≤ high × (high ≤ 1024) }
{
    let mut screen = drawn(rt, wide, high);
    let mut output = Output::new(rt.alloc());
    let mut text = Vec::new(rt.alloc());
    for number in 0..3 {
        screen.row_mut(number % high)[usize::from(wide) / 2] = 200;
        made(rt, output.append_screen(b"dump\n", &screen));
        append_plain(rt, &mut text, b"dump\n", &screen);
    }
    comes_out(rt, &output, &text)
}

#[test]
fn screens_come_out_row_by_row(rt: HostRuntime) {
    for wide in 1..=40 {
        for high in [1, 2, 9, 20] {
            assert!(rt; are_dumped(&rt, wide, high), "{wide} by {high}");
        }
    }
    assert!(rt;
        are_dumped(&rt, 1024, 30),
        "longer than what is written at once"
    );
}

/// Whether screens of two sizes come out in turn, with bytes before them, between them and behind them.
fn are_mixed(rt: &(impl Abort + AllocGlobal), first: (u16, u16), second: (u16, u16)) -> bool
    requires first { 1 ≤ first.0 × (first.0 ≤ 1024) × (1 ≤ first.1) × (first.1 ≤ 1024) }
    requires second { 1 ≤ second.0 × (second.0 ≤ 1024) × (1 ≤ second.1) × (second.1 ≤ 1024) }
{
    let one = drawn(rt, first.0, first.1);
    let other = drawn(rt, second.0, second.1);
    let mut output = Output::of(
        rt.alloc(),
        made(rt, Vec::from_slice(rt.alloc(), b"before\n")),
    );
    let mut text = made(rt, Vec::from_slice(rt.alloc(), b"before\n"));
    for _ in 0..2 {
        made(rt, output.append_screen(b"one\n", &one));
        append_plain(rt, &mut text, b"one\n", &one);
        made(rt, output.append_bytes(b"between\n"));
        made(rt, text.extend_from_slice(b"between\n"));
        made(rt, output.append_screen(b"", &other));
        append_plain(rt, &mut text, b"", &other);
    }
    made(rt, output.tail.extend_from_slice(b"behind\n"));
    made(rt, text.extend_from_slice(b"behind\n"));
    comes_out(rt, &output, &text)
}

#[test]
fn screens_of_two_sizes_come_out_in_turn(rt: HostRuntime) {
    for (first, second) in [
        ((1, 1), (2, 1)),
        ((8, 8), (8, 9)),
        ((3, 20), (4, 5)),
        ((40, 1), (1, 40)),
        ((40, 12), (20, 24)),
    ] {
        assert!(rt; are_mixed(&rt, first, second), "{first:?} and {second:?}");
        assert!(rt; are_mixed(&rt, second, first), "{second:?} and {first:?}");
    }
    assert!(rt; comes_out(&rt, &Output::new(rt.alloc()), b""), "none");
}

/// Whether a text that is written by seven bytes at once ends at this write, which fails, and the bytes of
/// the writes before it are written.
fn ends_at(rt: &(impl Abort + AllocGlobal), output: &Output, text: &[u8], write: u64) -> bool
    requires write { 1 ≤ write × (write ≤ 1000) }
{
    let fails = made(rt, Vec::from_slice(rt.alloc(), &[write]));
    let mut sink = MemorySink::new(rt.alloc(), 7, fails);
    let is_refused = output.write_to(&mut sink) == Err(WriteRefused::Failed);
    let written = sink.written();
    is_refused && written.len() == 7 * (write as usize - 1) && text.starts_with(written)
}

// A screen of 5 by 4, dumped twice: 2 * (5 + 4 * 11) bytes, which are 14 writes.
#[test]
fn each_write_of_a_text_fails(rt: HostRuntime) {
    let screen = drawn(&rt, 5, 4);
    let mut output = Output::new(rt.alloc());
    let mut text = Vec::new(rt.alloc());
    for _ in 0..2 {
        made(&rt, output.append_screen(b"dump\n", &screen));
        append_plain(&rt, &mut text, b"dump\n", &screen);
    }
    assert!(rt; text.len() == 98 && comes_out(&rt, &output, &text));
    for write in 1..=14 {
        assert!(rt; ends_at(&rt, &output, &text, write), "at {write}");
    }
}
