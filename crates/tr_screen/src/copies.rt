ghost use Rattle.std.specs.Prelude.{◌≡◌, ◌+◌, ◌≤◌, ◌<◌, length};
ghost use Rattle.tr_screen.specs.Copies.{IsCopied, IsFilled};

use tr_kernel::{copy_row, copy_rows_within, fill_row};

/// From this distance on, a copy that overlaps its source is made in pieces as long as the distance,
/// which don't overlap their sources. Measured at distances of 8 and of 8192 alone: `bench_rows`.
const FAR: usize = 64;

/// Copies `count` pixels from one place to another, as if all were read before any is written.
pub fn copy_pixels(pixels: &mut [u8], from: usize, to: usize, count: usize)
    requires source { from + count ≤ length pixels.old }
    requires target { to + count ≤ length pixels.old }
    ensures { IsCopied pixels.old pixels.new from to count }
{
    if to < from && FAR <= from - to && from - to < count {
        copy_down(pixels, from, to, count);
    } else if from < to && FAR <= to - from && to - from < count {
        copy_up(pixels, from, to, count);
    } else {
        copy_rows_within(pixels, from, to, count);
    }
}

/// Copies to a place further to the front, piece by piece from the front on.
fn copy_down(pixels: &mut [u8], from: usize, to: usize, count: usize)
    requires down { to < from }
    requires source { from + count ≤ length pixels.old }
    ensures { IsCopied pixels.old pixels.new from to count }
{
    let piece = from - to;
    for i in 0..count / piece {
        let at = i * piece;
        copy_rows_within(pixels, from + at, to + at, piece);
    }
    let done = count / piece * piece;
    copy_rows_within(pixels, from + done, to + done, count - done);
}

/// Copies to a place further to the end, piece by piece from the end on.
fn copy_up(pixels: &mut [u8], from: usize, to: usize, count: usize)
    requires up { from < to }
    requires target { to + count ≤ length pixels.old }
    ensures { IsCopied pixels.old pixels.new from to count }
{
    let piece = to - from;
    let rest = count % piece;
    for i in (0..count / piece).rev() {
        let at = rest + i * piece;
        copy_rows_within(pixels, from + at, to + at, piece);
    }
    copy_rows_within(pixels, from, to, rest);
}

/// Copies the pixels from one place to another through a spare row.
pub fn copy_through(pixels: &mut [u8], from: usize, to: usize, spare: &mut [u8])
    requires source { from + length spare.old ≤ length pixels.old }
    requires target { to + length spare.old ≤ length pixels.old }
    ensures { IsCopied pixels.old pixels.new from to (length spare.old) }
{
    let count = spare.len();
    copy_row(spare, &pixels[from..from + count]);
    copy_row(&mut pixels[to..to + count], spare);
}

/// Gives `count` pixels side by side this value.
pub fn fill_pixels(pixels: &mut [u8], start: usize, count: usize, pixel: u8)
    requires { start + count ≤ length pixels.old }
    ensures { IsFilled pixels.old pixels.new start count pixel }
{
    fill_row(&mut pixels[start..start + count], pixel);
}
