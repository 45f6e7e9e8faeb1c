//! The bytes of a line, tested 16 at a time.
ghost use Rattle.std.specs.Prelude.{◌≡◌, ◌+◌, ◌≤◌, ◌==◌, not, length, map};
ghost use Rattle.std.specs.List.{list_all};
ghost use Rattle.std.specs.Simd.Lanes.{chunk, mask_l};
ghost use Rattle.memchr.specs.Find.{IsFirst, IsFirstByte, Passes, is_byte};
ghost use Rattle.tr_base.specs.Lines.{is_printable};
ghost use Rattle.tr_words.specs.Answers.{is_unprintable};

use std::simd::prelude::*;
use tr_base::is_printable;

const LANES: usize = 16;

/// Whether one of the 16 bytes from `at` on isn't printable.
#[inline(always)]
fn has_unprintable(line: &[u8], at: usize) -> bool
    requires { at + LANES ≤ length line.now }
    ensures { result ≡ not (mask_l (map is_unprintable (chunk at 16 line.now)) == 0) }
{
    let bytes = u8x16::from_slice(&line[at..]);
    let below = bytes.simd_lt(u8x16::splat(b' '));
    let above = bytes.simd_gt(u8x16::splat(b'~'));
    (below | above).any()
}

/// The same as `are_printable`, byte by byte.
fn are_all_printable(line: &[u8]) -> bool
    ensures { result ≡ list_all is_printable line.now }
{
    line.iter().all(|byte| is_printable(*byte))
}

/// Whether all bytes are printable.
pub fn are_printable(line: &[u8]) -> bool
    ensures { result ≡ list_all is_printable line.now }
{
    if line.len() < LANES {
        return are_all_printable(line);
    }
    for block in 0..line.len() / LANES {
        if has_unprintable(line, block * LANES) {
            return false;
        }
    }
    !has_unprintable(line, line.len() - LANES)
}

/// Bit k is set if the byte at `at + k` is a space.
#[inline(always)]
fn spaces_from(text: &[u8], at: usize) -> u64
    requires { at + LANES ≤ length text.now }
    ensures { result ≡ mask_l (map (is_byte 32) (chunk at 16 text.now)) }
{
    u8x16::from_slice(&text[at..])
        .simd_eq(u8x16::splat(b' '))
        .to_bitmask()
}

/// The first space of the 16 bytes from `at` on.
#[inline(always)]
fn space_from(text: &[u8], at: usize) -> Option<usize>
    requires { at + LANES ≤ length text.now }
    ensures { IsFirst (Passes (is_byte 32) text.now) at (at + 16) result }
{
    let spaces = spaces_from(text, at);
    if spaces == 0 {
        return None;
    }
    Some(at + spaces.trailing_zeros() as usize)
}

/// The same as `first_space`, byte by byte.
#[inline(always)]
fn near_space(text: &[u8]) -> Option<usize>
    ensures { IsFirstByte (is_byte 32) text.now result }
{
    for (at, byte) in text.iter().enumerate() {
        if *byte == b' ' {
            return Some(at);
        }
    }
    None
}

/// The first space.
pub fn first_space(text: &[u8]) -> Option<usize>
    ensures { IsFirstByte (is_byte 32) text.now result }
{
    if text.len() < LANES {
        return near_space(text);
    }
    for block in 0..text.len() / LANES {
        if let Some(at) = space_from(text, block * LANES) {
            return Some(at);
        }
    }
    space_from(text, text.len() - LANES)
}
