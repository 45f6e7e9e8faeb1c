//! Rows of the glyphs of letters side by side, written in two colours, two letters at a time.
ghost use Rattle.std.specs.Prelude.{◌≡◌, ◌<◌, ◌≤◌, ◌+◌, ◌-◌, ◌*◌, ◌/◌, ◌%◌, ◌++◌, ℕ, if◌then◌else◌, length, slice_index, bit_xor};
ghost use Rattle.std.specs.List.{AllPass};
ghost use Rattle.tr_base.specs.Lines.{is_printable};
ghost use Rattle.tr_kernel.specs.Letters.{bit_in_letters, inked, pixel_in};

use std::simd::prelude::*;
use tr_base::Font;

/// One row of the glyphs of letters side by side. The first pixel has column `phase` of the first letter.
#[derive(Clone, Copy)]
pub struct Letters<'a> {
    pub font: &'a Font,
    pub text: &'a [u8],
    pub v: usize,
    pub phase: usize,
}

/// The colour of a bit that isn't set, and the bits by which the colour of a set bit differs from it.
#[derive(Clone, Copy)]
pub(crate) struct Inks {
    pub zero: u8,
    pub change: u8,
}

/// Writes a row of letters: each pixel becomes `one` where its bit is set, and else `zero`.
pub fn letter_row(row: &mut [u8], letters: &Letters<'_>, one: u8, zero: u8)
    requires printable { AllPass is_printable letters.now.text.now }
    requires v { letters.now.v < 8 }
    requires phase { letters.now.phase < 8 }
    requires enough { length row.old + letters.now.phase ≤ 8 * length letters.now.text.now }
    ensures { (k : ℕ) → k < length row.old → slice_index row.new k
        ≡ (if bit_in_letters letters.now.font.now letters.now.text.now letters.now.v (k + letters.now.phase)
        then one else zero) }
{
    let inks = Inks {
        zero,
        change: one ^ zero,
    };
    write_letters(
        row,
        letters.font.row(letters.v),
        letters.text,
        letters.phase,
        inks,
    );
}

/// Writes letters from a row of all glyphs: the part of the first one, and then the others from its edge on.
fn write_letters(row: &mut [u8], source: &[u8], text: &[u8], phase: usize, inks: Inks)
    requires source { length source.now ≡ 760 }
    requires printable { AllPass is_printable text.now }
    requires phase { phase < 8 }
    requires enough { length row.old + phase ≤ 8 * length text.now }
    ensures { (k : ℕ) → k < length row.old →
        slice_index row.new k ≡ inked inks (pixel_in source.now text.now (k + phase)) }
{
    if phase == 0 || row.is_empty() {
        write_from_edge(row, source, text, inks);
        return;
    }
    let n = row.len().min(8 - phase);
    let (first, rest) = row.split_at_mut(n);
    write_part(first, &source[place_of(text[0]) + phase..], inks);
    write_from_edge(rest, source, &text[1..], inks);
}

/// The same, if the first pixel has the first column: whole letters, and the part of the last one.
fn write_from_edge(row: &mut [u8], source: &[u8], text: &[u8], inks: Inks)
    requires source { length source.now ≡ 760 }
    requires printable { AllPass is_printable text.now }
    requires enough { length row.old ≤ 8 * length text.now }
    ensures { (k : ℕ) → k < length row.old →
        slice_index row.new k ≡ inked inks (pixel_in source.now text.now k) }
{
    let count = row.len() / 8;
    let (whole, rest) = row.split_at_mut(8 * count);
    write_whole(whole, source, &text[..count], inks);
    if !rest.is_empty() {
        write_part(rest, &source[place_of(text[count])..], inks);
    }
}

/// Writes whole letters: two at a time, and the last one of an odd number.
#[inline(always)]
fn write_whole(row: &mut [u8], source: &[u8], text: &[u8], inks: Inks)
    requires source { length source.now ≡ 760 }
    requires printable { AllPass is_printable text.now }
    requires whole { length row.old ≡ 8 * length text.now }
    ensures { (k : ℕ) → k < length row.old →
        slice_index row.new k ≡ inked inks (pixel_in source.now text.now k) }
{
    for i in 0..text.len() / 2 {
        let near = place_of(text[2 * i]);
        let far = place_of(text[2 * i + 1]);
        pair_pixels(source, near, far, inks).copy_to_slice(&mut row[16 * i..]);
    }
    if text.len() % 2 == 1 {
        let last = text.len() - 1;
        letter_pixels(source, place_of(text[last]), inks).copy_to_slice(&mut row[8 * last..]);
    }
}

/// Eight pixels of a row of all glyphs from one place on, and eight from another, in two colours.
#[inline(always)]
pub(crate) fn pair_pixels(source: &[u8], near: usize, far: usize, inks: Inks) -> u8x16
    requires near { near + 8 ≤ length source.now }
    requires far { far + 8 ≤ length source.now }
    ensures lanes { length result ≡ 16 }
    ensures near { (h : ℕ) → h < 8 →
        slice_index result h ≡ inked inks (slice_index source.now (near + h)) }
    ensures far { (h : ℕ) → h < 8 →
        slice_index result (8 + h) ≡ inked inks (slice_index source.now (far + h)) }
{
    let both = side_by_side(
        u8x8::from_slice(&source[near..]),
        u8x8::from_slice(&source[far..]),
    );
    (both & u8x16::splat(inks.change)) ^ u8x16::splat(inks.zero)
}

/// The pixels of two letters as those of one row.
#[inline(always)]
fn side_by_side(near: u8x8, far: u8x8) -> u8x16
    requires near { length near ≡ 8 }
    requires far { length far ≡ 8 }
    ensures { result ≡ near ++ far }
{
    near.shuffle(far, [0, 1, 2, 3, 4, 5, 6, 7, 8, 9, 10, 11, 12, 13, 14, 15])
}

/// Eight pixels of a row of all glyphs, in two colours.
#[inline(always)]
pub(crate) fn letter_pixels(source: &[u8], place: usize, inks: Inks) -> u8x8
    requires { place + 8 ≤ length source.now }
    ensures lanes { length result ≡ 8 }
    ensures each { (h : ℕ) → h < 8 →
        slice_index result h ≡ inked inks (slice_index source.now (place + h)) }
{
    (u8x8::from_slice(&source[place..]) & u8x8::splat(inks.change)) ^ u8x8::splat(inks.zero)
}

/// Writes the first pixels. There are enough for the row.
fn write_part(row: &mut [u8], pixels: &[u8], inks: Inks)
    requires { length row.old ≤ length pixels.now }
    ensures { (k : ℕ) → k < length row.old →
        slice_index row.new k ≡ inked inks (slice_index pixels.now k) }
{
    for k in 0..row.len() {
        row[k] = (pixels[k] & inks.change) ^ inks.zero;
    }
}

/// The index of a letter's pixels in a row of all glyphs.
#[inline(always)]
pub(crate) fn place_of(byte: u8) -> usize
    requires first { 32 ≤ byte }
    requires last { byte ≤ 126 }
    ensures { result ≡ 8 * (byte - 32) }
{
    8 * (usize::from(byte) - 32)
}
