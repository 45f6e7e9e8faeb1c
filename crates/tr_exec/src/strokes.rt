ghost use Rattle.std.specs.Prelude.{◌≡◌, ◌<◌, ◌≤◌, ◌+◌, ◌/◌, ◌*◌, ◌≤ℤ◌, ◌<ℤ◌, ◌-◌, ℕ, pos, ◌+ℤ◌, if◌then◌else◌, List, ◌++◌, length, take, drop, slice_index, unsigned_abs};
ghost use Rattle.std.specs.List.{AllPass};
ghost use Rattle.std.specs.Simd.Lanes.{chunk, put_chunk};
ghost use Rattle.tr_base.specs.Lines.{is_printable};
ghost use Rattle.tr_base.specs.Ops.{resolved as resolved_of};
ghost use Rattle.tr_base.specs.Tiles.{tile_bit, tile_index as place_in_tile};
ghost use Rattle.tr_base.specs.Fonts.{glyph_of, glyph_bit};
ghost use Rattle.tr_base.specs.Pixmaps.{pixmap_at};
ghost use Rattle.tr_kernel.specs.Masks.{painted};
ghost use Rattle.tr_exec.specs.Strokes.{IsWithin, IsInCells, AreGlyphRows, east_of, by_turns};

use std::simd::prelude::*;
use tr_base::{Font, Kind, LINE, Line, Pixmap, Point, Tile, place_of, resolved};
use tr_kernel::{Lettering, Letters, Mask, copy_row, letter_row};

/// The number of bytes of the glyphs of the longest text.
const BITS: usize = 8 * LINE;

/// Paints a run through a tile. The run begins at the point `at` of the tile.
pub(crate) fn texture_run(mask: &Mask, tile: &Tile, at: Point, pixels: &mut [u8])
    ensures { (k : ℕ) → k < length pixels.old →
        slice_index pixels.new k
        ≡ painted mask.now (tile_bit tile.now (at.h +ℤ pos k) at.v) (slice_index pixels.old k) }
{
    mask.row(pixels, tile_row(tile, at.v), place_of(at.h));
}

/// The row of a tile at a coordinate.
fn tile_row(tile: &Tile, v: i32) -> u8
    ensures { result ≡ slice_index tile.now.rows (place_in_tile v) }
{
    tile.rows[usize::from(place_of(v))]
}

/// Writes the pixels of a picture along a run. The run begins at the point `at` of the picture.
pub(crate) fn pixels_run(kind: Kind, src: &Pixmap, at: Point, pixels: &mut [u8])
    requires { IsWithin src.now.size at (length pixels.old) }
    ensures { (k : ℕ) → k < length pixels.old →
        slice_index pixels.new k ≡ resolved_of kind (pixmap_at src.now (east_of at k)) }
{
    let west = at.h.unsigned_abs() as usize;
    let row = src.row(row_of(at.v, src.size().high));
    copy_row(pixels, &row[west..west + pixels.len()]);
    resolve_row(kind, pixels);
}

/// A coordinate as a row number below `high`.
fn row_of(v: i32, high: u16) -> u16
    requires north { pos 0 ≤ℤ v }
    requires south { v <ℤ pos high }
    ensures value { result ≡ unsigned_abs v }
    ensures row { result < high }
{
    v as u16
}

/// Cuts each pixel to the values of the kind.
fn resolve_row(kind: Kind, pixels: &mut [u8])
    ensures { (k : ℕ) → k < length pixels.old →
        slice_index pixels.new k ≡ resolved_of kind (slice_index pixels.old k) }
{
    if kind == Kind::Map8 {
        return;
    }
    for pixel in pixels.iter_mut() {
        *pixel = resolved(kind, *pixel);
    }
}

/// The glyphs of a text, row by row from north to south: each row has a byte for each cell.
#[derive(Drop)]
pub(crate) struct GlyphRows<'a> {
    pub font: &'a Font,
    pub text: &'a Line,
    pub bits: [u8; BITS],
    pub ghost rows: { AreGlyphRows font.now text.now bits },
}

impl<'a> GlyphRows<'a> {
    /// The rows of a text's glyphs.
    pub fn of(font: &'a Font, text: &'a Line) -> GlyphRows<'a>
        ensures font { result.font.now ≡ font.now }
        ensures text { result.text.now ≡ text.now }
    {
        GlyphRows {
            font,
            text,
            bits: glyph_rows(font, text.bytes()),
        }
    }
}

/// Paints a run through the glyphs of a text. The run begins at the point `at` of the text's cells.
pub(crate) fn text_run(mask: &Mask, glyphs: &GlyphRows<'_>, at: Point, pixels: &mut [u8])
    requires { IsInCells (length glyphs.now.text.now) at (length pixels.old) }
    ensures { (k : ℕ) → k < length pixels.old →
        let column = unsigned_abs at.h + k in
        let byte = slice_index glyphs.now.text.now (column / 8) in
        slice_index pixels.new k ≡ painted mask.now
        (glyph_bit glyphs.now.font.now byte column (unsigned_abs at.v)) (slice_index pixels.old k) }
{
    let h = at.h.unsigned_abs() as usize;
    let row = LINE * at.v.unsigned_abs() as usize;
    glyphs.text.invariant();
    mask.cells(pixels, &glyphs.bits[row + h / 8..row + LINE], (h % 8) as u8);
}

/// Writes a run of a text. The run begins at the point `at` of the text's cells.
pub(crate) fn letters_run(lettering: &Lettering<'_>, at: Point, pixels: &mut [u8])
    requires { IsInCells (length lettering.now.text.now) at (length pixels.old) }
    ensures { (k : ℕ) → k < length pixels.old →
        let column = unsigned_abs at.h + k in
        let byte = slice_index lettering.now.text.now (column / 8) in
        slice_index pixels.new k ≡ (if glyph_bit lettering.now.font.now byte column (unsigned_abs at.v)
        then lettering.now.one else lettering.now.zero) }
{
    let h = at.h.unsigned_abs() as usize;
    let letters = Letters {
        font: lettering.font,
        text: letters_from(lettering.text, h / 8),
        v: at.v.unsigned_abs() as usize,
        phase: h % 8,
    };
    letter_row(pixels, &letters, lettering.one, lettering.zero);
}

/// The letters of a text from this index on.
fn letters_from(text: &Line, first: usize) -> &[u8]
    requires { first ≤ length text.now }
    ensures letters { result.now ≡ take (length text.now - first) (drop first text.now) }
    ensures printable { AllPass is_printable result.now }
{
    &text.bytes()[first..]
}

/// The rows of the glyphs of these bytes.
fn glyph_rows(font: &Font, text: &[u8]) -> [u8; BITS]
    requires short { length text.now ≤ LINE }
    ensures { AreGlyphRows font.now text.now result }
{
    let mut glyphs = [0; BITS];
    gather(font, text, &mut glyphs);
    let mut bits = [0; BITS];
    for i in 0..text.len().div_ceil(8) {
        put_eight(&mut bits, 8 * i, &glyphs[64 * i..64 * i + 64]);
    }
    bits
}

/// Writes the glyphs of these bytes, one after another.
#[inline(always)]
fn gather(font: &Font, text: &[u8], glyphs: &mut [u8; BITS])
    requires short { length text.now ≤ LINE }
    ensures { (k v : ℕ) → k < length text.now → v < 8 →
        slice_index glyphs.new (8 * k + v)
        ≡ slice_index (glyph_of font.now (slice_index text.now k)) v }
{
    for (i, byte) in text.iter().enumerate() {
        put_glyph(glyphs, 8 * i, &font.glyph_of(*byte));
    }
}

/// Writes a glyph at a place.
#[inline(always)]
fn put_glyph(glyphs: &mut [u8; BITS], at: usize, glyph: &[u8; 8])
    requires room { at + 8 ≤ BITS }
    ensures { glyphs.new ≡ put_chunk at glyphs.old glyph.now }
{
    // A vector made from an array would be made byte by byte, and this is one store.
    glyphs[at..at + 8].copy_from_slice(glyph);
}

/// Writes the rows of eight glyphs into the cells from `at` on.
#[inline(always)]
fn put_eight(bits: &mut [u8; BITS], at: usize, glyphs: &[u8])
    requires room { at + 8 ≤ LINE }
    requires eight { length glyphs.now ≡ 64 }
    ensures put { (v k : ℕ) → v < 8 → k < 8 →
        slice_index bits.new (LINE * v + (at + k)) ≡ slice_index glyphs.now (8 * k + v) }
    ensures before { (v k : ℕ) → k < at →
        slice_index bits.new (LINE * v + k) ≡ slice_index bits.old (LINE * v + k) }
{
    let rows = exchanged(glyphs);
    for v in 0..8 {
        put_row(bits, LINE * v + at, u8x8::from_slice(&rows[8 * v..]));
    }
}

/// Writes eight bytes at a place.
#[inline(always)]
fn put_row(bits: &mut [u8; BITS], at: usize, row: u8x8)
    requires room { at + 8 ≤ BITS }
    requires lanes { length row ≡ 8 }
    ensures { bits.new ≡ put_chunk at bits.old row }
{
    row.copy_to_slice(&mut bits[at..]);
}

/// The columns of eight rows of eight bytes.
///
/// The halves are interleaved three times: each time the bits of a byte's place rotate by one.
#[inline(always)]
fn exchanged(rows: &[u8]) -> [u8; 64]
    requires { length rows.now ≡ 64 }
    ensures { (v k : ℕ) → v < 8 → k < 8 →
        slice_index result (8 * v + k) ≡ slice_index rows.now (8 * k + v) }
{
    let (a, b) = halves(rows);
    let (a, b) = turned(a, b);
    let (a, b) = turned(a, b);
    let (a, b) = turned(a, b);
    joined(a, b)
}

/// The two halves of 64 bytes.
#[inline(always)]
fn halves(bytes: &[u8]) -> (u8x32, u8x32)
    requires { length bytes.now ≡ 64 }
    ensures { result ≡ (chunk 0 32 bytes.now, chunk 32 32 bytes.now) }
{
    (u8x32::from_slice(bytes), u8x32::from_slice(&bytes[32..]))
}

/// The bytes of two halves, interleaved, as two halves again.
#[inline(always)]
fn turned(a: u8x32, b: u8x32) -> (u8x32, u8x32)
    requires a { length a ≡ 32 }
    requires b { length b ≡ 32 }
    ensures { result ≡ (by_turns (a ++ b) 0, by_turns (a ++ b) 32) }
{
    a.interleave(b)
}

/// Two halves, one after the other.
#[inline(always)]
fn joined(a: u8x32, b: u8x32) -> [u8; 64]
    requires a { length a ≡ 32 }
    requires b { length b ≡ 32 }
    ensures { result ≡ a ++ b }
{
    let mut bytes = [0; 64];
    put_half(&mut bytes, 0, a);
    put_half(&mut bytes, 32, b);
    bytes
}

/// Writes half of 64 bytes at a place.
#[inline(always)]
fn put_half(bytes: &mut [u8; 64], at: usize, half: u8x32)
    requires room { at + 32 ≤ 64 }
    requires lanes { length half ≡ 32 }
    ensures { bytes.new ≡ put_chunk at bytes.old half }
{
    half.copy_to_slice(&mut bytes[at..]);
}
