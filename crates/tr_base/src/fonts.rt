ghost use Rattle.std.specs.Prelude.{◌≡◌, ◌≢◌, ◌<◌, ◌≤◌, ◌+◌, ◌-◌, ◌*◌, ◌↔◌, ℕ, ◌==◌, if◌then◌else◌, slice_set, slice_index, length, IsTrue, IfOk};
ghost use Rattle.tr_base.specs.Fonts as spec;
ghost use Rattle.tr_base.specs.Tiles.{is_set as is_set_at};

use crate::errors::NoMemory;
use crate::ops::Kind;
use crate::tiles::is_set;
use std::alloc::Global;
use std::marker::Model;

/// The least byte with a glyph of its own.
const FIRST: u8 = 32;

/// The greatest byte with a glyph of its own.
const LAST: u8 = 126;

/// The number of bytes with a glyph of their own.
const GLYPHS: usize = 95;

/// The number of pixels in a row of all glyphs.
const ROW: usize = 8 * GLYPHS;

/// The glyph of a byte that was never set.
const BOX: [u8; 8] = [0xff, 0x81, 0x81, 0x81, 0x81, 0x81, 0x81, 0xff];

/// The glyphs of the bytes 32 to 126, each of 8 by 8 bits, row by row from north to south. The highest
/// bit of a row is the westmost pixel. The font also keeps the pixels of each glyph, so that a text is
/// painted without taking bits apart.
#[derive(Debug, Drop)]
pub struct Font {
    glyphs: Vec<[u8; 8]>,
    pixels: Vec<u8>,
}

impl Model for Font {
    ghost use Rattle.std.specs.Prelude.{ℕ, List};
    ghost use Rattle.tr_base.specs.Fonts.{HasPixels};

    ghost Value = { List (List ℕ) };

    ghost view = { λ f. f.glyphs.items };

    ghost invariant = { λ f. HasPixels f.glyphs.items f.pixels.items };
}

/// The environment of painting: the kind of the pixels, and the glyphs of texts.
#[derive(Clone, Copy)]
pub struct Env<'a> {
    pub kind: Kind,
    pub font: &'a Font,
}

impl Font {
    /// A font in which no glyph was set: each is a box.
    pub fn empty(alloc: Global) -> Result<Font, NoMemory>
        ensures glyphs { IfOk result (λ f. f ≡ spec.empty_font) }
    {
        let mut glyphs = Vec::with_capacity(alloc, GLYPHS)?;
        for done in 0..GLYPHS {
            glyphs.push(BOX)?;
        }
        let pixels = box_pixels(alloc)?;
        Ok(Font { glyphs, pixels })
    }

    /// Sets the glyph of a byte from 32 to 126.
    pub fn set(&mut self, byte: u8, rows: [u8; 8])
        requires first { 32 ≤ byte }
        requires last { byte ≤ 126 }
        ensures glyphs { self.new ≡ slice_set self.old (byte - 32) rows }
        ensures glyph { (b : ℕ) →
            spec.glyph_of self.new b ≡ (if b == byte then rows else spec.glyph_of self.old b) }
    {
        self.glyphs[usize::from(byte - FIRST)] = rows;
        put_glyph(&mut self.pixels, usize::from(byte - FIRST), rows);
    }

    /// The rows of a byte's glyph: a box for a byte that was never set.
    pub fn glyph_of(&self, byte: u8) -> [u8; 8]
        ensures value { result ≡ spec.glyph_of self.now byte }
        ensures invariant { length self.now ≡ 95 }
    {
        if FIRST <= byte && byte <= LAST {
            self.glyphs[usize::from(byte - FIRST)]
        } else {
            BOX
        }
    }

    /// Row `v` of the pixels of all glyphs side by side, from the glyph of byte 32 on: eight pixels each,
    /// 255 for a set bit, and 0 for any other.
    #[inline(always)]
    pub fn row(&self, v: usize) -> &[u8]
        requires { v < 8 }
        ensures length { length result.now ≡ ROW }
        ensures each { (byte h : ℕ) → 32 ≤ byte → byte ≤ 126 → h < 8 →
            slice_index result.now (8 * (byte - 32) + h)
            ≡ spec.pixel_of_bit (spec.glyph_bit self.now byte h v) }
    {
        &self.pixels[ROW * v..ROW * v + ROW]
    }

    /// A font with the same glyphs.
    pub fn copy(&self) -> Result<Font, NoMemory>
        ensures { IfOk result (λ f. f ≡ self.now) }
    {
        let glyphs = Vec::from_slice(*self.glyphs.allocator(), &self.glyphs)?;
        let pixels = Vec::from_slice(*self.pixels.allocator(), &self.pixels)?;
        Ok(Font { glyphs, pixels })
    }

    /// Whether all glyphs of the two are equal.
    pub fn same(&self, other: &Font) -> bool
        ensures { IsTrue result ↔ (self.now ≡ other.now) }
    {
        self.glyphs.as_slice() == other.glyphs.as_slice()
    }
}

/// The pixels of a font of boxes.
fn box_pixels(alloc: Global) -> Result<Vec<u8>, NoMemory>
    ensures { IfOk result (λ pixels. spec.HasPixels spec.empty_font pixels.items) }
{
    let mut pixels = Vec::with_capacity(alloc, 8 * ROW)?;
    for i in 0..8 * ROW {
        pixels.push(pixel_of(is_set(BOX[i / ROW], (i % 8) as u8)))?;
    }
    Ok(pixels)
}

/// Puts the pixels of a glyph into its columns of all rows.
fn put_glyph(pixels: &mut [u8], place: usize, glyph: [u8; 8])
    requires size { length pixels.old ≡ 8 * ROW }
    requires place { place < GLYPHS }
    ensures put { (v h : ℕ) → v < 8 → h < 8 → slice_index pixels.new (ROW * v + (8 * place + h))
        ≡ spec.pixel_of_bit (is_set_at (slice_index glyph v) h) }
    ensures others { (v other h : ℕ) → other < GLYPHS → other ≢ place → h < 8 →
        slice_index pixels.new (ROW * v + (8 * other + h))
        ≡ slice_index pixels.old (ROW * v + (8 * other + h)) }
{
    for v in 0..8 {
        put_bits(pixels, ROW * v + 8 * place, glyph[v]);
    }
}

/// Puts the pixels of eight bits at a place.
fn put_bits(pixels: &mut [u8], at: usize, bits: u8)
    requires { at + 8 ≤ length pixels.old }
    ensures put { (h : ℕ) → h < 8 → slice_index pixels.new (at + h) ≡ spec.pixel_of_bit (is_set_at bits h) }
    ensures before { (k : ℕ) → k < at → slice_index pixels.new k ≡ slice_index pixels.old k }
    ensures behind { (k : ℕ) → at + 8 ≤ k → slice_index pixels.new k ≡ slice_index pixels.old k }
{
    for h in 0..8 {
        pixels[at + h] = pixel_of(is_set(bits, h as u8));
    }
}

/// The pixel of a bit.
fn pixel_of(bit: bool) -> u8
    ensures { result ≡ spec.pixel_of_bit bit }
{
    if bit { 255 } else { 0 }
}
