//! The bits of a row, read from one byte or from many.
ghost use Rattle.std.specs.Prelude.{◌≡◌, ◌<◌, ◌≤◌, ◌+◌, ◌*◌, ◌%◌, ◌==◌, ℕ, Bool, not, length, slice_index};
ghost use Rattle.tr_kernel.specs.Masks.{bit_in_byte, bit_in_cells};

use std::simd::prelude::*;

/// The bit of each place in a byte, three times over.
const BITS: [u8; 24] = [
    128, 64, 32, 16, 8, 4, 2, 1, 128, 64, 32, 16, 8, 4, 2, 1, 128, 64, 32, 16, 8, 4, 2, 1,
];

/// The number of the byte, among three, in which each place lies.
const CELLS: [u8; 24] = [
    0, 0, 0, 0, 0, 0, 0, 0, 1, 1, 1, 1, 1, 1, 1, 1, 2, 2, 2, 2, 2, 2, 2, 2,
];

/// A bit for each pixel of a row.
pub(crate) trait Pattern {
    /// The pattern has a bit for this pixel.
    ghost Reaches: { Self → ℕ → Type 0 };

    /// The bit of a pixel.
    ghost bit_for: { Self → ℕ → Bool };

    /// A byte for each of the 16 pixels from `at` on: it isn't 0 if the pixel's bit is set.
    fn bits_at(&self, at: usize) -> u8x16
        requires { Reaches self.now at }
        ensures lanes { length result ≡ 16 }
        ensures bits { (k : ℕ) → k < 16 → Reaches self.now (at + k) →
            (slice_index result k == 0) ≡ not (bit_for self.now (at + k)) };

    /// The same for 16 pixels that follow whole bytes and all have a bit.
    fn whole_bits_at(&self, at: usize) -> u8x16
        requires even { at % 8 ≡ 0 }
        requires reached { (k : ℕ) → k < 16 → Reaches self.now (at + k) }
        ensures lanes { length result ≡ 16 }
        ensures bits { (k : ℕ) → k < 16 →
            (slice_index result k == 0) ≡ not (bit_for self.now (at + k)) };
}

/// The bits of one byte, repeated. The first pixel has the bit `phase`.
#[derive(Clone, Copy)]
pub(crate) struct Byte {
    pub bits: u8,
    pub phase: u8,
}

impl Pattern for Byte {
    ghost Reaches = { λ b k. b.phase < 8 };

    ghost bit_for = { λ b k. bit_in_byte b.bits b.phase k };

    #[inline(always)]
    fn bits_at(&self, at: usize) -> u8x16 {
        let phase = (usize::from(self.phase) + at % 8) % 8;
        u8x16::splat(self.bits) & u8x16::from_slice(&BITS[phase..])
    }

    #[inline(always)]
    fn whole_bits_at(&self, at: usize) -> u8x16 {
        self.bits_at(at)
    }
}

/// The bits of these bytes, one after another. The first pixel has the bit `phase` of the first.
#[derive(Clone, Copy)]
pub(crate) struct Cells<'a> {
    pub cells: &'a [u8],
    pub phase: u8,
}

impl Pattern for Cells<'_> {
    ghost Reaches = { λ c k. (c.phase < 8) × (k + c.phase < 8 * length c.cells.now) };

    ghost bit_for = { λ c k. bit_in_cells c.cells.now c.phase k };

    #[inline(always)]
    fn bits_at(&self, at: usize) -> u8x16 {
        let place = usize::from(self.phase) + at % 8;
        let first = at / 8 + place / 8;
        let phase = place % 8;
        let last = self.cells.len() - 1;
        let near = u8x16::splat(self.cells[first]);
        let next = u8x16::splat(self.cells[last.min(first + 1)]);
        let far = u8x16::splat(self.cells[last.min(first + 2)]);
        let cell = u8x16::from_slice(&CELLS[phase..]);
        let beyond = cell.simd_eq(u8x16::splat(1)).select(next, far);
        let cells = cell.simd_eq(u8x16::splat(0)).select(near, beyond);
        cells & u8x16::from_slice(&BITS[phase..])
    }

    #[inline(always)]
    fn whole_bits_at(&self, at: usize) -> u8x16 {
        self.bits_at(at)
    }
}

/// The same, if the first pixel has the first bit: then 16 pixels have two bytes.
#[derive(Clone, Copy)]
pub(crate) struct WholeCells<'a> {
    pub cells: &'a [u8],
}

impl Pattern for WholeCells<'_> {
    ghost Reaches = { λ c k. k < 8 * length c.cells.now };

    ghost bit_for = { λ c k. bit_in_cells c.cells.now 0 k };

    #[inline(always)]
    fn bits_at(&self, at: usize) -> u8x16 {
        let cells = Cells {
            cells: self.cells,
            phase: 0,
        };
        cells.bits_at(at)
    }

    #[inline(always)]
    fn whole_bits_at(&self, at: usize) -> u8x16 {
        let two = u8x2::from_slice(&self.cells[at / 8..]);
        let cells: u8x16 = two.swizzle([0, 0, 0, 0, 0, 0, 0, 0, 1, 1, 1, 1, 1, 1, 1, 1]);
        cells & u8x16::from_slice(&BITS)
    }
}
