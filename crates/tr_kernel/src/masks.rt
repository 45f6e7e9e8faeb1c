//! Rows painted through a pattern of bits, 16 pixels at a time.
ghost use Rattle.std.specs.Prelude.{◌≡◌, ◌<◌, ◌≤◌, ◌+◌, ◌*◌, ◌-◌, ◌/◌, ℕ, length, slice_index, if◌then◌else◌};
ghost use Rattle.std.specs.Bool.{OnFalse};
ghost use Rattle.tr_base.specs.Ops.{eff, exchanged};
ghost use Rattle.tr_base.specs.Tiles.{is_set};
ghost use Rattle.tr_kernel.specs.Masks.{bit_in_byte, bit_in_cells, painted, masked};
ghost use Rattle.tr_kernel.specs.Steps.{AreStill, stepped_by};

use crate::lanes::{Steps, exchange, step_of};
use crate::patterns::{Byte, Cells, Pattern, WholeCells};
use std::marker::Model;
use std::simd::prelude::*;
use tr_base::{Kind, Pair};

const LANES: usize = 16;

/// The operations of a picture of two colours, prepared for rows of pixels of a kind.
#[derive(Drop)]
pub struct Mask {
    // The model of a mask; only the steps are used.
    ops: Pair,
    kind: Kind,
    steps: Steps,
}

impl Model for Mask {
    ghost use Rattle.tr_kernel.specs.Masks.{Painting};
    ghost use Rattle.tr_kernel.specs.Steps.{AreStepsOf};

    ghost Value = { Painting };

    ghost view = { λ m. record { ops = m.ops; kind = m.kind } };

    ghost invariant = { λ m. AreStepsOf (record { ops = m.ops; kind = m.kind }) m.steps };
}

/// Paints a row of pixels of the kind: each takes `ops.one` if its bit is 1, and else `ops.zero`.
/// The bits are those of `bits`, the highest first, repeated; the first pixel has the bit
/// `phase`.
pub fn mask_row(row: &mut [u8], bits: u8, phase: u8, ops: Pair, kind: Kind)
    requires { phase < 8 }
    ensures whole { row.new
        ≡ masked (record { ops = ops; kind = kind }) (bit_in_byte bits phase) row.old }
    ensures each { (k : ℕ) → k < length row.old → slice_index row.new k
        ≡ eff kind (if is_set bits (k + phase) then ops.one else ops.zero) (slice_index row.old k) }
{
    Mask::of(ops, kind).row(row, bits, phase);
}

impl Mask {
    /// The mask of these operations on pixels of the kind.
    pub fn of(ops: Pair, kind: Kind) -> Mask
        ensures { result ≡ record { ops = ops; kind = kind } }
    {
        let one = step_of(kind, ops.one);
        let zero = step_of(kind, ops.zero);
        Mask {
            ops,
            kind,
            steps: Steps { one, zero },
        }
    }

    /// Paints a row by the bits of one byte, the highest first, repeated; the first pixel has
    /// the bit `phase`.
    pub fn row(&self, row: &mut [u8], bits: u8, phase: u8)
        requires { phase < 8 }
        ensures whole { row.new ≡ masked self.now (bit_in_byte bits phase) row.old }
        ensures each { (k : ℕ) → k < length row.old → slice_index row.new k
            ≡ painted self.now (is_set bits (k + phase)) (slice_index row.old k) }
    {
        let pattern = Byte { bits, phase };
        paint(row, self.steps, &pattern);
    }

    /// Paints a row by the bits of these bytes, one after another and the highest first; the first
    /// pixel has the bit `phase` of the first byte.
    pub fn cells(&self, row: &mut [u8], cells: &[u8], phase: u8)
        requires phase { phase < 8 }
        requires enough { length row.old + phase ≤ 8 * length cells.now }
        ensures whole { row.new ≡ masked self.now (bit_in_cells cells.now phase) row.old }
        ensures each { (k : ℕ) → k < length row.old →
            let byte = slice_index cells.now ((k + phase) / 8) in
            slice_index row.new k ≡ painted self.now (is_set byte (k + phase)) (slice_index row.old k) }
    {
        paint_cells(row, self.steps, cells, phase);
    }
}

/// Paints a row by the bits of these bytes: first those of the first byte, and then those of whole
/// bytes, which is faster.
fn paint_cells(row: &mut [u8], steps: Steps, cells: &[u8], phase: u8)
    requires phase { phase < 8 }
    requires enough { length row.old + phase ≤ 8 * length cells.now }
    ensures { (k : ℕ) → k < length row.old → slice_index row.new k
        ≡ stepped_by steps (bit_in_cells cells.now phase k) (slice_index row.old k) }
{
    if phase == 0 {
        paint(row, steps, &WholeCells { cells });
        return;
    }
    let n = row.len().min(usize::from(8 - phase));
    let (first, rest) = row.split_at_mut(n);
    paint(first, steps, &Cells { cells, phase });
    paint(rest, steps, &WholeCells { cells: &cells[1..] });
}

/// Exchanges two pixels in a row, 16 pixels at a time: with one step for both bits, no bit matters.
pub(crate) fn exchange_pixels(row: &mut [u8], x: u8, y: u8)
    ensures { (k : ℕ) → k < length row.old →
        slice_index row.new k ≡ exchanged x y (slice_index row.old k) }
{
    let step = exchange(x, y);
    let steps = Steps {
        one: step,
        zero: step,
    };
    let pattern = Byte { bits: 0, phase: 0 };
    paint_by::<Byte, true>(row, steps, &pattern);
}

/// Paints a row by a pattern.
fn paint<P: Pattern>(row: &mut [u8], steps: Steps, pattern: &P)
    requires { (k : ℕ) → k < length row.old → P.Reaches pattern.now k }
    ensures { (k : ℕ) → k < length row.old → slice_index row.new k
        ≡ stepped_by steps (P.bit_for pattern.now k) (slice_index row.old k) }
{
    if steps.exchange() {
        paint_by::<P, true>(row, steps, pattern);
    } else if steps.overwrite() {
        // The same steps, written so that they don't read the row.
        paint_by::<P, false>(row, steps.overwriting(), pattern);
    } else {
        paint_by::<P, false>(row, steps, pattern);
    }
}

/// The same, compiled once for steps that exchange pixels and once for those that don't.
#[inline(always)]
fn paint_by<P: Pattern, const EXCHANGES: bool>(row: &mut [u8], steps: Steps, pattern: &P)
    requires still { OnFalse EXCHANGES (AreStill steps) }
    requires reached { (k : ℕ) → k < length row.old → P.Reaches pattern.now k }
    ensures { (k : ℕ) → k < length row.old → slice_index row.new k
        ≡ stepped_by steps (P.bit_for pattern.now k) (slice_index row.old k) }
{
    if row.len() < LANES {
        paint_few::<P, EXCHANGES>(row, steps, pattern);
    } else {
        paint_many::<P, EXCHANGES>(row, steps, pattern);
    }
}

/// The last 16 pixels are computed before any is painted, since they may overlap those before them.
#[inline(always)]
fn paint_many<P: Pattern, const EXCHANGES: bool>(row: &mut [u8], steps: Steps, pattern: &P)
    requires still { OnFalse EXCHANGES (AreStill steps) }
    requires many { LANES ≤ length row.old }
    requires reached { (k : ℕ) → k < length row.old → P.Reaches pattern.now k }
    ensures { (k : ℕ) → k < length row.old → slice_index row.new k
        ≡ stepped_by steps (P.bit_for pattern.now k) (slice_index row.old k) }
{
    let start = row.len() - LANES;
    let last_bits = pattern.bits_at(start);
    let last = steps.lanes::<EXCHANGES>(u8x16::from_slice(&row[start..]), last_bits);
    for chunk in 0..start.div_ceil(LANES) {
        let at = chunk * LANES;
        let bits = pattern.whole_bits_at(at);
        let old = u8x16::from_slice(&row[at..]);
        steps
            .lanes::<EXCHANGES>(old, bits)
            .copy_to_slice(&mut row[at..]);
    }
    last.copy_to_slice(&mut row[start..]);
}

/// Fewer than 16 pixels, in an array.
#[inline(always)]
fn paint_few<P: Pattern, const EXCHANGES: bool>(row: &mut [u8], steps: Steps, pattern: &P)
    requires still { OnFalse EXCHANGES (AreStill steps) }
    requires few { length row.old < LANES }
    requires reached { (k : ℕ) → k < length row.old → P.Reaches pattern.now k }
    ensures { (k : ℕ) → k < length row.old → slice_index row.new k
        ≡ stepped_by steps (P.bit_for pattern.now k) (slice_index row.old k) }
{
    let n = row.len();
    if n == 0 {
        return;
    }
    let mut pixels = [0; LANES];
    pixels[..n].copy_from_slice(row);
    let bits = pattern.bits_at(0);
    let painted = steps
        .lanes::<EXCHANGES>(u8x16::from_array(pixels), bits)
        .to_array();
    row.copy_from_slice(&painted[..n]);
}
