//! Whole rows: by a call of std if it has one, and else by lanes.
ghost use Rattle.std.specs.Prelude.{◌≡◌, ◌<◌, ◌+◌, ◌≤◌, ℕ, length, map, replicate, slice_index};
ghost use Rattle.tr_base.specs.Ops as spec;
ghost use Rattle.tr_kernel.specs.Rows.{copied_within};

use crate::masks::exchange_pixels;

/// Each pixel becomes `value`.
pub fn fill_row(row: &mut [u8], value: u8)
    ensures whole { row.new ≡ replicate (length row.old) value }
    ensures each { (k : ℕ) → k < length row.old → slice_index row.new k ≡ value }
{
    row.fill(value);
}

/// Each `x` becomes `y`, each `y` becomes `x`, and others stay.
pub fn exchange_row(row: &mut [u8], x: u8, y: u8)
    ensures whole { row.new ≡ map (spec.exchanged x y) row.old }
    ensures each { (k : ℕ) → k < length row.old → slice_index row.new k
        ≡ spec.exchanged x y (slice_index row.old k) }
{
    exchange_pixels(row, x, y);
}

/// Each pixel of `to` becomes that of `from`.
pub fn copy_row(to: &mut [u8], from: &[u8])
    requires { length to.old ≡ length from.now }
    ensures { to.new ≡ from.now }
{
    to.copy_from_slice(from);
}

/// The `n` bytes at `to` become those that were at `from`. The two places may overlap.
pub fn copy_rows_within(rows: &mut [u8], from: usize, to: usize, n: usize)
    requires from { from + n ≤ length rows.old }
    requires to { to + n ≤ length rows.old }
    ensures whole { rows.new ≡ copied_within from to n rows.old }
    ensures copied { (k : ℕ) → k < n → slice_index rows.new (to + k) ≡ slice_index rows.old (from + k) }
    ensures before { (k : ℕ) → k < to → slice_index rows.new k ≡ slice_index rows.old k }
    ensures behind { (k : ℕ) → to + n ≤ k → slice_index rows.new k ≡ slice_index rows.old k }
{
    if from + n <= to {
        let (before, after) = rows.split_at_mut(to);
        after[..n].copy_from_slice(&before[from..from + n]);
    } else if to + n <= from {
        let (before, after) = rows.split_at_mut(from);
        before[to..to + n].copy_from_slice(&after[..n]);
    } else {
        rows.copy_within(from..from + n, to);
    }
}
