//! The kernels of rows against plain loops.
ghost use Rattle.std.specs.Prelude.{◌+◌, ◌<◌, ◌≤◌};

use tr_base::{Kind, Op, Pair, eff, exchanged};
use tr_kernel::{
    Mask, copy_row, copy_rows_within, count_row, exchange_row, fill_row, first_difference,
    last_difference, mask_row,
};

/// The longest row that is tried.
const LONGEST: usize = 83;

/// A row of small pixels in no order.
fn some_row(start: usize) -> [u8; LONGEST] {
    let mut row = [0; LONGEST];
    for (i, pixel) in row.iter_mut().enumerate() {
        *pixel = ((i % 83 * 7 + start % 83 * 5) % 19) as u8;
    }
    row
}

/// Whether both operations of a mask are done, and cut to the kind.
fn are_masked() -> bool {
    let ops = Pair {
        zero: Op::Bg,
        one: Op::Set(7),
    };
    let mut row = [2; 10];
    mask_row(&mut row, 0xa5, 3, ops, Kind::Map8);
    let cut = Pair {
        zero: Op::Exchange(200, 3),
        one: Op::Set(99),
    };
    let mut short = [3, 15, 4, 15];
    mask_row(&mut short, 0b0001_0000, 0, cut, Kind::Map4);
    row == [0, 0, 7, 0, 7, 7, 0, 7, 0, 0] && short == [15, 3, 4, 15]
}

/// Whether a row is filled, and then copied.
fn is_filled_and_copied() -> bool {
    let mut row = [0; 5];
    fill_row(&mut row, 9);
    let is_filled = row == [9; 5];
    copy_row(&mut row, &[1, 2, 3, 4, 5]);
    is_filled && row == [1, 2, 3, 4, 5]
}

/// Whether so many pixels of a row are copied from one place to another, and the row is this then.
fn is_copied_within(from: usize, to: usize, count: usize, want: [u8; 5]) -> bool
    requires from { from + count ≤ 5 }
    requires to { to + count ≤ 5 }
{
    let mut row = [1, 2, 3, 4, 5];
    copy_rows_within(&mut row, from, to, count);
    row == want
}

#[test]
fn rows_are_masked_filled_and_copied(rt: HostRuntime) {
    assert!(rt; are_masked() && is_filled_and_copied());
    assert!(rt; is_copied_within(0, 2, 3, [1, 2, 1, 2, 3]));
    assert!(rt; is_copied_within(2, 0, 3, [3, 4, 5, 4, 5]));
    assert!(rt; is_copied_within(3, 1, 2, [1, 4, 5, 4, 5]));
    assert!(rt; first_difference(&[], &[]).is_none());
}

/// Every length, phase and pair of operations, against plain loops.
#[test]
fn kernels_are_plain_loops(rt: HostRuntime) {
    let ops = [
        Op::Bg,
        Op::Fg,
        Op::Transparent,
        Op::Set(17),
        Op::Exchange(3, 18),
    ];
    for n in 0..LONGEST {
        for phase in 0..8 {
            for one in ops {
                for zero in ops {
                    assert!(rt; is_masked(n, phase, Pair { zero, one }), "{n} from {phase}");
                }
            }
        }
        assert!(rt; differs_where_exchanged(n), "{n}");
    }
}

/// Whether a mask does at each place what its operation says, over one byte again and again and over as many
/// bytes as there are.
fn is_masked(n: usize, phase: u8, ops: Pair) -> bool
    requires n { n ≤ LONGEST }
    requires phase { phase < 8 }
{
    let old = some_row(n);
    let bits = some_row(n + 1);
    let mut is_well = true;
    for kind in [Kind::Mono, Kind::Map4, Kind::Map8] {
        let mask = Mask::of(ops, kind);
        let mut by_byte = old;
        mask.row(&mut by_byte[..n], bits[0], phase);
        let mut by_cells = old;
        mask.cells(&mut by_cells[..n], &bits, phase);
        for i in 0..n {
            let place = i + usize::from(phase);
            let byte = eff(kind, op_at(ops, bits[0], place), old[i]);
            let cell = eff(kind, op_at(ops, bits[place / 8], place), old[i]);
            is_well = is_well && by_byte[i] == byte && by_cells[i] == cell;
        }
    }
    is_well
}

fn op_at(ops: Pair, byte: u8, place: usize) -> Op {
    if byte & (128 >> (place % 8)) == 0 {
        ops.zero
    } else {
        ops.one
    }
}

/// Whether an exchange behind a third of a row does what it says, and the differences that it makes are
/// found.
fn differs_where_exchanged(n: usize) -> bool
    requires { n ≤ LONGEST }
{
    let a = some_row(n);
    let mut b = some_row(n);
    exchange_row(&mut b[n / 3..], 3, 18);
    let mut is_well = true;
    let mut count = 0usize;
    let mut first = None;
    let mut last = None;
    for i in 0..n {
        let pixel = if i < n / 3 {
            a[i]
        } else {
            exchanged(3, 18, a[i])
        };
        is_well = is_well && b[i] == pixel;
        if a[i] != b[i] {
            count = count.saturating_add(1);
            last = Some(i);
            if first.is_none() {
                first = last;
            }
        }
    }
    let (a, b) = (&a[..n], &b[..n]);
    let is_counted = count_row(a, b) == count;
    is_well && is_counted && first_difference(a, b) == first && last_difference(a, b) == last
}
