use std::alloc::{AllocError, Global};
use std::fmt;
use tr_base::{Kind, Op, Pair};
use tr_kernel::Mask;

/// A measured kernel.
#[derive(Clone, Copy)]
pub enum Kernel {
    StdFill,
    FillRow,
    StdCopy,
    CopyRow,
    CopyRowsWithin,
    ExchangeRow,
    StdEqual,
    FirstDifference,
    LastDifference,
    CountRow,
    MaskRow,
    MaskCells,
}

/// The row that a kernel works on, the one that it reads beside it, and a byte for each eight pixels
/// and one more.
#[derive(Drop)]
pub struct Rows {
    row: Vec<u8>,
    other: Vec<u8>,
    cells: Vec<u8>,
}

impl Rows {
    /// Rows of one colour, which don't differ.
    pub fn plain(alloc: Global, width: usize) -> Result<Rows, AllocError> {
        Ok(Rows {
            row: vec![in alloc; 7; width]?,
            other: vec![in alloc; 7; width]?,
            cells: vec![in alloc; 0xb5; width / 8 + 2]?,
        })
    }

    /// Rows of 19 colours. Their last pixels differ, and every fifth before them.
    pub fn mixed(alloc: Global, width: usize) -> Result<Rows, AllocError> {
        let mut rows = Rows::plain(alloc, width)?;
        for (i, pixel) in rows.row.iter_mut().enumerate() {
            *pixel = (i % 19) as u8;
        }
        for (i, pixel) in rows.other.iter_mut().enumerate() {
            *pixel = if i % 5 == 3 || i % 1024 > 1000 {
                0
            } else {
                (i % 19) as u8
            };
        }
        Ok(rows)
    }

    /// The number of the row's pixels.
    pub fn width(&self) -> usize {
        self.row.len()
    }

    /// The sum of the row's pixels.
    pub fn sum(&self) -> u64 {
        let mut sum: u64 = 0;
        for pixel in self.row.iter() {
            sum = sum.wrapping_add(u64::from(*pixel));
        }
        sum
    }
}

impl Kernel {
    /// Runs the kernel once, and returns its answer, or the row's width. It has no large locals,
    /// since a function pays at entry for those that it passes on by address. The operations come
    /// from outside, so that the kernel is compiled for all of them.
    #[inline(never)]
    pub fn run(self, rows: &mut Rows, number: u8, one: Op, zero: Op) -> usize {
        let row = rows.row.as_mut_slice();
        let other = rows.other.as_slice();
        let n = row.len();
        if n == 0 || n != other.len() {
            return 0;
        }
        match self {
            Kernel::StdFill => row.fill(number),
            Kernel::FillRow => tr_kernel::fill_row(row, number),
            Kernel::StdCopy => row.copy_from_slice(other),
            Kernel::CopyRow => tr_kernel::copy_row(row, other),
            Kernel::CopyRowsWithin => tr_kernel::copy_rows_within(row, 0, 1, n - 1),
            Kernel::ExchangeRow => tr_kernel::exchange_row(row, number, 7),
            Kernel::StdEqual => return usize::from(&*row == other),
            Kernel::FirstDifference => return tr_kernel::first_difference(row, other).unwrap_or(n),
            Kernel::LastDifference => return tr_kernel::last_difference(row, other).unwrap_or(n),
            Kernel::CountRow => return tr_kernel::count_row(row, other),
            Kernel::MaskRow => {
                tr_kernel::mask_row(row, number, 3, Pair { zero, one }, Kind::Map8);
            }
            Kernel::MaskCells => paint_cells(row, rows.cells.as_slice(), one, zero),
        }
        n
    }
}

fn paint_cells(row: &mut [u8], cells: &[u8], one: Op, zero: Op) {
    if row.len() < usize::MAX - 3 && row.len().div_ceil(8) < cells.len() {
        Mask::of(Pair { zero, one }, Kind::Map8).cells(row, cells, 3);
    }
}

impl fmt::Display for Kernel {
    fn fmt<W: fmt::Write>(&self, f: &mut fmt::Formatter<W>) -> fmt::Result {
        f.write_str(match self {
            Kernel::StdFill => "std fill",
            Kernel::FillRow => "fill_row",
            Kernel::StdCopy => "std copy_from_slice",
            Kernel::CopyRow => "copy_row",
            Kernel::CopyRowsWithin => "copy_rows_within",
            Kernel::ExchangeRow => "exchange_row",
            Kernel::StdEqual => "std ==",
            Kernel::FirstDifference => "first_difference",
            Kernel::LastDifference => "last_difference",
            Kernel::CountRow => "count_row",
            Kernel::MaskRow => "mask_row",
            Kernel::MaskCells => "mask cells",
        })
    }
}
