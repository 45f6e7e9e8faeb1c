ghost use Rattle.std.specs.Prelude.{◌≡◌, ◌<◌, ◌↔◌, ◌*◌, ◌+◌, IsTrue, pos};
ghost use Rattle.tr_base.specs.Rects.{InReach};
ghost use Rattle.tr_paint.specs.Paints.{IsNearRect};
ghost use Rattle.tr_client.specs.Laws.{IsWindowSize};
ghost use Rattle.w_meter.specs.Meters.{rows_of, top_of};

use std::marker::Model;
use tr_base::{Rect, Size};

/// The number of a bar from 0 to 31, counted from the west.
#[derive(Clone, Copy, Debug)]
pub struct BarNumber {
    number: u8,
}

impl Model for BarNumber {
    ghost use Rattle.std.specs.Prelude.{ℕ, ◌<◌};

    ghost Value = { ℕ };

    ghost view = { λ b. b.number };

    ghost inverse = { λ n. record { number = n } };

    ghost invariant = { λ b. b.number < 32 };
}

impl BarNumber {
    /// The bar with `number` bars west of it.
    pub fn of(number: u8) -> BarNumber
        requires { number < 32 }
        ensures { result ≡ number }
    {
        BarNumber { number }
    }

    /// Tells the invariant of bar numbers. Nothing runs.
    pub fn invariant(&self)
        ensures { self.now < 32 }
    {
        let _number = self.number();
    }

    /// The number.
    pub fn number(&self) -> u8
        ensures value { result ≡ self.now }
        ensures invariant { result < 32 }
    {
        self.number
    }

    /// Whether both are the same bar.
    pub fn same(&self, other: &BarNumber) -> bool
        ensures { IsTrue result ↔ (self.now ≡ other.now) }
    {
        self.number() == other.number()
    }
}

/// The rows of a bar's columns that lie in a part of a window, from the top of the bar on.
pub fn bar_rows(part: &Rect, size: Size, bar: u8, height: u8) -> Rect
    requires near { IsNearRect part.now }
    requires bar { bar < 32 }
    requires size { IsWindowSize size }
    ensures edges { result ≡ rows_of part.now bar (top_of size height) (pos size.high) }
    ensures near { IsNearRect result }
{
    let south = i32::from(size.high);
    part.meet(&Rect::edges(
        first_column(bar),
        column_after(bar),
        top(size, height),
        south,
    ))
}

/// The rows of a bar's columns that lie in a part of a window, above the bar.
pub fn rows_above(part: &Rect, size: Size, bar: u8, height: u8) -> Rect
    requires near { IsNearRect part.now }
    requires bar { bar < 32 }
    requires size { IsWindowSize size }
    ensures edges { result ≡ rows_of part.now bar (pos 0) (top_of size height) }
    ensures near { IsNearRect result }
{
    part.meet(&Rect::edges(first_column(bar), column_after(bar), 0, top(size, height)))
}

fn first_column(bar: u8) -> i32
    ensures value { result ≡ pos (8 * bar) }
    ensures reach { InReach result }
{
    8 * i32::from(bar)
}

fn column_after(bar: u8) -> i32
    ensures value { result ≡ pos (8 * bar + 8) }
    ensures reach { InReach result }
{
    8 * i32::from(bar) + 8
}

/// The first row of a bar.
fn top(size: Size, height: u8) -> i32
    ensures value { result ≡ top_of size height }
    ensures reach { InReach result }
{
    let row = i32::from(size.high) - i32::from(height);
    if row < 0 { 0 } else { row }
}
