ghost use Rattle.std.specs.Prelude.{◌≡◌, ◌↔◌, IsTrue};
ghost use Rattle.w_edit.specs.Numbers as spec;

use std::marker::Model;

/// The number of a row from 0 to 199, counted from the first line of a text.
#[derive(Clone, Copy, Debug)]
pub struct RowNumber {
    number: u8,
}

impl Model for RowNumber {
    ghost use Rattle.std.specs.Prelude.{ℕ};
    ghost use Rattle.w_edit.specs.Numbers.{IsRowNumber};

    ghost Value = { ℕ };

    ghost view = { λ r. r.number };

    ghost inverse = { λ n. record { number = n } };

    ghost invariant = { λ r. IsRowNumber r.number };
}

impl RowNumber {
    /// The row with `number` others above it.
    pub fn of(number: u8) -> RowNumber
        requires { spec.IsRowNumber number }
        ensures { result ≡ number }
    {
        RowNumber { number }
    }

    /// The number.
    pub fn number(&self) -> u8
        ensures value { result ≡ self.now }
        ensures invariant { spec.IsRowNumber result }
    {
        self.number
    }

    /// Whether both are the same row.
    pub fn same(&self, other: &RowNumber) -> bool
        ensures { IsTrue result ↔ (self.now ≡ other.now) }
    {
        self.number() == other.number()
    }
}

/// The number of a column from 0 to 80, counted from the beginning of a line.
#[derive(Clone, Copy, Debug)]
pub struct ColumnNumber {
    number: u8,
}

impl Model for ColumnNumber {
    ghost use Rattle.std.specs.Prelude.{ℕ};
    ghost use Rattle.w_edit.specs.Numbers.{IsColumn};

    ghost Value = { ℕ };

    ghost view = { λ c. c.number };

    ghost inverse = { λ n. record { number = n } };

    ghost invariant = { λ c. IsColumn c.number };
}

impl ColumnNumber {
    /// The column with `number` bytes before it.
    pub fn of(number: u8) -> ColumnNumber
        requires { spec.IsColumn number }
        ensures { result ≡ number }
    {
        ColumnNumber { number }
    }

    /// The number.
    pub fn number(&self) -> u8
        ensures value { result ≡ self.now }
        ensures invariant { spec.IsColumn result }
    {
        self.number
    }

    /// Whether both are the same column.
    pub fn same(&self, other: &ColumnNumber) -> bool
        ensures { IsTrue result ↔ (self.now ≡ other.now) }
    {
        self.number() == other.number()
    }
}
