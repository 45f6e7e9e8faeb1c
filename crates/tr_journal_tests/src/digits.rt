//! Commands for tests.
use std::alloc::Global;
use tr_base::{Command, NoMemory};

/// A command that is a digit.
#[derive(Drop)]
pub struct Digit(pub u8);

impl Command for Digit {
    ghost use Rattle.std.specs.Prelude.{◌∷◌, []};

    ghost valid = { λ d. Unit {0} };

    ghost words = { λ d. d.0 ∷ [] };

    fn known(&self) {}

    fn copy(&self, _alloc: Global) -> Result<Digit, NoMemory> {
        Ok(Digit(self.0))
    }

    fn same(&self, other: &Digit) -> bool {
        self.0 == other.0
    }

    fn print(&self, out: &mut Vec<u8>) -> Result<(), NoMemory> {
        Ok(out.push(self.0)?)
    }
}
