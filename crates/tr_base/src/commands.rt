ghost use Rattle.std.specs.Prelude.{◌≡◌, ◌↔◌, ◌++◌, ℕ, List, IsTrue, IfOk, OnOk, OnErr};

use crate::errors::NoMemory;
use std::alloc::Global;

/// A command of a client.
pub trait Command: Sized + Drop + Send + Sync {
    /// The valid commands: their numbers are in range.
    ghost valid: { Self → Type 0 };

    /// The command's words in a script.
    ghost words: { Self → List ℕ };

    /// Tells that the command is valid. Nothing runs.
    fn known(&self)
        ensures { valid self.now };

    /// A copy of the command.
    fn copy(&self, alloc: Global) -> Result<Self, NoMemory>
        ensures { IfOk result (λ c. c ≡ self.now) };

    /// Whether both are the same command.
    fn same(&self, other: &Self) -> bool
        ensures { IsTrue result ↔ (self.now ≡ other.now) };

    /// Appends the command's words in a script.
    fn print(&self, out: &mut Vec<u8>) -> Result<(), NoMemory>
        ensures ok { OnOk result (out.new.items ≡ out.old.items ++ words self.now) }
        ensures err { OnErr result (out.new.items ≡ out.old.items) };
}
