//! Standard output. No clause speaks of the effect of a write on the system.
ghost use Rattle.std.specs.Prelude.{◌≡◌, ◌<◌, ◌≤◌, length, ◌-◌, ◌^◌, ◌++◌, ◌∷◌, [], ℕ, List, Option, Result, IfOk, IsOk, is_ok, if◌then◌else◌};
ghost use Rattle.std.specs.Io.{ReadsAtMost, WritesAtMost};
ghost use Rattle.std.specs.declared.io.Error.{Error};
ghost use Rattle.tr_io.specs.Faults.{faults_after};
ghost use Rattle.tr_io.specs.Attempts.{OfKnown, Answered, Asked, read_attempt, write_attempt};

use crate::attempts::{Attempt, MOST_TRIES, write_attempt};
use crate::streams::{Failed, Sink};
use std::io;
use std::io::{Stdout, Write};
use std::marker::Model;
use tr_base::NoMemory;

/// Standard output. A write to a closed pipe is a fault, and no signal ends the program. Contracts
/// speak of the number of its faults, and not of its bytes.
pub type StdSink = OutputSink<Stdout>;

/// A sink over a stream of the system. It is generic only for the proofs, as `Output` is.
#[derive(Drop)]
pub struct OutputSink<O> {
    output: O,
    faults: u64,
}

impl<O> Model for OutputSink<O> {
    ghost use Rattle.tr_io.specs.States.{StreamState};

    ghost Value = { StreamState O };

    ghost view = { λ s. record { stream = s.output; faults = s.faults } };
}

impl StdSink {
    /// The sink that writes to standard output.
    pub fn new(output: Stdout) -> StdSink
        ensures { result.faults ≡ 0 }
    {
        OutputSink { output, faults: 0 }
    }
}

impl<O: Output + Drop> Sink for OutputSink<O> {
    ghost use Rattle.std.specs.Prelude.{None, ◌-◌, ◌^◌};

    ghost written = { λ _. None };

    ghost room = { λ _. 2 ^ 64 - 1 };

    ghost faults = { λ s. s.faults };

    /// Does nothing, since the system takes the bytes.
    fn reserve(&mut self, n: usize) -> Result<(), NoMemory>
        ensures succeeds { IsOk result }
        ensures room { n ≤ 2 ^ 64 - 1 }
        ensures unchanged { self.new ≡ self.old }
    {
        Ok(())
    }

    fn write(&mut self, piece: &[u8]) -> Result<usize, Failed>
        ensures count { IfOk result (λ n. n ≤ length piece.now) }
        ensures progress { 0 < length piece.now → IfOk result (λ n. 0 < n) }
        ensures asked { OfKnown (O.answers self.old.stream) (O.answers self.new.stream)
            (Asked (write_attempt piece.now) result) }
        ensures counted { self.new.faults ≡ faults_after result self.old.faults }
        ensures rising { self.old.faults ≤ self.new.faults }
    {
        let answer = write_to(&mut self.output, piece);
        if answer.is_err() {
            self.faults = self.faults.saturating_add(1);
        }
        answer
    }
}

/// A system stream for writing. Only the proofs need this trait, as with `Input`.
pub trait Output {
    /// The answers that the stream gave, if it tells them.
    ghost answers: { Self → Option (List (Result ℕ Error)) };

    fn ask(&mut self, piece: &[u8]) -> io::Result<usize>
        ensures bound { WritesAtMost result piece.now }
        ensures told { OfKnown (answers self.old) (answers self.new) (Answered result) };
}

impl Output for Stdout {
    ghost use Rattle.std.specs.Prelude.{None};

    ghost answers = { λ _. None };

    fn ask(&mut self, piece: &[u8]) -> io::Result<usize>
        ensures { WritesAtMost result piece.now }
    {
        self.write(piece)
    }
}

/// Writes, and writes again as long as a signal comes before the first byte.
fn write_to<O: Output>(output: &mut O, piece: &[u8]) -> Result<usize, Failed>
    ensures count { IfOk result (λ n. n ≤ length piece.now) }
    ensures progress { 0 < length piece.now → IfOk result (λ n. 0 < n) }
    ensures asked { OfKnown (O.answers output.old) (O.answers output.new)
        (Asked (write_attempt piece.now) result) }
{
    for _ in 0..MOST_TRIES {
        match write_attempt(output.ask(piece), piece) {
            Attempt::Moved(count) => return Ok(count),
            Attempt::Again => {}
            Attempt::Fault => return Err(Failed),
        }
    }
    Err(Failed)
}
