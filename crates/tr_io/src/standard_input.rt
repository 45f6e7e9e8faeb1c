//! Standard input. No clause speaks of the effect of a read on the system.
ghost use Rattle.std.specs.Prelude.{◌≡◌, ◌<◌, ◌≤◌, length, ◌-◌, ◌^◌, ◌++◌, ◌∷◌, [], ℕ, List, Option, Result, IfOk, IsOk, is_ok, if◌then◌else◌};
ghost use Rattle.std.specs.Io.{ReadsAtMost, WritesAtMost};
ghost use Rattle.std.specs.declared.io.Error.{Error};
ghost use Rattle.tr_io.specs.Faults.{faults_after};
ghost use Rattle.tr_io.specs.Attempts.{OfKnown, Answered, Asked, read_attempt, write_attempt};

use crate::attempts::{Attempt, MOST_TRIES, read_attempt};
use crate::streams::{Failed, Source};
use std::io;
use std::io::{Read, Stdin};
use std::marker::Model;

/// Standard input, which reads as empty if it is closed. Contracts speak of the number of its faults,
/// and not of its bytes.
pub type StdSource = InputSource<Stdin>;

/// A source over a stream of the system. It is generic only for the proofs, as `Input` is.
#[derive(Drop)]
pub struct InputSource<I> {
    input: I,
    faults: u64,
}

impl<I> Model for InputSource<I> {
    ghost use Rattle.tr_io.specs.States.{StreamState};

    ghost Value = { StreamState I };

    ghost view = { λ s. record { stream = s.input; faults = s.faults } };
}

impl StdSource {
    /// The source that reads standard input.
    pub fn new(input: Stdin) -> StdSource
        ensures { result.faults ≡ 0 }
    {
        InputSource { input, faults: 0 }
    }
}

impl<I: Input + Drop> Source for InputSource<I> {
    ghost use Rattle.std.specs.Prelude.{None};

    ghost left = { λ _. None };

    ghost faults = { λ s. s.faults };

    fn read(&mut self, buf: &mut [u8]) -> Result<usize, Failed>
        ensures count { IfOk result (λ n. n ≤ length buf.new) }
        ensures asked { OfKnown (I.answers self.old.stream) (I.answers self.new.stream)
            (Asked read_attempt result) }
        ensures counted { self.new.faults ≡ faults_after result self.old.faults }
        ensures rising { self.old.faults ≤ self.new.faults }
    {
        let answer = read_from(&mut self.input, buf);
        if answer.is_err() {
            self.faults = self.faults.saturating_add(1);
        }
        answer
    }
}

/// A system stream for reading. Only the proofs need this trait: with it the contract of `read_from`
/// can speak of the system's answers, which standard input doesn't tell.
pub trait Input {
    /// The answers that the stream gave, if it tells them.
    ghost answers: { Self → Option (List (Result ℕ Error)) };

    fn ask(&mut self, buf: &mut [u8]) -> io::Result<usize>
        ensures bound { ReadsAtMost result buf.new }
        ensures told { OfKnown (answers self.old) (answers self.new) (Answered result) };
}

impl Input for Stdin {
    ghost use Rattle.std.specs.Prelude.{None};

    ghost answers = { λ _. None };

    fn ask(&mut self, buf: &mut [u8]) -> io::Result<usize>
        ensures { ReadsAtMost result buf.new }
    {
        self.read(buf)
    }
}

/// Reads, and reads again as long as a signal comes before the first byte.
fn read_from<I: Input>(input: &mut I, buf: &mut [u8]) -> Result<usize, Failed>
    ensures count { IfOk result (λ n. n ≤ length buf.new) }
    ensures asked { OfKnown (I.answers input.old) (I.answers input.new) (Asked read_attempt result) }
{
    for _ in 0..MOST_TRIES {
        match read_attempt(input.ask(buf)) {
            Attempt::Moved(count) => return Ok(count),
            Attempt::Again => {}
            Attempt::Fault => return Err(Failed),
        }
    }
    Err(Failed)
}
