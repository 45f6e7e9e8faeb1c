//! The result of one system call: a function of the system's answer.
ghost use Rattle.std.specs.Prelude.{◌≡◌};
ghost use Rattle.tr_io.specs.Attempts as spec;

use std::io;
use std::io::ErrorKind;

/// The error EBADF: the stream is closed.
const BAD_DESCRIPTOR: i32 = 9;

/// The most times that a call is made while signals interrupt it. Every loop has to end; no program
/// runs long enough to reach this bound.
pub(crate) const MOST_TRIES: u64 = u64::MAX;

/// The result of one system call.
#[derive(Clone, Copy, Debug, PartialEq, Eq)]
pub(crate) enum Attempt {
    /// This many bytes were moved.
    Moved(usize),
    /// A signal came before the first byte: the call is made again.
    Again,
    /// A fault.
    Fault,
}

/// The result of a read, by the system's answer. A closed input reads as empty.
pub(crate) fn read_attempt(answer: io::Result<usize>) -> Attempt
    ensures { result ≡ spec.read_attempt answer }
{
    match answer {
        Ok(count) => Attempt::Moved(count),
        Err(error) if error.raw_os_error() == Some(BAD_DESCRIPTOR) => Attempt::Moved(0),
        Err(error) => failed_attempt(error.kind()),
    }
}

/// The result of a write of a piece, by the system's answer. If the system takes nothing of a piece
/// that is not empty, that is a fault.
pub(crate) fn write_attempt(answer: io::Result<usize>, piece: &[u8]) -> Attempt
    ensures { result ≡ spec.write_attempt piece.now answer }
{
    match answer {
        Ok(0) if !piece.is_empty() => Attempt::Fault,
        Ok(taken) => Attempt::Moved(taken),
        Err(error) => failed_attempt(error.kind()),
    }
}

/// The result of a call that moved nothing, by the kind of the system's error.
fn failed_attempt(kind: ErrorKind) -> Attempt
    ensures { result ≡ spec.failed_attempt kind }
{
    match kind {
        ErrorKind::Interrupted => Attempt::Again,
        _ => Attempt::Fault,
    }
}
