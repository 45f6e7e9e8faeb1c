ghost use Rattle.std.specs.Prelude.{◌≡◌};
ghost use Rattle.tr_session.specs.declared.errors.Unanswered.TheVariants as unanswered;
ghost use Rattle.tr_session.specs.declared.errors.Stopped.TheVariants as stopped;
ghost use Rattle.tr_session.specs.Refusals.{status_of_stopped};

use std::alloc::AllocError;
use thiserror::Error;
use tr_base::NoMemory;
use tr_grammar::{Code, LineRefused};

/// Memory ran out once a line had changed something, and again when the lines before it were taken anew. The
/// session can't go on.
#[derive(Clone, Copy, Debug, PartialEq, Eq, Error)]
#[error("out of memory")]
pub(crate) struct Lost;

/// The reason why a line has no answer of its own.
#[derive(Clone, Copy, Debug, PartialEq, Eq, Error)]
pub(crate) enum Unanswered {
    /// It has this fault, and changed nothing.
    #[error("the line has a fault")]
    Fault(Code),
    /// Memory ran out, and nothing changed.
    #[error("out of memory")]
    NoMemory,
    /// Memory ran out once the line had changed something.
    #[error("out of memory after a change")]
    Lost,
}

impl From<NoMemory> for Unanswered {
    ghost from_gives = { λ _ e. e ≡ unanswered.NoMemory };

    fn from(_e: NoMemory) -> Unanswered {
        Unanswered::NoMemory
    }
}

impl From<AllocError> for Unanswered {
    ghost from_gives = { λ _ e. e ≡ unanswered.NoMemory };

    fn from(_e: AllocError) -> Unanswered {
        Unanswered::NoMemory
    }
}

impl From<LineRefused> for Unanswered {
    ghost use Rattle.tr_session.specs.Refusals.{unanswered_of};

    ghost from_gives = { λ refused e. e ≡ unanswered_of refused };

    fn from(refused: LineRefused) -> Unanswered {
        match refused {
            LineRefused::NoMemory => Unanswered::NoMemory,
            LineRefused::Fault(code) => Unanswered::Fault(code),
        }
    }
}

/// The reason why a session ended before its input did and without `!quit`.
#[derive(Clone, Copy, Debug, PartialEq, Eq, Error)]
pub enum Stopped {
    /// The source had a fault.
    #[error("a read failed")]
    Unread,
    /// The sink had a fault.
    #[error("a write failed")]
    Unwritten,
    /// There was not enough memory.
    #[error("out of memory")]
    NoMemory,
}

impl Stopped {
    /// The exit status of the process: 4, 5 or 6. A session that ends by itself has 0.
    pub fn code(self) -> u8
        ensures { result ≡ status_of_stopped self }
    {
        match self {
            Stopped::Unread => 4,
            Stopped::Unwritten => 5,
            Stopped::NoMemory => 6,
        }
    }
}

impl From<NoMemory> for Stopped {
    ghost from_gives = { λ _ e. e ≡ stopped.NoMemory };

    fn from(_e: NoMemory) -> Stopped {
        Stopped::NoMemory
    }
}

impl From<AllocError> for Stopped {
    ghost from_gives = { λ _ e. e ≡ stopped.NoMemory };

    fn from(_e: AllocError) -> Stopped {
        Stopped::NoMemory
    }
}
