ghost use Rattle.tr_player.specs.declared.errors.ReadError.TheVariants.{NoMemory as OutOfMemory, Failed as Fault};
ghost use Rattle.std.specs.Prelude.{◌≡◌};

use std::alloc::AllocError;
use thiserror::Error;
use tr_io::Failed;

/// The cause of a source that wasn't read to its end.
#[derive(Clone, Copy, Debug, PartialEq, Eq, Error)]
pub enum ReadError {
    #[error("out of memory")]
    NoMemory,
    #[error("a read failed")]
    Failed,
}

impl From<AllocError> for ReadError {
    ghost from_gives = { λ _ e. e ≡ OutOfMemory };

    fn from(_e: AllocError) -> ReadError {
        ReadError::NoMemory
    }
}

impl From<Failed> for ReadError {
    ghost from_gives = { λ _ e. e ≡ Fault };

    fn from(_e: Failed) -> ReadError {
        ReadError::Failed
    }
}
