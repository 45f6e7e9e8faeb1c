use thiserror::Error;
use tr_base::NoMemory;
use tr_io::Failed;

/// The cause of a text that isn't written, or not all of it.
#[derive(Clone, Copy, Debug, PartialEq, Eq, Error)]
pub enum WriteRefused {
    /// Nothing was written.
    #[error("out of memory")]
    NoMemory,
    /// A write failed.
    #[error("a write failed")]
    Failed,
}

impl From<NoMemory> for WriteRefused {
    ghost use Rattle.std.specs.Prelude.{◌≡◌};
    ghost use Rattle.tr_output.specs.declared.errors.WriteRefused.TheVariants as refused;

    ghost from_gives = { λ _ e. e ≡ refused.NoMemory };

    fn from(_e: NoMemory) -> WriteRefused {
        WriteRefused::NoMemory
    }
}

impl From<Failed> for WriteRefused {
    ghost use Rattle.std.specs.Prelude.{◌≡◌};
    ghost use Rattle.tr_output.specs.declared.errors.WriteRefused.TheVariants as refused;

    ghost from_gives = { λ _ e. e ≡ refused.Failed };

    fn from(_e: Failed) -> WriteRefused {
        WriteRefused::Failed
    }
}
