ghost use Rattle.std.specs.Prelude.{◌≡◌};
ghost use Rattle.tr_show.specs.declared.errors.ShowRefused.TheVariants.{NoMemory as OutOfMemory, Fault};

use std::alloc::AllocError;
use thiserror::Error;
use tr_base::NoMemory;
use tr_mirror::MirrorFault;

/// The cause of bytes that aren't shown.
#[derive(Clone, Copy, Debug, PartialEq, Eq, Error)]
pub enum ShowRefused {
    #[error("out of memory")]
    NoMemory,
    #[error("the stream has a fault")]
    Fault(MirrorFault),
}

impl From<AllocError> for ShowRefused {
    ghost from_gives = { λ _ e. e ≡ OutOfMemory };

    fn from(_e: AllocError) -> ShowRefused {
        ShowRefused::NoMemory
    }
}

impl From<NoMemory> for ShowRefused {
    ghost from_gives = { λ _ e. e ≡ OutOfMemory };

    fn from(_e: NoMemory) -> ShowRefused {
        ShowRefused::NoMemory
    }
}

impl From<MirrorFault> for ShowRefused {
    ghost from_gives = { λ fault e. e ≡ Fault fault };

    fn from(fault: MirrorFault) -> ShowRefused {
        ShowRefused::Fault(fault)
    }
}
