use std::alloc::AllocError;
use std::io;
use thiserror::Error;
use tr_base::NoMemory;
use tr_io::Failed;
use tr_mirror::MirrorFault;

/// The cause of a stop before the stream's end.
#[derive(Clone, Copy, Debug, Error)]
pub enum Stopped {
    #[error("out of memory")]
    NoMemory,
    #[error("read fault")]
    Unread,
    #[error("write fault")]
    Unwritten,
    #[error("refused: {0}")]
    Fault(MirrorFault),
}

impl From<NoMemory> for Stopped {
    fn from(_e: NoMemory) -> Stopped {
        Stopped::NoMemory
    }
}

impl From<AllocError> for Stopped {
    fn from(_e: AllocError) -> Stopped {
        Stopped::NoMemory
    }
}

impl From<MirrorFault> for Stopped {
    fn from(fault: MirrorFault) -> Stopped {
        Stopped::Fault(fault)
    }
}

impl From<Failed> for Stopped {
    fn from(_e: Failed) -> Stopped {
        Stopped::Unread
    }
}

impl From<io::Error> for Stopped {
    fn from(_e: io::Error) -> Stopped {
        Stopped::Unwritten
    }
}
