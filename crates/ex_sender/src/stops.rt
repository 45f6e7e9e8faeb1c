use std::io;
use std::io::ErrorKind;
use tr_base::NoMemory;
use tr_forest::EditRefused;

/// Why nothing more is sent.
#[derive(Debug, Drop)]
pub enum Stopped {
    NoMemory,
    /// A node or a step isn't allowed, or a pixel has no value of its kind. It doesn't happen here.
    Refused,
    Unwritten(io::Error),
}

impl From<NoMemory> for Stopped {
    fn from(_e: NoMemory) -> Stopped {
        Stopped::NoMemory
    }
}

impl From<EditRefused> for Stopped {
    fn from(e: EditRefused) -> Stopped {
        match e {
            EditRefused::NoMemory => Stopped::NoMemory,
            EditRefused::Fault(_) => Stopped::Refused,
        }
    }
}

impl From<io::Error> for Stopped {
    fn from(e: io::Error) -> Stopped {
        Stopped::Unwritten(e)
    }
}

impl From<Stopped> for io::Error {
    fn from(e: Stopped) -> io::Error {
        match e {
            Stopped::NoMemory => io::Error::from(ErrorKind::OutOfMemory),
            Stopped::Refused => io::Error::from(ErrorKind::InvalidData),
            Stopped::Unwritten(e) => e,
        }
    }
}
