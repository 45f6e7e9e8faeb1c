ghost use Rattle.std.specs.Prelude.{◌≡◌};
ghost use Rattle.tr_player.specs.Statuses.{code};

/// The status of a call.
#[derive(Clone, Copy, Debug, PartialEq, Eq)]
pub enum Status {
    /// The script was played, and its text is written.
    Done,
    /// The words are no command.
    Usage,
    /// The script is refused.
    Refused,
    /// The source had a fault.
    ReadFault,
    /// The sink had a fault.
    WriteFault,
    /// There was not enough memory.
    NoMemory,
}

impl Status {
    /// The exit status of the process.
    pub fn code(self) -> u8
        ensures { result ≡ code self }
    {
        match self {
            Status::Done => 0,
            Status::Usage => 2,
            Status::Refused => 3,
            Status::ReadFault => 4,
            Status::WriteFault => 5,
            Status::NoMemory => 6,
        }
    }
}
