//! How a run ends.
ghost use Rattle.std.specs.Prelude.{◌≡◌};
ghost use Rattle.luafmt.specs.Code.{code_of};
ghost use Rattle.luafmt.specs.Outcome.{or_next};

/// How a run ends.
#[derive(Clone, Copy, Debug, PartialEq, Eq)]
pub enum Status {
    /// Each source was accepted, and its text was written.
    Done,
    /// Some source is not its own formatted text.
    Differs,
    /// The words are no command.
    Usage,
    /// Some source was not accepted.
    Refused,
    /// A source could not be read.
    ReadFault,
    /// A text or a line could not be written.
    WriteFault,
    /// No memory was found.
    NoMemory,
    /// The options are not accepted.
    Config,
}

impl Status {
    /// The exit status of the process.
    pub fn code(self) -> u8
        ensures { result ≡ code_of self }
    {
        match self {
            Status::Done => 0,
            Status::Differs => 1,
            Status::Usage => 2,
            Status::Refused => 3,
            Status::ReadFault => 4,
            Status::WriteFault => 5,
            Status::NoMemory => 6,
            Status::Config => 7,
        }
    }

    // The first of two statuses that is not `Done`.
    pub(crate) fn or_next(self, next: Status) -> Status
        ensures { result ≡ or_next self next }
    {
        match self {
            Status::Done => next,
            status => status,
        }
    }
}
