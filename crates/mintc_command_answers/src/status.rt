//! How a run ended.
ghost use Rattle.std.specs.Prelude.{◌≡◌};

/// How a run ended; `number` is the exit status.
#[derive(Clone, Copy, Debug, PartialEq, Eq)]
pub enum Status {
    /// The answer is written.
    Done,
    /// The answer is written, and it says that something is wrong.
    Found,
    /// A refusal's line is written.
    Refused,
    /// The words are no command; the usage line is written.
    Usage,
    /// A file couldn't be read; nothing is written.
    ReadFault,
    /// The write failed.
    WriteFault,
    /// Memory was wanting; nothing is written.
    OutOfMemory,
}

impl Status {
    ghost use Rattle.mintc_command_answers.specs.Statuses.{number_of};

    /// The exit status, from 0 to 6.
    pub fn number(&self) -> u8
        ensures { result ≡ number_of self.now }
    {
        match self {
            Status::Done => 0,
            Status::Found => 1,
            Status::Refused => 2,
            Status::Usage => 3,
            Status::ReadFault => 4,
            Status::WriteFault => 5,
            Status::OutOfMemory => 6,
        }
    }
}
