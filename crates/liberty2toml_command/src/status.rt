//! How a conversion ended.
ghost use Rattle.std.specs.Prelude.{◌≡◌};

/// How a conversion ended; `number` is the exit status, which means what it means of mintc. Nothing is ever wrong
/// with a library that is read, so there is no 1.
#[derive(Clone, Copy, Debug, PartialEq, Eq)]
pub enum Status {
    /// The TOML form is written.
    Done,
    /// A refusal's line is written.
    Refused,
    /// The words aren't the name of one file; the usage line is written.
    Usage,
    /// The file couldn't be read; nothing is written.
    ReadFault,
    /// The write failed.
    WriteFault,
    /// Memory was wanting; nothing is written.
    OutOfMemory,
}

impl Status {
    ghost use Rattle.liberty2toml_command.specs.Statuses.{number_of};

    /// The exit status, from 0 to 6.
    pub fn number(&self) -> u8
        ensures { result ≡ number_of self.now }
    {
        match self {
            Status::Done => 0,
            Status::Refused => 2,
            Status::Usage => 3,
            Status::ReadFault => 4,
            Status::WriteFault => 5,
            Status::OutOfMemory => 6,
        }
    }
}
