ghost use Rattle.std.specs.Prelude.{◌≡◌};
ghost use Rattle.cov_station.specs.Codes.{code_of};

/// How a command ended.
#[derive(Clone, Copy, Debug, PartialEq, Eq)]
pub enum Status {
    /// The command was done to its end and all was written.
    Done,
    /// The arguments ask for no command, or for one that isn't done yet.
    Usage,
    /// A file isn't there.
    Missing,
    /// A file could not be read.
    ReadFault,
    /// The source is refused.
    Source,
    /// A counted quantity is over its limit.
    Limit,
    /// A suite, a formula or the text of a proof is refused.
    Unreadable,
    /// A step of a proof is refused.
    Refused,
    /// The output or a file could not be written.
    WriteFault,
    /// There is not enough memory.
    Memory,
}

impl Status {
    /// The number with which the program ends: 0 where the command is done, and else 1 to 9. In
    /// constant time.
    pub fn code(&self) -> u8
        ensures { result ≡ code_of self.now }
    {
        match self {
            Status::Done => 0,
            Status::Usage => 1,
            Status::Missing => 2,
            Status::ReadFault => 3,
            Status::Source => 4,
            Status::Limit => 5,
            Status::Unreadable => 6,
            Status::Refused => 7,
            Status::WriteFault => 8,
            Status::Memory => 9,
        }
    }
}
