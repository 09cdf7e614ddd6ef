ghost use Rattle.std.specs.Prelude.{◌≡◌};
ghost use Rattle.pl_words.specs.Statuses as spec;

/// How a run ended.
#[derive(Clone, Copy, Debug, PartialEq, Eq)]
pub enum Status {
    /// The command was done.
    Done,
    /// A file is not what prelinking would make of it.
    Differs,
    /// The words are no command.
    Usage,
    /// The command was refused for a cause, which was printed.
    Refused,
    /// The input failed.
    ReadFault,
    /// The output failed.
    WriteFault,
    /// The folder failed.
    DiskFault,
    /// There was no memory.
    NoMemory,
}

impl Status {
    /// The exit code of the program: 0 for `Done` up to 7 for `NoMemory`.
    pub fn code(self) -> u8
        ensures { result ≡ spec.code_of self }
    {
        match self {
            Status::Done => 0,
            Status::Differs => 1,
            Status::Usage => 2,
            Status::Refused => 3,
            Status::ReadFault => 4,
            Status::WriteFault => 5,
            Status::DiskFault => 6,
            Status::NoMemory => 7,
        }
    }
}
