//! How a run of the program ends.
ghost use Rattle.std.specs.Prelude.{◌≡◌};
ghost use Rattle.cfg_program.specs.Statuses.{number_of};

/// How a run of the program ended.
#[derive(Clone, Copy, Debug, PartialEq, Eq)]
pub enum Status {
    /// The last call gave credentials, a region or a token, or a text was told.
    Done,
    /// The last call answered an error, or gave no region.
    Refused,
    /// Unknown command. Nothing was read or written.
    UnknownCommand,
    /// The input is no script, or one of several calls where the command makes one.
    NoScript,
    /// The input could not be read.
    SourceFault,
    /// The lines could not be written.
    SinkFault,
    /// Memory ran out.
    OutOfMemory,
    /// The input is longer than a script may be: more than [`crate::LIMIT`] bytes.
    TooLong,
    /// What callers' journals tell, what they found and what they left kept tell of more than one history. Only what
    /// is done on several threads ends so.
    HistoryDiffers,
    /// What is asked for is not built. Everything is, so no run ends so.
    NotBuilt,
}

impl Status {
    /// The number of the status, that the process ends with.
    pub fn number(self) -> u8
        ensures { result ≡ number_of self }
    {
        match self {
            Status::Done => 0,
            Status::Refused => 1,
            Status::UnknownCommand => 2,
            Status::NoScript => 3,
            Status::SourceFault => 4,
            Status::SinkFault => 5,
            Status::OutOfMemory => 6,
            Status::TooLong => 7,
            Status::HistoryDiffers => 8,
            Status::NotBuilt => 9,
        }
    }
}
