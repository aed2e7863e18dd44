ghost use Rattle.std.specs.Prelude.{◌≡◌};
ghost use Rattle.outcomes.specs.StatusNumber.{status_number};

/// How a run ended.
#[derive(Clone, Copy, Debug, PartialEq, Eq)]
pub enum Status {
    /// All is done, and nothing is written on err.
    Done,
    /// The words of the command line are no command.
    Usage,
    /// The files of the collection break a rule.
    Collection,
    /// A file is no index.
    Index,
    /// A start or a read of a file, or a read of the input, failed.
    Read,
    /// A create, a write or a finish of a file, or a write on out, failed.
    Write,
    /// Memory was refused.
    NoMemory,
    /// The query text, an index or a side file is longer than its limit.
    TooLarge,
    /// A file is no side file of the index.
    Side,
    /// A file is no order of the documents of a collection.
    Map,
    /// An index cannot be joined to those before it.
    Segments,
}

impl Status {
    /// The number with which the process ends.
    pub fn number(self) -> u8
        ensures { result ≡ status_number self }
    {
        match self {
            Status::Done => 0,
            Status::Usage => 2,
            Status::Collection => 3,
            Status::Index => 4,
            Status::Read => 5,
            Status::Write => 6,
            Status::NoMemory => 7,
            Status::TooLarge => 8,
            Status::Side => 9,
            Status::Map => 10,
            Status::Segments => 11,
        }
    }
}
