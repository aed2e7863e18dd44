ghost use Rattle.std.specs.Prelude.{◌≡◌};
ghost use Rattle.pefidx_c.specs.StatusNumber.{number_of};

// How a call ended. A caller sees its number.
#[derive(Clone, Copy, Debug, PartialEq, Eq)]
pub(crate) enum Status {
    /// All was given.
    Done,
    /// The list has no posting from there on.
    End,
    /// There are more than there is room for; the first were given, and the count of all.
    Room,
    /// The words are no index: the first check that breaks is told.
    NoIndex,
    /// The index has no such term.
    NoTerm,
    /// The index has no such document.
    NoDocument,
    /// More than 1,024 terms.
    TooManyTerms,
    /// Not one weight for each term, a weight of 0, or a sum of 2^26 or more.
    BadWeights,
    /// No plan has this number.
    NoPlan,
    /// Memory was refused.
    NoMemory,
    /// The words are 2^57 or more, or those of the index would be more than 2^37.
    TooLarge,
    /// More lists or documents than the format takes: 2^32 or more, in the first format 2^28
    /// documents or more.
    TooMany,
    /// The lengths of the lists are not those of the documents and the frequencies.
    NotWhole,
    /// A list is no posting list: its first posting that cannot stand there is told.
    BadPosting,
    /// No format has this number.
    NoFormat,
    /// No flag has a part of this sum.
    NoFlag,
    /// A segment cannot be joined to those before it: the rule is told.
    NoJoin,
    /// The bytes are of no collection: the first rule that breaks is told.
    NoCollection,
}

impl Status {
    // The number that stands for it.
    pub(crate) fn number(self) -> u32
        ensures { result ≡ number_of self }
    {
        match self {
            Status::Done => 0,
            Status::End => 1,
            Status::Room => 2,
            Status::NoIndex => 3,
            Status::NoTerm => 4,
            Status::NoDocument => 5,
            Status::TooManyTerms => 6,
            Status::BadWeights => 7,
            Status::NoPlan => 8,
            Status::NoMemory => 9,
            Status::TooLarge => 10,
            Status::TooMany => 11,
            Status::NotWhole => 12,
            Status::BadPosting => 13,
            Status::NoFormat => 14,
            Status::NoFlag => 15,
            Status::NoJoin => 16,
            Status::NoCollection => 17,
        }
    }
}
