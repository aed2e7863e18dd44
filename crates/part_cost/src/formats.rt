ghost use Rattle.std.specs.Prelude.{◌≡◌};
ghost use Rattle.collection_model.specs.FormatNumbers.{entry_words, part_charge};
ghost use Rattle.part_cost.specs.Formats.{numbers_of};

/// The formats of the file.
#[derive(Clone, Copy, Debug, PartialEq, Eq)]
pub enum Format {
    One,
    Two,
    Three,
}

impl Format {
    /// The greatest number of documents.
    pub fn most_documents(self) -> u32
        ensures { result ≡ (numbers_of self).most_documents }
    {
        match self {
            Format::One => 268_435_455,
            Format::Two | Format::Three => 4_294_967_295,
        }
    }

    /// The greatest sum of the frequencies of a list: 2^36 or 2^48. Every value of a sequence is
    /// below it.
    pub fn most_sum(self) -> u64
        ensures { result ≡ (numbers_of self).most_sum }
    {
        match self {
            Format::One => 68_719_476_736,
            Format::Two | Format::Three => 281_474_976_710_656,
        }
    }

    /// The words of a directory entry of a part.
    pub fn entry_words(self) -> u64
        ensures { result ≡ entry_words (numbers_of self) }
    {
        match self {
            Format::One | Format::Three => 2,
            Format::Two => 3,
        }
    }

    /// The bits that a part costs besides its payload: those of its directory entry.
    pub fn charge(self) -> u64
        ensures { result ≡ part_charge (numbers_of self) }
    {
        match self {
            Format::One | Format::Three => 128,
            Format::Two => 192,
        }
    }

    /// The greatest cost of an allowed part, in bits.
    pub fn limit(self) -> u64
        ensures { result ≡ (numbers_of self).limit }
    {
        match self {
            Format::One | Format::Three => 4096,
            Format::Two => 6144,
        }
    }

    /// Word 1 of a file.
    pub fn version(self) -> u64
        ensures { result ≡ (numbers_of self).version }
    {
        match self {
            Format::One => 1,
            Format::Two => 2,
            Format::Three => 3,
        }
    }
}
