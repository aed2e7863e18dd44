/// Why a call of the outside failed.
#[derive(Clone, Copy, Debug, PartialEq, Eq)]
pub enum IoFail {
    /// The call failed, which is counted as a fault.
    Failed,
    /// Memory was refused, which is counted as no fault.
    NoMemory,
}

/// The places of a depot that are read.
#[derive(Clone, Copy, Debug, PartialEq, Eq)]
pub enum Slot {
    /// The documents of a collection.
    Docs,
    /// The frequencies of a collection.
    Freqs,
    /// The sizes of a collection's documents.
    Sizes,
    /// An index.
    Index,
    /// A side file of an index.
    Side,
    /// A map of new document ids.
    Map,
}
