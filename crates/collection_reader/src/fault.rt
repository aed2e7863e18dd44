ghost use Rattle.std.specs.Prelude.{◌≡◌};

use io_traits::{IoFail, Slot};
use std::alloc::{AllocError, AllocFailed};

/// The rules of a collection's files.
#[derive(Clone, Copy, Debug, PartialEq, Eq)]
pub enum Rule {
    /// A number is needed and fewer than four bytes are left.
    C1,
    /// The first sequence has not the length one.
    C2,
    /// There are more documents than the format has room for.
    C3,
    /// A document is not below the number of documents.
    C4,
    /// A document is not above the one before it.
    C5,
    /// The frequencies are not as many as the documents.
    C6,
    /// A frequency is zero.
    C7,
    /// The frequencies of a list sum to more than the format's greatest sum.
    C8,
    /// There are too many lists.
    C9,
    /// Bytes are left after the last list of frequencies.
    C10,
    /// The sizes are not as many as the documents.
    C11,
    /// Bytes are left after the sizes.
    C12,
}

/// The first rule that breaks, and where.
#[derive(Clone, Copy, Debug, PartialEq, Eq)]
pub struct Fault {
    /// The rule that breaks.
    pub rule: Rule,
    /// The file in which it breaks.
    pub file: Slot,
    /// The term whose list breaks it, counted from 0; in the head 0, and behind the lists how many
    /// there are.
    pub term: u32,
    /// The place of the number in its sequence, counted from 0; 0 where the head or a sequence as a
    /// whole breaks it.
    pub place: u32,
}

/// Why there is no collection.
#[derive(Clone, Copy, Debug, PartialEq, Eq)]
pub enum CollError {
    /// The files are of no collection, and this rule breaks first.
    Broken(Fault),
    /// A start or a read of this slot failed.
    Read(Slot),
    /// Memory was refused, by the reader or by the depot.
    NoMemory,
}

impl CollError {
    ghost use Rattle.collection_reader.specs.OneFile.{call_error};

    // The refusal where a call on this slot was refused.
    pub(crate) fn of_call(slot: Slot, fail: IoFail) -> CollError
        ensures { result ≡ call_error slot fail }
    {
        match fail {
            IoFail::Failed => CollError::Read(slot),
            IoFail::NoMemory => CollError::NoMemory,
        }
    }
}

impl From<AllocError> for CollError {
    ghost use Rattle.collection_reader.specs.declared.fault.CollError.TheVariants.{NoMemory};

    ghost from_gives = { λ _ e. e ≡ NoMemory };

    fn from(_e: AllocError) -> CollError {
        CollError::NoMemory
    }
}

impl<T: Drop> From<AllocFailed<T>> for CollError {
    ghost use Rattle.collection_reader.specs.declared.fault.CollError.TheVariants.{NoMemory};

    ghost from_gives = { λ _ e. e ≡ NoMemory };

    fn from(_e: AllocFailed<T>) -> CollError {
        CollError::NoMemory
    }
}
