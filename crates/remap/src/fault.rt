ghost use Rattle.std.specs.Prelude.{◌≡◌};

use io_traits::IoFail;
use std::alloc::{AllocError, AllocFailed};

/// The rules of a map, in their order.
#[derive(Clone, Copy, Debug, PartialEq, Eq)]
pub enum MapRule {
    /// A number is needed and fewer than four bytes are left.
    M1,
    /// The length is not the number of documents.
    M2,
    /// An id is not below the number of documents.
    M3,
    /// An id came before.
    M4,
    /// Bytes are left after the ids.
    M5,
}

/// The first rule that breaks, and where.
#[derive(Clone, Copy, Debug, PartialEq, Eq)]
pub struct MapFault {
    /// The rule that breaks.
    pub rule: MapRule,
    /// The place of the id that breaks it, counted from 0; at M1 how many ids were read before, at
    /// M5 how many there are, and at the length 0.
    pub place: u32,
}

/// Why there is no order of the documents.
#[derive(Clone, Copy, Debug, PartialEq, Eq)]
pub enum MapError {
    /// The file is no order of the documents, and this rule breaks first.
    Broken(MapFault),
    /// The start or a read of the slot of the map failed.
    Read,
    /// Memory was refused, by the reader or by the depot.
    NoMemory,
}

impl MapError {
    ghost use Rattle.remap.specs.declared.fault.MapError.TheVariants.{Broken};

    // The refusal of a map that breaks this rule there.
    pub(crate) fn broken(rule: MapRule, place: u32) -> MapError
        ensures { result ≡ Broken (record { rule = rule; place = place }) }
    {
        MapError::Broken(MapFault { rule, place })
    }
}

impl From<IoFail> for MapError {
    ghost use Rattle.remap.specs.OneMap.{call_error};

    ghost from_gives = { λ fail e. e ≡ call_error fail };

    fn from(fail: IoFail) -> MapError {
        match fail {
            IoFail::Failed => MapError::Read,
            IoFail::NoMemory => MapError::NoMemory,
        }
    }
}

impl From<AllocError> for MapError {
    ghost use Rattle.remap.specs.declared.fault.MapError.TheVariants.{NoMemory};

    ghost from_gives = { λ _ e. e ≡ NoMemory };

    fn from(_e: AllocError) -> MapError {
        MapError::NoMemory
    }
}

impl<T: Drop> From<AllocFailed<T>> for MapError {
    ghost use Rattle.remap.specs.declared.fault.MapError.TheVariants.{NoMemory};

    ghost from_gives = { λ _ e. e ≡ NoMemory };

    fn from(_e: AllocFailed<T>) -> MapError {
        MapError::NoMemory
    }
}
