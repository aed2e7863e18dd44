// Why a table is not read on.
use no_memory::NoMemory;
use std::alloc::{AllocError, AllocFailed};

/// Why a line is not taken.
#[derive(Clone, Copy)]
pub enum Fault {
    /// Memory was refused.
    NoMemory,
    /// A line cannot be read.
    Unread,
}

impl From<AllocError> for Fault {
    ghost from_gives = { λ _ _. Unit {0} };

    fn from(_refused: AllocError) -> Fault {
        Fault::NoMemory
    }
}

impl<T: Drop> From<AllocFailed<T>> for Fault {
    ghost from_gives = { λ _ _. Unit {0} };

    fn from(_refused: AllocFailed<T>) -> Fault {
        Fault::NoMemory
    }
}

impl From<NoMemory> for Fault {
    ghost from_gives = { λ _ _. Unit {0} };

    fn from(_refused: NoMemory) -> Fault {
        Fault::NoMemory
    }
}
