//! The error of a call to which memory was refused.
#![tactic(auto)]

use std::alloc::{AllocError, AllocFailed};

/// Memory was refused.
#[derive(Clone, Copy, Debug, PartialEq, Eq)]
pub struct NoMemory;

impl From<AllocError> for NoMemory {
    ghost from_gives = { λ _ _. Unit {0} };

    fn from(_refused: AllocError) -> NoMemory {
        NoMemory
    }
}

impl<T: Drop> From<AllocFailed<T>> for NoMemory {
    ghost from_gives = { λ _ _. Unit {0} };

    fn from(_refused: AllocFailed<T>) -> NoMemory {
        NoMemory
    }
}
