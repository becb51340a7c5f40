//! The allocator's refusal, handed on.
use std::alloc::{AllocError, AllocFailed};

/// An allocation was refused.
///
/// Its field is private, so that it is made from std's own refusal, and else only handed on: a spent value keeps the
/// one that spent it.
#[derive(Clone, Copy, Debug, PartialEq, Eq)]
pub struct NoMemory {
    refusal: AllocError,
}

impl From<AllocError> for NoMemory {
    fn from(refusal: AllocError) -> NoMemory {
        NoMemory { refusal }
    }
}

impl<T: Drop> From<AllocFailed<T>> for NoMemory {
    fn from(_refused: AllocFailed<T>) -> NoMemory {
        NoMemory {
            refusal: AllocError,
        }
    }
}
