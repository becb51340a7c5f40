//! Why bytes are no frame, and no record.

use dso_base::NoMemory;
use std::alloc::{AllocError, AllocFailed};
use thiserror::Error;

/// Why bytes are no frame, or no record: the first fault from the front, or that an allocation was refused.
///
/// Places are counted from 0.
#[derive(Clone, Copy, Debug, PartialEq, Eq, Error)]
pub enum WireFault {
    /// The bytes end inside a frame.
    #[error("the bytes end too early")]
    Short,
    /// The byte at this place begins no alternative.
    #[error("byte {0}: no alternative begins so")]
    Tag(u64),
    /// The byte at this place is a truth, a client, an index or a fault out of its range.
    #[error("byte {0}: out of range")]
    Range(u64),
    /// A whole frame ends before this place, and there are more bytes.
    #[error("byte {0}: behind the end")]
    Rest(u64),
    /// An allocation was refused.
    #[error("out of memory")]
    NoMemory(NoMemory),
}

/// What is wrong with the bytes that are left: they end too early, or their first byte is no tag, or out of its range.
///
/// A wrong byte is told by how many bytes there are from it on, so that what reads need not know where it stands.
#[derive(Clone, Copy, Debug, PartialEq, Eq)]
pub enum Wrong {
    Short,
    Tag(usize),
    Range(usize),
}

/// Why nothing was read from the front of bytes.
#[derive(Clone, Copy, Debug, PartialEq, Eq)]
pub enum ReadFault {
    /// An allocation was refused.
    NoMemory(NoMemory),
    /// The bytes are wrong.
    Wrong(Wrong),
}

impl From<AllocError> for ReadFault {
    ghost use Rattle.std.specs.Prelude.{◌≡◌};
    ghost use Rattle.dso_base.specs.declared.no_memory.NoMemory as base;
    ghost use Rattle.dso_wire.specs.declared.fault.ReadFault.TheVariants as fault;

    ghost from_gives = { λ _ e. (refused : base.NoMemory) × (e ≡ fault.NoMemory refused) };

    fn from(refused: AllocError) -> ReadFault {
        ReadFault::NoMemory(NoMemory::from(refused))
    }
}

impl<T: Drop> From<AllocFailed<T>> for ReadFault {
    ghost use Rattle.std.specs.Prelude.{◌≡◌};
    ghost use Rattle.dso_base.specs.declared.no_memory.NoMemory as base;
    ghost use Rattle.dso_wire.specs.declared.fault.ReadFault.TheVariants as fault;

    ghost from_gives = { λ _ e. (refused : base.NoMemory) × (e ≡ fault.NoMemory refused) };

    fn from(refused: AllocFailed<T>) -> ReadFault {
        ReadFault::NoMemory(NoMemory::from(refused))
    }
}
