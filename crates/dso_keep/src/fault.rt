//! Why a store wasn't made, added to or read.

use dso_base::NoMemory;
use dso_io::FileFault;
use thiserror::Error;

/// Why a store wasn't made, added to or read. Places are counted from 0.
#[derive(Clone, Copy, Debug, PartialEq, Eq, Error)]
pub enum KeepFault {
    /// The file has so many bytes already, more than one. Only [`create`](crate::create) refuses so.
    #[error("the file has {0} bytes already")]
    NotEmpty(u64),
    /// The open gate at this place is followed by no whole record that fits those before it. Only
    /// [`reopen`](crate::reopen) refuses so.
    #[error("byte {0}: no record follows that fits those before it")]
    BadRecord(u64),
    /// The disk failed, and counted it.
    #[error("the disk failed")]
    Disk,
    /// An allocation was refused.
    #[error("there is not enough memory for the store")]
    NoMemory(NoMemory),
}

impl From<NoMemory> for KeepFault {
    ghost use Rattle.std.specs.Prelude.{◌≡◌};
    ghost use Rattle.dso_keep.specs.declared.fault.KeepFault.TheVariants as fault;

    ghost from_gives = { λ refused e. e ≡ fault.NoMemory refused };

    fn from(refused: NoMemory) -> KeepFault {
        KeepFault::NoMemory(refused)
    }
}

impl From<FileFault> for KeepFault {
    ghost use Rattle.std.specs.Prelude.{◌≡◌};
    ghost use Rattle.dso_keep.specs.Faults.{fault_told};

    ghost from_gives = { λ told e. e ≡ fault_told told };

    fn from(told: FileFault) -> KeepFault {
        match told {
            FileFault::Failed => KeepFault::Disk,
            FileFault::NoMemory(refused) => KeepFault::NoMemory(refused),
        }
    }
}
