//! Why a text was not written.
ghost use Rattle.std.specs.Prelude.{◌≡◌};
ghost use Rattle.dso_base.specs.declared.no_memory.NoMemory as base;
ghost use Rattle.dso_report.specs.declared.unwritten.Unwritten.TheVariants as unwritten;

use dso_base::NoMemory;
use std::alloc::AllocError;

/// Why a text was not written: something that it names isn't there, or an allocation was refused.
#[derive(Clone, Copy, Debug, PartialEq, Eq)]
pub(crate) enum Unwritten {
    Missing,
    NoMemory(NoMemory),
}

impl From<AllocError> for Unwritten {
    ghost from_gives = { λ _ e. (refusal : base.NoMemory) × (e ≡ unwritten.NoMemory refusal) };

    fn from(refused: AllocError) -> Self {
        Unwritten::NoMemory(NoMemory::from(refused))
    }
}
