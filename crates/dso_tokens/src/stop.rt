//! Why reading a row of tokens stops.

ghost use Rattle.std.specs.Prelude.{◌≡◌};
ghost use Rattle.dso_base.specs.declared.no_memory.NoMemory as base;
ghost use Rattle.dso_tokens.specs.declared.stop.Stop.TheVariants as stop;

use crate::token::Token;
use dso_base::NoMemory;
use std::alloc::{AllocError, AllocFailed};

/// Why reading stops. The tokens are those from the one that is wrong on.
#[derive(Clone, Copy)]
pub enum Stop<'t> {
    Unexpected(&'t [Token]),
    TooWide(&'t [Token]),
    TooDeep(&'t [Token]),
    NoMemory(NoMemory),
}

impl From<AllocError> for Stop<'_> {
    ghost from_gives = { λ _ e. (refused : base.NoMemory) × (e ≡ stop.NoMemory refused) };

    fn from(refused: AllocError) -> Self {
        Stop::NoMemory(NoMemory::from(refused))
    }
}

impl<T: Drop> From<AllocFailed<T>> for Stop<'_> {
    ghost from_gives = { λ _ e. (refused : base.NoMemory) × (e ≡ stop.NoMemory refused) };

    fn from(refused: AllocFailed<T>) -> Self {
        Stop::NoMemory(NoMemory::from(refused))
    }
}
