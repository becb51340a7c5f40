//! What is wrong with a name.

ghost use Rattle.std.specs.Prelude.{◌≡◌};
ghost use Rattle.dso_base.specs.declared.no_memory.NoMemory as base;
ghost use Rattle.dso_class.specs.declared.fault.NameFault.TheVariants as fault;

use dso_base::NoMemory;
use std::alloc::AllocFailed;
use thiserror::Error;

/// What there is too much of.
#[derive(Clone, Copy, Debug, PartialEq, Eq, Error)]
pub enum What {
    #[error("classes")]
    Classes,
    #[error("fields in a class")]
    Fields,
    #[error("statics")]
    Statics,
    #[error("methods in a class")]
    Methods,
    #[error("parameters")]
    Parameters,
    #[error("variables")]
    Variables,
    #[error("different texts")]
    Texts,
    #[error("threads of a client")]
    Threads,
}

/// What is wrong with a name. Where two things are wrong at one place, the one listed first is told.
#[derive(Clone, Copy, Debug, PartialEq, Eq, Error)]
pub enum NameKind {
    #[error("there is no class of this name")]
    UnknownClass,
    #[error("there is no method of this name")]
    UnknownMethod,
    #[error("the name is declared twice")]
    Twice,
    #[error("another number of arguments than the method has parameters")]
    WrongArguments,
    #[error("there is no static of this name, or it is no root")]
    UnknownRoot,
    #[error("no autolock matches the method")]
    NoAutolock,
    #[error("too many {0}")]
    TooMany(What),
    #[error("there is no client of this number")]
    NoSuchClient,
    #[error("there is no variable of this name")]
    UnknownVariable,
}

/// Why a tree is no program: the first thing that is wrong with its names, on this line, or that an allocation was
/// refused.
#[derive(Clone, Copy, Debug, PartialEq, Eq, Error)]
pub enum NameFault {
    #[error("line {line}: {kind}")]
    At { kind: NameKind, line: u32 },
    #[error("out of memory")]
    NoMemory(NoMemory),
}

impl From<NoMemory> for NameFault {
    ghost from_gives = { λ refusal e. e ≡ fault.NoMemory refusal };

    fn from(refusal: NoMemory) -> Self {
        NameFault::NoMemory(refusal)
    }
}

impl<T: Drop> From<AllocFailed<T>> for NameFault {
    ghost from_gives = { λ _ e. (refusal : base.NoMemory) × (e ≡ fault.NoMemory refusal) };

    fn from(refused: AllocFailed<T>) -> Self {
        NameFault::NoMemory(NoMemory::from(refused))
    }
}
