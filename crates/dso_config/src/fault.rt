//! What is wrong with a configuration's text, and where.

use dso_base::NoMemory;
use std::alloc::AllocFailed;
use std::fmt;
use thiserror::Error;

/// A part of a configuration: its top, or one of its sections.
#[derive(Clone, Copy, Debug, PartialEq, Eq)]
pub enum Section {
    Top,
    Root,
    Autolock,
    NamedLock,
    Guard,
    Lose,
    Break,
}

/// A place in a configuration.
///
/// `entry` is the number of a section's entry, counted from 1. It is 0 at the top, and for a section that is no array.
#[derive(Clone, Copy, Debug, PartialEq, Eq)]
pub struct Spot {
    pub section: Section,
    pub entry: u32,
}

/// Why a text says no configuration. Where several faults stand, the first one is told.
#[derive(Clone, Copy, Debug, PartialEq, Eq, Error)]
pub enum ConfigFault {
    /// The text is no TOML.
    #[error("the text is not TOML")]
    NotToml,
    /// A key that there is not.
    #[error("{0}: unknown key")]
    UnknownKey(Spot),
    /// A key is missing, or its value is of another kind.
    #[error("{0}: a value is missing or of another kind")]
    WrongKind(Spot),
    /// A number out of its range, an unknown level, a client that there is not, or entry 1025 of a section.
    #[error("{0}: a value is out of range")]
    OutOfRange(Spot),
    /// A method that is neither `Class.method` nor `Class.*` nor `*.*`.
    #[error("{0}: not a method pattern")]
    BadMethodPattern(Spot),
    /// A guard's field that is neither `Class.field` nor `Class.*`, or its lock that is no name.
    #[error("{0}: not a guard")]
    BadGuard(Spot),
    /// A root named twice, a client lost twice, or a client cut off twice after one message.
    #[error("{0}: repeats an earlier entry")]
    Twice(Spot),
    /// The text has over 1,048,576 bytes.
    #[error("the text is longer than 1048576 bytes")]
    TooLong,
    /// A root's field that is no `Class.field`, or a lock's name that is no name.
    #[error("{0}: not a name")]
    BadName(Spot),
    /// An allocation was refused.
    #[error("out of memory")]
    NoMemory(NoMemory),
}

impl Section {
    ghost use Rattle.std.specs.Prelude.{◌≡◌};
    ghost use Rattle.dso_config.specs.Keys.{key_of};

    /// The key of the section in a text; `top` for the top.
    pub fn key(self) -> &'static str
        ensures { result.now ≡ key_of self }
    {
        match self {
            Section::Top => "top",
            Section::Root => "root",
            Section::Autolock => "autolock",
            Section::NamedLock => "named_lock",
            Section::Guard => "guard",
            Section::Lose => "lose",
            Section::Break => "break",
        }
    }
}

impl Spot {
    /// The top of a configuration.
    pub const TOP: Spot = Spot {
        section: Section::Top,
        entry: 0,
    };
}

/// `the top`, `[[root]]`, or `entry 3 of [[root]]`.
impl fmt::Display for Spot {
    fn fmt<W: fmt::Write>(&self, f: &mut fmt::Formatter<W>) -> fmt::Result {
        let key = self.section.key();
        match (self.section, self.entry) {
            (Section::Top, _) => f.write_str("the top"),
            (_, 0) => write!(f, "[[{key}]]"),
            (_, entry) => write!(f, "entry {entry} of [[{key}]]"),
        }
    }
}

impl From<NoMemory> for ConfigFault {
    ghost use Rattle.std.specs.Prelude.{◌≡◌};
    ghost use Rattle.dso_config.specs.declared.fault.ConfigFault.TheVariants as fault;

    ghost from_gives = { λ refused e. e ≡ fault.NoMemory refused };

    fn from(refused: NoMemory) -> ConfigFault {
        ConfigFault::NoMemory(refused)
    }
}

impl<T: Drop> From<AllocFailed<T>> for ConfigFault {
    ghost use Rattle.std.specs.Prelude.{◌≡◌};
    ghost use Rattle.dso_base.specs.declared.no_memory.NoMemory as base;
    ghost use Rattle.dso_config.specs.declared.fault.ConfigFault.TheVariants as fault;

    ghost from_gives = { λ _ e. (refused : base.NoMemory) × (e ≡ fault.NoMemory refused) };

    fn from(refused: AllocFailed<T>) -> ConfigFault {
        ConfigFault::NoMemory(NoMemory::from(refused))
    }
}
