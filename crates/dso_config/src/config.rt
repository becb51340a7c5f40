//! The configuration as a value; the empty one is that of `specs/Config.antt`.
ghost use Rattle.std.specs.Prelude.{◌≡◌};
ghost use Rattle.dso_config.specs.Config.{empty};
ghost use Rattle.dso_config.specs.InRange.{IsInRange};

use crate::Pattern;
use dso_base::{Grade, Items, Trigger, Word};
use std::alloc::Global;

/// The methods that lock the object's monitor on their own, and the level at which they do.
#[derive(Debug, Drop)]
pub struct AutoEntry {
    pub method: Pattern,
    pub grade: Grade,
}

/// The methods that take a lock of this name, and the level at which they do.
#[derive(Debug, Drop)]
pub struct NamedEntry {
    pub name: Word,
    pub method: Pattern,
    pub grade: Grade,
}

/// The named lock that guards a field of a class, or every field of it where none is named.
#[derive(Debug, Drop)]
pub struct GuardEntry {
    pub class: Word,
    pub field: Option<Word>,
    pub lock: Word,
}

/// A static field that is a root.
#[derive(Debug, Drop)]
pub struct RootEntry {
    pub class: Word,
    pub field: Word,
}

/// A configuration.
///
/// `resident` is how many objects a client may keep. Where `roots` is absent every static field is a root; where both
/// `autolocks` and `named` are absent every method locks at write. Of the entries that match, the last one counts.
#[derive(Debug, Drop)]
pub struct Config {
    pub clients: u8,
    pub resident: u32,
    pub roots: Option<Items<RootEntry>>,
    pub autolocks: Option<Items<AutoEntry>>,
    pub named: Option<Items<NamedEntry>>,
    pub guards: Items<GuardEntry>,
    pub losses: Items<Trigger>,
    pub breaks: Items<Trigger>,
}

impl Config {
    /// The configuration of the empty text: one client that keeps 4096 objects, and no key. It takes no memory.
    pub fn empty(alloc: Global) -> Config
        ensures says_nothing { result ≡ empty }
        ensures in_range { IsInRange result }
    {
        Config {
            clients: 1,
            resident: 4096,
            roots: None,
            autolocks: None,
            named: None,
            guards: Items::new(alloc),
            losses: Items::new(alloc),
            breaks: Items::new(alloc),
        }
    }
}
