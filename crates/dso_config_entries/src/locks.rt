//! The names of named locks (`specs/ConfigEntries.antt`).

ghost use Rattle.std.specs.Prelude.{◌+◌, ◌<◌, ◌^◌, ◌++◌, List, Contains, length, map, IfOk, OnOk};
ghost use Rattle.dso_config_entries.specs.ConfigEntries.{lock_mentions};
ghost use Rattle.dso_config_entries.specs.BorrowedWords.{words_of};
ghost use Rattle.dso_config_entries.specs.LastAndFirst.{AreFirsts};
ghost use Rattle.dso_config_entries.specs.LockNumbers.{IsLockNumber};
ghost use Rattle.dso_config_entries.specs.Words.{Word};

use crate::interner::Interner;
use crate::words::{add, number_of};
use dso_base::{NoMemory, Word};
use dso_config::{Config, GuardEntry, NamedEntry};
use std::alloc::Global;

/// The names of the locks, each once: those of the named locks in the order of their entries, then those of the guards.
pub fn lock_names(alloc: Global, config: &Config) -> Result<Interner<&[u8]>, NoMemory>
    ensures { IfOk result (λ names. AreFirsts (lock_mentions config.now) (words_of names)) }
{
    let mut names = Interner::new(alloc);
    match &config.named {
        Some(entries) => add_named(&mut names, entries.as_slice())?,
        None => {}
    }
    add_guards(&mut names, config.guards.as_slice())?;
    Ok(names)
}

/// Puts the names of named locks behind the others.
fn add_named<'a>(names: &mut Interner<&'a [u8]>, entries: &'a [NamedEntry]) -> Result<(), NoMemory>
    ensures { (before : List Word) → AreFirsts before (words_of names.old) → OnOk result (AreFirsts (before ++ map (λ entry. entry.name) entries.now) (words_of names.new)) }
{
    for entry in entries {
        add(names, entry.name.as_slice())?;
    }
    Ok(())
}

/// Puts the names of the guards' locks behind the others.
fn add_guards<'a>(names: &mut Interner<&'a [u8]>, entries: &'a [GuardEntry]) -> Result<(), NoMemory>
    ensures { (before : List Word) → AreFirsts before (words_of names.old) → OnOk result (AreFirsts (before ++ map (λ entry. entry.lock) entries.now) (words_of names.new)) }
{
    for entry in entries {
        add(names, entry.lock.as_slice())?;
    }
    Ok(())
}

/// The number of a lock of this name, which follow those of the roots.
pub fn lock_number<'a>(locks: &Interner<&'a [u8]>, roots: u32, name: &'a Word) -> u32
    requires there { Contains (words_of locks.now) name.now }
    requires few { roots + length locks.now < 2 ^ 32 }
    ensures { IsLockNumber (words_of locks.now) roots name.now result }
{
    match number_of(locks, name.as_slice()) {
        Some(number) => roots + number as u32,
        None => unreachable!(),
    }
}
