//! The named lock of a method and the guard of a field (`specs/TextProgram.antt`).

ghost use Rattle.std.specs.Prelude.{◌≡◌, ◌+◌, ◌<◌, ◌^◌, length};
ghost use Rattle.dso_config.specs.InRange.{entries};
ghost use Rattle.dso_config_entries.specs.ConfigEntries.{lock_mentions};
ghost use Rattle.dso_config_entries.specs.BorrowedWords.{words_of};
ghost use Rattle.dso_config_entries.specs.LastAndFirst.{AreFirsts};
ghost use Rattle.dso_class.specs.TextProgram.{Source, roots_of, IsNamedLock, IsGuard};

use dso_base::{Grade, Guard, Items, Word};
use dso_config::{Config, NamedEntry};
use dso_config_entries::{Interner, last_guard, last_named, lock_number};

/// The entries for named locks, none where there is no such section.
fn named_entries(named: &Option<Items<NamedEntry>>) -> &[NamedEntry]
    ensures { result.now ≡ entries named.now }
{
    match named {
        Some(entries) => entries.as_slice(),
        None => &[],
    }
}

/// The named lock that a call of the method takes, by its number and level: that of the last entry for it.
pub(crate) fn named_lock<'a>(
    config: &'a Config,
    locks: &Interner<&'a [u8]>,
    roots: u32,
    class: &Word,
    method: &Word,
) -> Option<(u32, Grade)>
    requires names { AreFirsts (lock_mentions config.now) (words_of locks.now) }
    requires few { roots + length locks.now < 2 ^ 32 }
    ensures { (source : Source) → source.config ≡ config.now → source.locks ≡ words_of locks.now → roots_of source ≡ roots → IsNamedLock source class.now method.now result }
{
    match last_named(named_entries(&config.named), class, method) {
        Some(entry) => Some((lock_number(locks, roots, &entry.name), entry.grade)),
        None => None,
    }
}

/// The guard of a field: the lock of the last entry for it, or the object's own monitor.
pub(crate) fn guard_of<'a>(
    config: &'a Config,
    locks: &Interner<&'a [u8]>,
    roots: u32,
    class: &Word,
    field: &Word,
) -> Guard
    requires names { AreFirsts (lock_mentions config.now) (words_of locks.now) }
    requires few { roots + length locks.now < 2 ^ 32 }
    ensures { (source : Source) → source.config ≡ config.now → source.locks ≡ words_of locks.now → roots_of source ≡ roots → IsGuard source class.now field.now result }
{
    match last_guard(config.guards.as_slice(), class, field) {
        Some(entry) => Guard::Name(lock_number(locks, roots, &entry.lock)),
        None => Guard::Own,
    }
}
