//! Which entries of a configuration are for a method or a field (`specs/ConfigEntries.antt`). Where several are, the
//! last one counts.

ghost use Rattle.std.specs.Prelude.{◌↔◌, Contains, IsTrue};
ghost use Rattle.std.specs.Option.{option_copied};
ghost use Rattle.dso_config_entries.specs.ConfigEntries.{Guards, IsAutolock, IsForField, IsRoot, Matches};
ghost use Rattle.dso_config_entries.specs.LastAndFirst.{LastGives, LastWith};

use dso_base::{Grade, Same, Word};
use dso_config::{AutoEntry, Config, GuardEntry, NamedEntry, Pattern, RootEntry};

/// Whether the pattern is for this method of this class.
pub fn matches_method(pattern: &Pattern, class: &Word, method: &Word) -> bool
    ensures { IsTrue result ↔ Matches pattern.now class.now method.now }
{
    match pattern {
        Pattern::All => true,
        Pattern::Class(named) => named.same(class),
        Pattern::Method(named, wanted) => named.same(class) && wanted.same(method),
    }
}

/// Whether the guard is for this field of this class.
pub fn guards_field(entry: &GuardEntry, class: &Word, field: &Word) -> bool
    ensures { IsTrue result ↔ Guards entry.now class.now field.now }
{
    entry.class.same(class) && is_for_field(&entry.field, field)
}

/// Whether the field that an entry names is this one; where it names none, it is.
fn is_for_field(named: &Option<Word>, field: &Word) -> bool
    ensures { IsTrue result ↔ IsForField named.now field.now }
{
    match named {
        Some(name) => name.same(field),
        None => true,
    }
}

/// The level at which `synchronized` locks in this method, None where no autolock is for it.
pub fn autolock(config: &Config, class: &Word, method: &Word) -> Option<Grade>
    ensures { IsAutolock config.now class.now method.now result }
{
    match (&config.autolocks, &config.named) {
        (Some(entries), _) => last_grade(entries.as_slice(), class, method),
        (None, Some(_)) => None,
        (None, None) => Some(Grade::Write),
    }
}

/// The level of the last entry that is for the method.
fn last_grade(entries: &[AutoEntry], class: &Word, method: &Word) -> Option<Grade>
    ensures { LastGives (λ entry. Matches entry.method class.now method.now) (λ entry. entry.grade) entries.now result }
{
    let mut grade = None;
    for entry in entries {
        if matches_method(&entry.method, class, method) {
            grade = Some(entry.grade);
        }
    }
    grade
}

/// The last entry for a named lock that is for the method.
pub fn last_named<'a>(
    entries: &'a [NamedEntry],
    class: &Word,
    method: &Word,
) -> Option<&'a NamedEntry>
    ensures { LastWith (λ entry. Matches entry.method class.now method.now) entries.now (option_copied result) }
{
    let mut last = None;
    for entry in entries {
        if matches_method(&entry.method, class, method) {
            last = Some(entry);
        }
    }
    last
}

/// The last guard that is for the field.
pub fn last_guard<'a>(
    entries: &'a [GuardEntry],
    class: &Word,
    field: &Word,
) -> Option<&'a GuardEntry>
    ensures { LastWith (λ entry. Guards entry class.now field.now) entries.now (option_copied result) }
{
    let mut last = None;
    for entry in entries {
        if guards_field(entry, class, field) {
            last = Some(entry);
        }
    }
    last
}

/// Whether a static field is a root: it is named as one, or roots are not spoken of.
pub fn is_root(config: &Config, class: &Word, field: &Word) -> bool
    ensures { IsTrue result ↔ IsRoot config.now.roots class.now field.now }
{
    match &config.roots {
        Some(roots) => names_root(roots.as_slice(), class, field),
        None => true,
    }
}

/// Whether one of the entries names the field.
fn names_root(roots: &[RootEntry], class: &Word, field: &Word) -> bool
    ensures { IsTrue result ↔ Contains roots.now (record { class = class.now; field = field.now }) }
{
    for root in roots {
        if root.class.same(class) && root.field.same(field) {
            return true;
        }
    }
    false
}
