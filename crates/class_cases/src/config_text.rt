//! A configuration as text: each key with its value, `-` where it is absent, and a section's entries in brackets, or
//! how many they are where there are more than eight.

use dso_base::{Grade, Items, Trigger, Word};
use dso_config::{AutoEntry, Config, GuardEntry, NamedEntry, Pattern, RootEntry};
use std::alloc::AllocError;
use std::fmt::Write;

/// The most entries that are told one by one.
const MOST_TOLD: usize = 8;

/// Writes a configuration.
pub fn configuration(out: &mut String, config: &Config) -> Result<(), AllocError> {
    write!(
        out,
        "clients={} resident={}",
        config.clients, config.resident
    )?;
    optional(out, " root=", &config.roots)?;
    optional(out, " autolock=", &config.autolocks)?;
    optional(out, " named_lock=", &config.named)?;
    section(out, " guard=", config.guards.as_slice())?;
    section(out, " lose=", config.losses.as_slice())?;
    section(out, " break=", config.breaks.as_slice())
}

/// An entry of a section.
trait Entry {
    /// Writes the entry, with a space in front.
    fn tell(&self, out: &mut String) -> Result<(), AllocError>;
}

/// Writes a section that may be absent, with its key.
fn optional<T: Entry>(
    out: &mut String,
    key: &str,
    entries: &Option<Items<T>>,
) -> Result<(), AllocError> {
    match entries {
        Some(entries) => section(out, key, entries.as_slice()),
        None => {
            out.push_str(key)?;
            out.push('-')
        }
    }
}

/// Writes the entries of a section behind its key, or how many they are where they are too many to be told.
fn section<T: Entry>(out: &mut String, key: &str, entries: &[T]) -> Result<(), AllocError> {
    out.push_str(key)?;
    if entries.len() > MOST_TOLD {
        return write!(out, "{} entries", entries.len());
    }
    out.push('[')?;
    for entry in entries {
        entry.tell(out)?;
    }
    out.push_str(" ]")
}

/// Writes the letters of a name.
fn letters(out: &mut String, word: &Word) -> Result<(), AllocError> {
    for byte in word.as_slice() {
        out.push(char::from(*byte))?;
    }
    Ok(())
}

/// Writes ` Class.member`, or ` Class.*` where no member is named.
fn member(out: &mut String, class: &Word, member: Option<&Word>) -> Result<(), AllocError> {
    out.push(' ')?;
    letters(out, class)?;
    out.push('.')?;
    match member {
        Some(member) => letters(out, member),
        None => out.push('*'),
    }
}

/// Writes a pattern and the level behind it.
fn locking(out: &mut String, method: &Pattern, grade: Grade) -> Result<(), AllocError> {
    match method {
        Pattern::All => out.push_str(" *.*")?,
        Pattern::Class(class) => member(out, class, None)?,
        Pattern::Method(class, method) => member(out, class, Some(method))?,
    }
    write!(out, "@{grade:?}")
}

impl Entry for RootEntry {
    fn tell(&self, out: &mut String) -> Result<(), AllocError> {
        member(out, &self.class, Some(&self.field))
    }
}

impl Entry for AutoEntry {
    fn tell(&self, out: &mut String) -> Result<(), AllocError> {
        locking(out, &self.method, self.grade)
    }
}

impl Entry for NamedEntry {
    fn tell(&self, out: &mut String) -> Result<(), AllocError> {
        locking(out, &self.method, self.grade)?;
        out.push('=')?;
        letters(out, &self.name)
    }
}

impl Entry for GuardEntry {
    fn tell(&self, out: &mut String) -> Result<(), AllocError> {
        member(out, &self.class, self.field.as_ref())?;
        out.push('=')?;
        letters(out, &self.lock)
    }
}

impl Entry for Trigger {
    fn tell(&self, out: &mut String) -> Result<(), AllocError> {
        write!(out, " {}@{}", self.client, self.after)
    }
}
