//! Maps, and what is shown of them: their keys, each with its object (`specs/MapEntries.antt`).
ghost use Rattle.std.specs.Prelude.{◌≡◌, ◌<◌, ◌≤◌, int_lt, length, IfOk, OnOk};
ghost use Rattle.std.specs.List.{position, position_or_len};
ghost use Rattle.dso_map.specs.Fields.{place_of};
ghost use Rattle.dso_map.specs.Fields.MapField.{Held, Key};
ghost use Rattle.dso_report.specs.Held.{number_in};
ghost use Rattle.dso_report.specs.MapEntries.{is_map_sized, is_map_there, map_entries, with_entry, with_slot};

use crate::held::number_in;
use crate::seen::Seen;
use dso_base::{ClassId, Value};
use std::alloc::{AllocError, Global};

/// How many fields a map has.
const MAP_SIZE: u32 = 769;

/// How many slots a map has.
const SLOTS: u32 = 256;

/// A key of a map with its object.
#[derive(Clone, Copy, Debug, PartialEq, Eq)]
pub(crate) struct MapEntry {
    pub(crate) key: i64,
    pub(crate) object: u64,
}

/// Whether an object of this class and size is a map.
pub(crate) fn is_map_sized(class: ClassId, size: u32) -> bool
    ensures { result ≡ is_map_sized class size }
{
    match class {
        ClassId::Plain(_) => size == MAP_SIZE,
        _ => false,
    }
}

/// Whether there is an object, and it is a map.
pub(crate) fn is_map_there<S: Seen>(seen: &S, object: u64) -> bool
    ensures { result ≡ is_map_there ((S.state seen.now).objects object) }
{
    match seen.object(object) {
        Some(object) => is_map_sized(object.class, object.size),
        None => false,
    }
}

/// The entries of a map, by rising key, and then by slot.
pub(crate) fn map_entries<S: Seen>(
    alloc: Global,
    seen: &S,
    object: u64,
) -> Result<Vec<MapEntry>, AllocError>
    ensures { IfOk result (λ entries. entries.items ≡ map_entries (S.state seen.now) object) }
{
    let mut entries = Vec::new(alloc);
    for slot in 0..SLOTS {
        add_slot(&mut entries, seen, object, slot)?;
    }
    Ok(entries)
}

/// Adds the entry of a slot to those of the slots before it, where it has one.
fn add_slot<S: Seen>(
    entries: &mut Vec<MapEntry>,
    seen: &S,
    object: u64,
    slot: u32,
) -> Result<(), AllocError>
    requires { slot < 256 }
    ensures { OnOk result (entries.new.items ≡ with_slot (number_in ((S.state seen.now).heap (object, place_of (Key slot)))) ((S.state seen.now).heap (object, place_of (Held slot))) entries.old.items) }
{
    let key = number_in(seen.value(object, 3 * slot + 1));
    add_held(entries, key, seen.value(object, 3 * slot + 2))
}

/// Adds the entry of a slot with a key, where it holds an object.
fn add_held(entries: &mut Vec<MapEntry>, key: i64, held: Option<Value>) -> Result<(), AllocError>
    ensures { OnOk result (entries.new.items ≡ with_slot key held entries.old.items) }
{
    if let Some(Value::Ref(object)) = held {
        add_entry(entries, MapEntry { key, object })?;
    }
    Ok(())
}

/// Adds an entry behind those whose key is no greater.
fn add_entry(entries: &mut Vec<MapEntry>, entry: MapEntry) -> Result<(), AllocError>
    ensures { OnOk result (entries.new.items ≡ with_entry entry entries.old.items) }
{
    let place = place_for(entries.as_slice(), entry);
    entries.insert(place, entry)?;
    Ok(())
}

/// The place of the first entry with a greater key, or behind all where there is none.
fn place_for(entries: &[MapEntry], entry: MapEntry) -> usize
    ensures place { result ≡ position_or_len (λ other. int_lt entry.key other.key) entries.now }
    ensures within { result ≤ length entries.now }
{
    match first_behind(entries, entry) {
        Some(place) => place,
        None => entries.len(),
    }
}

/// The place of the first entry with a greater key, if there is one.
fn first_behind(entries: &[MapEntry], entry: MapEntry) -> Option<usize>
    ensures { result ≡ position (λ other. int_lt entry.key other.key) entries.now }
{
    entries.iter().position(|other| is_behind(entry, other))
}

/// Whether the second entry has a greater key.
fn is_behind(entry: MapEntry, other: &MapEntry) -> bool
    ensures { result ≡ int_lt entry.key other.now.key }
{
    entry.key < other.key
}
