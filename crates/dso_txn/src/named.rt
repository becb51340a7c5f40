//! Which objects the work that a thread has in hand names (`specs/NamedInHand.antt`).
ghost use Rattle.std.specs.List.{list_any};
ghost use Rattle.std.specs.BTreeMap.{IsOrdered};
ghost use Rattle.std.specs.Ordering.{nat_cmp};
ghost use Rattle.std.specs.Prelude.{◌≡◌, ◌++◌, ◌∷◌, [], OnOk};
ghost use Rattle.dso_base.specs.Naming.{body_with_names, lock_names, note_names, set_names};
ghost use Rattle.dso_change.specs.Hands.{sets_of, values_of, with_references};
ghost use Rattle.dso_txn.specs.NamedInHand.{AddsNamed};

use dso_base::{Body, LockName, NoMemory, Note, Value};
use std::collections::BTreeMap;

/// Adds the objects that the values name. NoMemory: some of them may have been added.
pub fn add_values(values: &[Value], into: &mut Vec<u64>) -> Result<(), NoMemory>
    ensures { OnOk result (into.new.items ≡ with_references values.now into.old.items) }
{
    for value in values {
        if let Value::Ref(object) = value {
            into.push(*object)?;
        }
    }
    Ok(())
}

/// Adds an object, and those that its values name. NoMemory: some of them may have been added.
pub fn add_with_values(object: u64, values: &[Value], into: &mut Vec<u64>) -> Result<(), NoMemory>
    ensures { OnOk result (into.new.items ≡ with_references values.now (into.old.items ++ object ∷ [])) }
{
    into.push(object)?;
    add_values(values, into)
}

/// Adds the objects that the bodies of a table name, their own among them.
pub(crate) fn add_bodies(bodies: &BTreeMap<u64, Body>, into: &mut Vec<u64>) -> Result<(), NoMemory>
    ensures named { OnOk result (AddsNamed (λ o. list_any (λ body. body_with_names body o) (values_of bodies.now)) into.old.items into.new.items) }
    ensures ordered { IsOrdered nat_cmp bodies.now }
{
    for (_, body) in bodies {
        add_with_values(body.object, body.values.as_slice(), into)?;
    }
    Ok(())
}

/// Adds the objects that the sets of a table name: those that they set, and their values.
pub(crate) fn add_sets(
    sets: &BTreeMap<(u64, u32), Value>,
    into: &mut Vec<u64>,
) -> Result<(), NoMemory>
    ensures { OnOk result (AddsNamed (λ o. list_any (λ set. set_names set o) (sets_of sets.now)) into.old.items into.new.items) }
{
    for (field, value) in sets {
        add_with_values(field.0, &[*value], into)?;
    }
    Ok(())
}

/// Adds the object whose monitor a lock is. NoMemory: nothing was added.
pub fn add_monitor(lock: LockName, into: &mut Vec<u64>) -> Result<(), NoMemory>
    ensures { OnOk result (AddsNamed (lock_names lock) into.old.items into.new.items) }
{
    if let LockName::Mon(object) = lock {
        into.push(object)?;
    }
    Ok(())
}

/// Adds the objects of whose monitors there are notifications. NoMemory: some of them may have been added.
pub fn add_notes(notes: &[Note], into: &mut Vec<u64>) -> Result<(), NoMemory>
    ensures { OnOk result (AddsNamed (λ o. list_any (λ note. note_names note o) notes.now) into.old.items into.new.items) }
{
    for note in notes {
        add_monitor(note.lock, into)?;
    }
    Ok(())
}
