//! What the parts of messages name: bodies, sets and records (`dso_base/specs/Naming.antt`).
ghost use Rattle.std.specs.List.{list_any};
ghost use Rattle.std.specs.Prelude.{eqb, OnOk};
ghost use Rattle.dso_base.specs.Naming.{body_with_names, ending_names, record_names, set_names};
ghost use Rattle.dso_txn.specs.NamedInHand.{AddsNamed};

use dso_base::{Body, Ending, NoMemory, Set, Txn};
use dso_txn::{add_monitor, add_notes, add_values, add_with_values};

/// Adds the object.
pub(crate) fn add_object(object: u64, into: &mut Vec<u64>) -> Result<(), NoMemory>
    ensures { OnOk result (AddsNamed (λ o. eqb object o) into.old.items into.new.items) }
{
    into.push(object)?;
    Ok(())
}

/// Adds the body's object, and those that it names.
#[tactic(auto, using(crate::proofs::collecting::Added::body_added))]
pub(crate) fn add_body(body: &Body, into: &mut Vec<u64>) -> Result<(), NoMemory>
    ensures { OnOk result (AddsNamed (body_with_names body.now) into.old.items into.new.items) }
{
    add_with_values(body.object, body.values.as_slice(), into)
}

/// Adds the bodies' objects, and those that they name.
fn add_bodies(bodies: &[Body], into: &mut Vec<u64>) -> Result<(), NoMemory>
    ensures { OnOk result (AddsNamed (λ o. list_any (λ body. body_with_names body o) bodies.now) into.old.items into.new.items) }
{
    for body in bodies {
        add_body(body, into)?;
    }
    Ok(())
}

/// Adds the object that is set, and the one that the value names.
#[tactic(auto, using(crate::proofs::collecting::Added::set_added))]
fn add_set(set: &Set, into: &mut Vec<u64>) -> Result<(), NoMemory>
    ensures { OnOk result (AddsNamed (set_names set.now) into.old.items into.new.items) }
{
    add_with_values(set.object, &[set.value], into)
}

/// Adds the objects that sets name.
pub(crate) fn add_sets(sets: &[Set], into: &mut Vec<u64>) -> Result<(), NoMemory>
    ensures { OnOk result (AddsNamed (λ o. list_any (λ set. set_names set o) sets.now) into.old.items into.new.items) }
{
    for set in sets {
        add_set(set, into)?;
    }
    Ok(())
}

/// Adds the object whose monitor the ending is of.
fn add_ending(ending: &Ending, into: &mut Vec<u64>) -> Result<(), NoMemory>
    ensures { OnOk result (AddsNamed (ending_names ending.now) into.old.items into.new.items) }
{
    match ending {
        Ending::Exit(lock) => add_monitor(*lock, into),
        Ending::Wait(lock) => add_monitor(*lock, into),
        Ending::Timeout(lock) => add_monitor(*lock, into),
        Ending::End(_) => Ok(()),
    }
}

/// Adds the objects that a record names.
#[tactic(auto, using(crate::proofs::collecting::Added::record_added))]
pub(crate) fn add_record(txn: &Txn, into: &mut Vec<u64>) -> Result<(), NoMemory>
    ensures { OnOk result (AddsNamed (record_names txn.now) into.old.items into.new.items) }
{
    add_bodies(txn.news.as_slice(), into)?;
    add_sets(txn.sets.as_slice(), into)?;
    add_values(txn.outs.as_slice(), into)?;
    add_notes(txn.notes.as_slice(), into)?;
    add_ending(&txn.ending, into)
}
