//! What a journal tells.

use crate::counts::is_small;
use case_words::{count, debugged, first_of, lock, number, shown, small};
use dso_base::{Journal, NoMemory, Same};
use dso_law::{copy_of, leased};
use std::alloc::Global;

/// The answer to a question about the journal.
pub fn told(alloc: Global, journal: &Journal, text: &str) -> Result<String, NoMemory> {
    let (word, rest) = first_of(text);
    match word {
        "weight" => of_weight(alloc, journal),
        "clone" => is_same_as_clone(alloc, journal),
        "same-inputs" => are_inputs_same(alloc, journal),
        "leased" => of_lease(alloc, journal, rest),
        "copy" => of_copy(alloc, journal, rest),
        _ => shown(alloc, "no such question"),
    }
}

/// The weight of a journal whose entries send nothing.
#[tactic(auto, using(crate::proofs::SmallJournals::weight_fits))]
fn of_weight(alloc: Global, journal: &Journal) -> Result<String, NoMemory> {
    if is_small(journal.entries.as_slice()) {
        shown(alloc, journal.weight())
    } else {
        shown(alloc, "too much to weigh")
    }
}

/// Whether a clone of the journal is the same.
fn is_same_as_clone(alloc: Global, journal: &Journal) -> Result<String, NoMemory> {
    let copy = journal.clone()?;
    shown(alloc, journal.same(&copy))
}

/// Whether the inputs of the first two entries are the same.
fn are_inputs_same(alloc: Global, journal: &Journal) -> Result<String, NoMemory> {
    match (journal.entries.get(0), journal.entries.get(1)) {
        (Some(first), Some(second)) => shown(alloc, first.input.same(&second.input)),
        _ => shown(alloc, "no such entries"),
    }
}

/// The lease that a client has of a lock: `1 m5`.
fn of_lease(alloc: Global, journal: &Journal, rest: &str) -> Result<String, NoMemory> {
    let (first, second) = first_of(rest);
    match (small(first), lock(second)) {
        (Some(client), Some(lock)) => debugged(alloc, leased(journal, client, lock)),
        _ => shown(alloc, "no such lease"),
    }
}

/// The copy that a client has of a field: `1 7 0`.
fn of_copy(alloc: Global, journal: &Journal, rest: &str) -> Result<String, NoMemory> {
    let (first, place) = first_of(rest);
    let (second, third) = first_of(place);
    match (small(first), number(second), count(third)) {
        (Some(client), Some(object), Some(field)) => {
            debugged(alloc, copy_of(journal, client, object, field))
        }
        _ => shown(alloc, "no such copy"),
    }
}
