//! How bodies and records are written: `#1 Plain(0) Long(1) Ref(2)`, and
//! `record 3 of 1.1 | #1 Plain(0) Long(1) Ref(2) | 0.0=Ref(1) | Long(7) | Mon(1) All | Exit(Mon(1))`: the news, the
//! sets, the printed values, the notifications and the ending.

use case_words::{shown, with_sets, with_values};
use dso_base::{Body, NoMemory, Note, Set, Txn};
use std::alloc::Global;

/// The object, or that there is none.
pub fn body_text(alloc: Global, body: Option<&Body>) -> Result<String, NoMemory> {
    match body {
        Some(body) => with_body(alloc, String::new(alloc), body),
        None => shown(alloc, "none"),
    }
}

/// The text with the object behind it.
fn with_body(alloc: Global, text: String, body: &Body) -> Result<String, NoMemory> {
    let (object, class) = (body.object, body.class);
    let text = format!(in alloc; "{text} #{object} {class:?}")?;
    with_values(alloc, text, body.values.as_slice())
}

/// The text with the objects behind it.
fn with_bodies(alloc: Global, text: String, bodies: &[Body]) -> Result<String, NoMemory> {
    let mut text = text;
    for body in bodies {
        text = with_body(alloc, text, body)?;
    }
    Ok(text)
}

/// The text with the notifications behind it.
fn with_notes(alloc: Global, text: String, notes: &[Note]) -> Result<String, NoMemory> {
    let mut text = text;
    for note in notes {
        let Note { lock, choice } = *note;
        text = format!(in alloc; "{text} {lock:?} {choice:?}")?;
    }
    Ok(text)
}

/// The sets.
pub fn sets_text(alloc: Global, sets: &[Set]) -> Result<String, NoMemory> {
    with_sets(alloc, String::new(alloc), sets)
}

/// The text with a bar behind it.
fn barred(alloc: Global, text: String) -> Result<String, NoMemory> {
    let text = format!(in alloc; "{text} |")?;
    Ok(text)
}

/// The record.
pub fn record_text(alloc: Global, txn: &Txn) -> Result<String, NoMemory> {
    let (seq, thread, ending) = (txn.seq, txn.thread, txn.ending);
    let text = format!(in alloc; "record {seq} of {}.{} |", thread.client, thread.index)?;
    let text = with_changes(alloc, text, txn)?;
    let text = with_acts(alloc, text, txn)?;
    let text = format!(in alloc; "{text} {ending:?}")?;
    Ok(text)
}

/// The text with the news and the sets behind it, and a bar behind each.
fn with_changes(alloc: Global, text: String, txn: &Txn) -> Result<String, NoMemory> {
    let text = barred(alloc, with_bodies(alloc, text, txn.news.as_slice())?)?;
    barred(alloc, with_sets(alloc, text, txn.sets.as_slice())?)
}

/// The text with the printed values and the notifications behind it, and a bar behind each.
fn with_acts(alloc: Global, text: String, txn: &Txn) -> Result<String, NoMemory> {
    let text = barred(alloc, with_values(alloc, text, txn.outs.as_slice())?)?;
    barred(alloc, with_notes(alloc, text, txn.notes.as_slice())?)
}
