//! Records, as words behind their number and thread: `+5:c0:1,null` an object published, `+5:[long:257*1` an array of 257
//! ones, `5.0=7` a set, `!7` a value printed, `?m5:there`, `?m5:all` or `?m5:1.2` a notification, `exit:m5`, `wait:m5`,
//! `timeout:m5` or `end` the ending.

use case_words::{bare_record, class, count, ending, first_of, note, number, thread, value};
use dso_base::{Body, Ending, Items, NoMemory, Note, Set, Txn, Value};
use std::alloc::Global;

/// The record of the words, None where they tell none.
pub fn record(alloc: Global, text: &str) -> Result<Option<Txn>, NoMemory> {
    let (seq, rest) = first_of(text);
    let (of, rest) = first_of(rest);
    let (Some(seq), Some(thread)) = (number(seq), thread(of)) else {
        return Ok(None);
    };
    let mut txn = bare_record(alloc, seq, thread, Ending::End(None));
    for word in rest.split(' ') {
        if !add(alloc, &mut txn, word)? {
            return Ok(None);
        }
    }
    Ok(Some(txn))
}

/// Adds the part of the word, false where it tells none.
fn add(alloc: Global, txn: &mut Txn, word: &str) -> Result<bool, NoMemory> {
    if let Some(body) = word.strip_prefix('+') {
        return add_body(alloc, txn, body);
    }
    if let Some(out) = word.strip_prefix('!') {
        return add_out(txn, value(out));
    }
    if let Some(note) = word.strip_prefix('?') {
        return add_note(txn, noted(note));
    }
    match word.split_once('=') {
        Some((field, new)) => add_set(txn, set_of(field, new)),
        None => Ok(end(txn, ended(word))),
    }
}

/// Adds an object published.
fn add_body(alloc: Global, txn: &mut Txn, text: &str) -> Result<bool, NoMemory> {
    let Some((object, rest)) = text.split_once(':') else {
        return Ok(false);
    };
    let Some((kind, list)) = rest.split_once(':') else {
        return Ok(false);
    };
    let (Some(object), Some(class)) = (number(object), class(kind)) else {
        return Ok(false);
    };
    txn.news.push(Body {
        object,
        class,
        values: values(alloc, list)?,
    })?;
    Ok(true)
}

/// The values of the words; a number and `*` stand before one that comes so often.
fn values(alloc: Global, text: &str) -> Result<Items<Value>, NoMemory> {
    let mut values = Items::new(alloc);
    for word in text.split(',') {
        let (often, word) = word.split_once('*').unwrap_or(("1", word));
        add_often(&mut values, count(often), value(word))?;
    }
    Ok(values)
}

/// Adds the value so often.
fn add_often(
    values: &mut Items<Value>,
    often: Option<u32>,
    value: Option<Value>,
) -> Result<(), NoMemory> {
    let (Some(often), Some(value)) = (often, value) else {
        return Ok(());
    };
    for _ in 0..often {
        values.push(value)?;
    }
    Ok(())
}

/// The set of a field.
fn set_of(field: &str, new: &str) -> Option<Set> {
    let (object, field) = field.split_once('.')?;
    Some(Set {
        object: number(object)?,
        field: count(field)?,
        value: value(new)?,
    })
}

/// Adds a set.
fn add_set(txn: &mut Txn, set: Option<Set>) -> Result<bool, NoMemory> {
    let Some(set) = set else {
        return Ok(false);
    };
    txn.sets.push(set)?;
    Ok(true)
}

/// Adds a value printed.
fn add_out(txn: &mut Txn, out: Option<Value>) -> Result<bool, NoMemory> {
    let Some(out) = out else {
        return Ok(false);
    };
    txn.outs.push(out)?;
    Ok(true)
}

/// The notification of the words.
fn noted(text: &str) -> Option<Note> {
    let (name, whom) = text.split_once(':')?;
    note(name, whom)
}

/// Adds a notification.
fn add_note(txn: &mut Txn, note: Option<Note>) -> Result<bool, NoMemory> {
    let Some(note) = note else {
        return Ok(false);
    };
    txn.notes.push(note)?;
    Ok(true)
}

/// The ending of the word.
fn ended(word: &str) -> Option<Ending> {
    let (how, name) = word.split_once(':').unwrap_or((word, ""));
    ending(how, name)
}

/// Ends the record so.
fn end(txn: &mut Txn, ending: Option<Ending>) -> bool {
    match ending {
        Some(ending) => {
            txn.ending = ending;
            true
        }
        None => false,
    }
}
