//! The table of a client's objects: `new 2`, `put 5 7`, `put 5 7 1`, `set 5 0 9`, `set 5 0 9 1`, `get 5`, `asked 5`,
//! `ask 5 1.1`, `opened 5 1.1`, `used 5`, `flush 5`, `acted 1.1`, `closed 1.1`, `acked 1`, `victim`, `edges`,
//! `random 7 500`.
//!
//! An object has one field, a long or, as `put 5 r7`, a reference. A number behind a `put` or a `set` is that of the own
//! record that changed it.

use crate::plain_table::compared_tables;
use case_words::{count, debugged, first_of, number, shown, single, thread, value, with_edges};
use dso_base::{Body, ClassId, NoMemory, Set, ThreadId, Value};
use dso_table::Table;
use std::alloc::Global;

/// The answer to the call.
pub fn told(alloc: Global, table: &mut Option<Table>, text: &str) -> Result<String, NoMemory> {
    let (word, rest) = first_of(text);
    if word == "random" {
        return compared_tables(alloc, rest);
    }
    if word == "new" {
        return made(alloc, table, rest);
    }
    match table {
        Some(table) => called(alloc, table, word, rest),
        None => shown(alloc, "no table"),
    }
}

/// An empty table of a client that is to keep so many resident objects.
fn made(alloc: Global, table: &mut Option<Table>, text: &str) -> Result<String, NoMemory> {
    match count(text) {
        Some(resident) => {
            *table = Some(Table::new(alloc, resident)?);
            shown(alloc, "empty")
        }
        None => shown(alloc, "no such number"),
    }
}

/// The answer to a call on a table.
fn called(alloc: Global, table: &mut Table, word: &str, text: &str) -> Result<String, NoMemory> {
    let (first, rest) = first_of(text);
    if word == "victim" {
        return debugged(alloc, table.victim());
    }
    if word == "edges" {
        let edges = table.edges(alloc)?;
        return with_edges(alloc, String::new(alloc), edges.as_slice());
    }
    if let Some(thread) = thread(first) {
        return ended(alloc, table, word, thread);
    }
    match number(first) {
        Some(seq) if word == "acked" => {
            table.acked(seq);
            shown(alloc, "acknowledged")
        }
        Some(object) => of_object(alloc, table, word, object, rest),
        None => shown(alloc, "no such call"),
    }
}

/// The answer to the end of what a thread wants, or puts to.
fn ended(
    alloc: Global,
    table: &mut Table,
    word: &str,
    thread: ThreadId,
) -> Result<String, NoMemory> {
    match word {
        "acted" => {
            table.acted(thread);
            shown(alloc, "acted")
        }
        "closed" => {
            table.closed(thread);
            shown(alloc, "closed")
        }
        _ => shown(alloc, "no such call"),
    }
}

/// The answer to a call on an object.
fn of_object(
    alloc: Global,
    table: &mut Table,
    word: &str,
    object: u64,
    text: &str,
) -> Result<String, NoMemory> {
    match word {
        "get" => debugged(alloc, first_value(table, object)),
        "asked" => shown(alloc, table.is_asked(object)),
        "flush" => debugged(alloc, table.flush(object)),
        "used" => {
            table.used(object)?;
            shown(alloc, "used")
        }
        "put" => put(alloc, table, object, text),
        "set" => set(alloc, table, object, text),
        _ => of_thread(alloc, table, word, object, text),
    }
}

/// The value of the copy's field, None where there is no copy.
pub fn first_value(table: &Table, object: u64) -> Option<Value> {
    match table.get(object) {
        Some(body) => body.values.get(0).copied(),
        None => None,
    }
}

/// Puts an object with this value in its field.
pub fn put_value(
    alloc: Global,
    table: &mut Table,
    object: u64,
    value: Value,
    changed: Option<u64>,
) -> Result<(), NoMemory> {
    let values = single(alloc, value)?;
    let body = Body {
        object,
        class: ClassId::Plain(0),
        values,
    };
    table.put_object(&body, changed)
}

/// The answer to a copy that comes.
fn put(alloc: Global, table: &mut Table, object: u64, text: &str) -> Result<String, NoMemory> {
    let (first, second) = first_of(text);
    match value(first) {
        Some(value) => {
            put_value(alloc, table, object, value, number(second))?;
            shown(alloc, "put")
        }
        None => shown(alloc, "no such value"),
    }
}

/// The answer to a write.
fn set(alloc: Global, table: &mut Table, object: u64, text: &str) -> Result<String, NoMemory> {
    let (first, rest) = first_of(text);
    let (second, third) = first_of(rest);
    let (Some(field), Some(value)) = (count(first), value(second)) else {
        return shown(alloc, "no such field");
    };
    let change = Set {
        object,
        field,
        value,
    };
    shown(alloc, table.set(alloc, change, number(third)))
}

/// The answer to a call on an object and a thread.
fn of_thread(
    alloc: Global,
    table: &mut Table,
    word: &str,
    object: u64,
    text: &str,
) -> Result<String, NoMemory> {
    match (word, thread(text)) {
        ("ask", Some(thread)) => {
            let was_absent = table.ask(alloc, object, thread)?;
            shown(alloc, was_absent)
        }
        ("opened", Some(thread)) => {
            table.opened(alloc, object, thread)?;
            shown(alloc, "opened")
        }
        _ => shown(alloc, "no such call"),
    }
}
