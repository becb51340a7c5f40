//! The server's graph, of two roots: `publish 1 7 5` (client 1's record 7 publishes object 5, an array of two longs),
//! `set 1 8 5 0 9` (its record 8 sets element 0 of object 5 to 9), `others 1 8 5 0 9` (who is told of that record),
//! `hold 1 5`, `unhold 1 5`, `lose 1`, `holds 1 5`, `last 1`, `object 5`, `random 7 500`; `edges`, `objects`, `sweep 5 6` (what
//! a collection reads, and what it drops).

use crate::plain_store::compared_stores;
use crate::store_records::{publishing, setting};
use crate::store_sweeps::swept;
use case_words::{debugged, first_of, number, set, shown, small};
use dso_base::{Items, NoMemory, Shape, Txn};
use dso_store::Store;
use std::alloc::Global;

/// A graph of two roots.
pub fn opened(alloc: Global) -> Result<Store, NoMemory> {
    let shape = Shape {
        classes: Items::new(alloc),
        roots: 2,
        names: 2,
        texts: 0,
    };
    Store::new(alloc, &shape)
}

/// The answer to the call.
pub fn told(alloc: Global, store: &mut Store, text: &str) -> Result<String, NoMemory> {
    let (word, rest) = first_of(text);
    let (first, others) = first_of(rest);
    match word {
        "random" => compared_stores(alloc, first, others),
        "object" => body_of(alloc, store, first),
        "edges" => debugged(alloc, store.edges(alloc)?),
        "objects" => debugged(alloc, store.objects(alloc)?),
        "sweep" => swept(alloc, store, rest),
        _ => match small(first) {
            Some(client) => of_client(alloc, store, word, client, others),
            None => shown(alloc, "no such client"),
        },
    }
}

/// The body of the object.
fn body_of(alloc: Global, store: &Store, text: &str) -> Result<String, NoMemory> {
    match number(text) {
        Some(object) => debugged(alloc, store.object(object)),
        None => shown(alloc, "no such object"),
    }
}

/// The answer to a call for a client.
fn of_client(
    alloc: Global,
    store: &mut Store,
    word: &str,
    client: u8,
    text: &str,
) -> Result<String, NoMemory> {
    match word {
        "last" => shown(alloc, store.last(client)),
        "lose" => {
            store.lose(client);
            shown(alloc, "lost")
        }
        _ => of_object(alloc, store, word, client, text),
    }
}

/// The answer to a call on an object, or on a record, for a client.
fn of_object(
    alloc: Global,
    store: &mut Store,
    word: &str,
    client: u8,
    text: &str,
) -> Result<String, NoMemory> {
    let (first, rest) = first_of(text);
    match (word, number(first)) {
        ("holds", Some(object)) => shown(alloc, store.holds(client, object)),
        ("hold", Some(object)) => {
            store.hold(alloc, client, object)?;
            shown(alloc, "held")
        }
        ("unhold", Some(object)) => {
            store.unhold(client, object);
            shown(alloc, "dropped")
        }
        (_, Some(seq)) => of_record(alloc, store, word, RecordName { client, seq }, rest),
        _ => shown(alloc, "no such number"),
    }
}

/// A record: whose it is, and its number.
#[derive(Clone, Copy)]
struct RecordName {
    client: u8,
    seq: u64,
}

/// The answer to a call on a record.
fn of_record(
    alloc: Global,
    store: &mut Store,
    word: &str,
    record: RecordName,
    text: &str,
) -> Result<String, NoMemory> {
    let RecordName { client, seq } = record;
    let (first, rest) = first_of(text);
    match (word, number(first), set(text)) {
        ("publish", Some(object), _) if rest.is_empty() => {
            let txn = publishing(alloc, client, seq, object)?;
            applied(alloc, store, client, txn)
        }
        ("set", _, Some(set)) => applied(alloc, store, client, setting(alloc, client, seq, set)?),
        ("others", _, Some(set)) => others(alloc, store, client, setting(alloc, client, seq, set)?),
        _ => shown(alloc, "no such call"),
    }
}

/// The client's record is applied.
fn applied(alloc: Global, store: &mut Store, client: u8, txn: Txn) -> Result<String, NoMemory> {
    store.apply(alloc, client, &txn)?;
    shown(alloc, "applied")
}

/// Who is told of the client's record.
fn others(alloc: Global, store: &Store, client: u8, txn: Txn) -> Result<String, NoMemory> {
    debugged(alloc, store.others_holding(alloc, client, &txn)?)
}
