//! Calls on the graph that are drawn from a number, each compared with what plain lists of values and holders tell.

use crate::plain_calls::{Comparison, drawn_client, run};
use crate::store_records::{publishing, setting};
use crate::store_rows::opened;
use dso_base::{NoMemory, Set, Value};
use dso_store::Store;
use std::alloc::Global;

/// An array with the values of its two elements.
#[derive(Clone, Copy)]
struct Row {
    object: u64,
    first: Value,
    second: Value,
}

/// All arrays, who holds which, and the records applied, the latest last.
#[derive(Drop)]
struct Lists {
    objects: Vec<Row>,
    holders: Vec<(u8, u64)>,
    records: Vec<(u8, u64)>,
}

/// The graph, and the lists.
#[derive(Drop)]
struct StoreComparison {
    store: Store,
    lists: Lists,
}

/// Makes so many calls, drawn from a number, and tells whether the graph answered what the lists tell after each.
pub fn compared_stores(alloc: Global, first: &str, second: &str) -> Result<String, NoMemory> {
    let mut comparison = StoreComparison {
        store: opened(alloc)?,
        lists: Lists {
            objects: Vec::new(alloc),
            holders: Vec::new(alloc),
            records: Vec::new(alloc),
        },
    };
    run(alloc, &mut comparison, first, second)
}

impl Comparison for StoreComparison {
    fn agrees(&mut self, alloc: Global, drawn: u64) -> Result<bool, NoMemory> {
        call(alloc, &mut self.store, &mut self.lists, drawn)?;
        let client = drawn_client(drawn / 8192);
        let object = 1 + drawn / 65536 % 16;
        if !reads_agree(&self.store, &self.lists, client, object) {
            return Ok(false);
        }
        others_agree(alloc, &self.store, &self.lists, drawn)
    }
}

/// A set of one of sixteen arrays, be it there or not.
fn drawn_set(drawn: u64) -> Set {
    Set {
        object: 1 + drawn / 8 % 16,
        field: if drawn / 128 % 2 == 0 { 0 } else { 1 },
        value: Value::Long((drawn % 1000) as i64),
    }
}

/// Makes the call that is drawn, in the graph and in the lists.
fn call(alloc: Global, store: &mut Store, lists: &mut Lists, drawn: u64) -> Result<(), NoMemory> {
    let client = drawn_client(drawn);
    let set = drawn_set(drawn);
    let object = set.object;
    match drawn / 256 % 20 {
        0 => {
            lists.holders.retain(|held| held.0 != client);
            store.lose(client);
            Ok(())
        }
        1..5 => {
            lists.holders.retain(|held| *held != (client, object));
            store.unhold(client, object);
            Ok(())
        }
        5..10 => {
            lists.holders.push((client, object))?;
            store.hold(alloc, client, object)
        }
        10..13 => publish(alloc, store, lists, client, object),
        _ => write(alloc, store, lists, client, set),
    }
}

/// Publishes the object, if it isn't there.
fn publish(
    alloc: Global,
    store: &mut Store,
    lists: &mut Lists,
    client: u8,
    object: u64,
) -> Result<(), NoMemory> {
    if is_there(lists.objects.as_slice(), object) {
        return Ok(());
    }
    let seq = next_number(lists.records.as_slice(), client);
    lists.objects.push(Row {
        object,
        first: Value::Long(0),
        second: Value::Long(0),
    })?;
    lists.holders.push((client, object))?;
    lists.records.push((client, seq))?;
    let txn = publishing(alloc, client, seq, object)?;
    store.apply(alloc, client, &txn)
}

/// Whether the object has a row.
fn is_there(rows: &[Row], object: u64) -> bool {
    rows.iter().any(|row| row.object == object)
}

/// The number of the client's last record, 0 before its first.
fn last_number(records: &[(u8, u64)], client: u8) -> u64 {
    records
        .iter()
        .rev()
        .find(|record| record.0 == client)
        .map_or(0, |record| record.1)
}

/// The number of its next record.
fn next_number(records: &[(u8, u64)], client: u8) -> u64 {
    last_number(records, client).saturating_add(1)
}

/// Writes the value of the set, if its object is there.
fn write(
    alloc: Global,
    store: &mut Store,
    lists: &mut Lists,
    client: u8,
    set: Set,
) -> Result<(), NoMemory> {
    if !is_there(lists.objects.as_slice(), set.object) {
        return Ok(());
    }
    let seq = next_number(lists.records.as_slice(), client);
    for row in lists.objects.iter_mut() {
        if row.object == set.object && set.field == 0 {
            row.first = set.value;
        }
        if row.object == set.object && set.field == 1 {
            row.second = set.value;
        }
    }
    lists.records.push((client, seq))?;
    let txn = setting(alloc, client, seq, set)?;
    store.apply(alloc, client, &txn)
}

/// Whether the graph tells of the client and the object what the lists tell.
fn reads_agree(store: &Store, lists: &Lists, client: u8, object: u64) -> bool {
    let held = lists.holders.iter().any(|held| *held == (client, object));
    let last = last_number(lists.records.as_slice(), client);
    store.holds(client, object) == held
        && store.last(client) == last
        && body_agrees(store, lists.objects.as_slice(), object)
}

/// Whether the object has the values of its row, or neither is there.
fn body_agrees(store: &Store, rows: &[Row], object: u64) -> bool {
    let row = rows.iter().find(|row| row.object == object).copied();
    match (store.object(object), row) {
        (Some(body), Some(row)) => {
            body.object == object && body.values.as_slice() == [row.first, row.second].as_slice()
        }
        (None, None) => true,
        _ => false,
    }
}

/// Whether the changes of a record of the set are for the other holders of its object, by rising client.
fn others_agree(alloc: Global, store: &Store, lists: &Lists, drawn: u64) -> Result<bool, NoMemory> {
    let client = drawn_client(drawn);
    let set = drawn_set(drawn);
    let txn = setting(alloc, client, 1, set)?;
    let others = store.others_holding(alloc, client, &txn)?;
    Ok(are_for_holders(others.as_slice(), lists.holders.as_slice(), client, set))
}

/// Whether the changes are the set for each holder of its object but the client, by rising client.
fn are_for_holders(
    changes: &[(u8, Vec<Set>)],
    holders: &[(u8, u64)],
    client: u8,
    set: Set,
) -> bool {
    let mut at = 0;
    for number in 0..5 {
        let other = drawn_client(number);
        if other != client && holders.iter().any(|held| *held == (other, set.object)) {
            if !is_change_for(changes.get(at), other, set) {
                return false;
            }
            at = at.saturating_add(1);
        }
    }
    at == changes.len()
}

/// Whether the change is the set, for the client.
fn is_change_for(change: Option<&(u8, Vec<Set>)>, client: u8, set: Set) -> bool {
    match change {
        Some(change) => change.0 == client && change.1.as_slice() == [set].as_slice(),
        None => false,
    }
}
