//! Calls on a table that are drawn from a number, each compared with what a plain list of objects tells.
ghost use Rattle.std.specs.Prelude.{◌<◌};

use crate::plain_calls::{Comparison, run};
use crate::table_rows::{first_value, put_value};
use case_words::first_of;
use dso_base::{NoMemory, Set, ThreadId, Value};
use dso_table::{NotFlushable, Table};
use std::alloc::Global;

/// How many objects are to be kept.
const LIMIT: u32 = 2;

/// What is known of one of six objects: whether it was asked for and isn't resident yet, the value of its copy's field,
/// the number of the last record that changed it and isn't acknowledged, and of each of two threads whether its open
/// block puts to the object and whether it wants it.
#[derive(Clone, Copy)]
struct Row {
    is_asked: bool,
    value: Option<i64>,
    changed: Option<u64>,
    opened: [bool; 2],
    wanted: [bool; 2],
}

/// An absent object.
const ABSENT: Row = Row {
    is_asked: false,
    value: None,
    changed: None,
    opened: [false; 2],
    wanted: [false; 2],
};

/// The plain list: the objects of ids 1 to 6, the two of them that were used last, and how many records there are.
#[derive(Drop)]
struct Plain {
    rows: [Row; 6],
    last: Option<usize>,
    before_last: Option<usize>,
    records: u64,
}

/// The table, and the plain list.
#[derive(Drop)]
struct TableComparison {
    table: Table,
    plain: Plain,
}

/// Makes so many calls, drawn from a number, and tells whether each answered what the list tells.
pub fn compared_tables(alloc: Global, text: &str) -> Result<String, NoMemory> {
    let (first, second) = first_of(text);
    let mut comparison = TableComparison {
        table: Table::new(alloc, LIMIT)?,
        plain: Plain {
            rows: [ABSENT; 6],
            last: None,
            before_last: None,
            records: 0,
        },
    };
    run(alloc, &mut comparison, first, second)
}

impl Comparison for TableComparison {
    /// Whether the call agrees, and what is dropped next after it.
    fn agrees(&mut self, alloc: Global, drawn: u64) -> Result<bool, NoMemory> {
        let is_same = call_agrees(alloc, &mut self.table, &mut self.plain, drawn)?;
        Ok(is_same && self.table.victim() == plain_victim(&self.plain))
    }
}

/// The id of a row's object.
fn id_of(at: usize) -> u64
    requires { at < 6 }
{
    at as u64 + 1
}

/// One of the two threads.
fn thread_of(index: usize) -> ThreadId {
    ThreadId {
        client: 1,
        index: if index == 0 { 1 } else { 2 },
    }
}

/// Whether the call that is drawn answers what the list tells.
fn call_agrees(
    alloc: Global,
    table: &mut Table,
    plain: &mut Plain,
    drawn: u64,
) -> Result<bool, NoMemory> {
    let at = (drawn % 6) as usize;
    let index = (drawn / 6 % 2) as usize;
    let thread = thread_of(index);
    match drawn / 12 % 16 {
        0..3 => asks(alloc, table, plain, at, index),
        3..6 => puts(alloc, table, plain, at, drawn),
        6..8 => Ok(sets(alloc, table, plain, at, drawn)),
        8..11 => {
            if plain.rows[at].value.is_some() {
                table.used(id_of(at))?;
                plain_used(plain, at);
            }
            Ok(true)
        }
        11 => {
            if plain.rows[at].value.is_some() {
                table.opened(alloc, id_of(at), thread)?;
                plain.rows[at].opened[index] = true;
            }
            Ok(true)
        }
        12 => {
            table.closed(thread);
            plain_closed(plain, index);
            Ok(true)
        }
        13 => {
            table.acted(thread);
            plain_acted(plain, index);
            Ok(true)
        }
        14 => {
            let seq = plain.records / 2;
            table.acked(seq);
            plain_acked(plain, seq);
            Ok(true)
        }
        _ => Ok(table.flush(id_of(at)) == plain_flush(plain, at)),
    }
}

/// Whether asking for an object agrees, where it isn't resident.
fn asks(
    alloc: Global,
    table: &mut Table,
    plain: &mut Plain,
    at: usize,
    index: usize,
) -> Result<bool, NoMemory>
    requires object { at < 6 }
    requires thread { index < 2 }
{
    let row = &mut plain.rows[at];
    if row.value.is_some() {
        return Ok(true);
    }
    let was_absent = !row.is_asked;
    if was_absent {
        row.is_asked = true;
        row.wanted[index] = true;
    }
    Ok(table.ask(alloc, id_of(at), thread_of(index))? == was_absent)
}

/// The number of the own record that changes an object: a new one, or none.
fn new_record(plain: &mut Plain, drawn: u64) -> Option<u64> {
    if drawn / 192 % 2 == 0 {
        return None;
    }
    plain.records = plain.records.wrapping_add(1);
    Some(plain.records)
}

/// The value that is drawn.
fn drawn_value(drawn: u64) -> i64 {
    (drawn / 384 % 100) as i64
}

/// Whether the copy that came is there.
fn puts(
    alloc: Global,
    table: &mut Table,
    plain: &mut Plain,
    at: usize,
    drawn: u64,
) -> Result<bool, NoMemory>
    requires { at < 6 }
{
    let changed = new_record(plain, drawn);
    let value = drawn_value(drawn);
    put_value(alloc, table, id_of(at), Value::Long(value), changed)?;
    let row = &mut plain.rows[at];
    row.is_asked = false;
    row.value = Some(value);
    row.changed = changed.or(row.changed);
    Ok(first_value(table, id_of(at)) == Some(Value::Long(value)))
}

/// Whether a write of the field agrees, and one of a field that there is not.
fn sets(alloc: Global, table: &mut Table, plain: &mut Plain, at: usize, drawn: u64) -> bool
    requires { at < 6 }
{
    let changed = new_record(plain, drawn);
    let value = drawn_value(drawn);
    let row = &mut plain.rows[at];
    let is_there = row.value.is_some();
    if is_there {
        row.value = Some(value);
        row.changed = changed.or(row.changed);
    }
    let change = Set {
        object: id_of(at),
        field: 0,
        value: Value::Long(value),
    };
    let past = Set { field: 1, ..change };
    table.set(alloc, change, changed) == is_there && !table.set(alloc, past, changed)
}

/// The object is the first of those used last.
fn plain_used(plain: &mut Plain, at: usize) {
    if plain.last != Some(at) {
        plain.before_last = plain.last;
        plain.last = Some(at);
    }
}

/// The thread's block puts to no object.
fn plain_closed(plain: &mut Plain, index: usize)
    requires { index < 2 }
{
    for at in 0..6 {
        plain.rows[at].opened[index] = false;
    }
}

/// The thread wants no object.
fn plain_acted(plain: &mut Plain, index: usize)
    requires { index < 2 }
{
    for at in 0..6 {
        plain.rows[at].wanted[index] = false;
    }
}

/// The records up to this one changed no object.
fn plain_acked(plain: &mut Plain, seq: u64) {
    for at in 0..6 {
        let changed = plain.rows[at].changed;
        plain.rows[at].changed = changed.filter(|number| seq < *number);
    }
}

/// Why an object may not be flushed.
fn reason(row: &Row) -> Result<(), NotFlushable> {
    if row.value.is_none() {
        return Err(NotFlushable::Absent);
    }
    if let Some(seq) = row.changed {
        return Err(NotFlushable::Changed(seq));
    }
    for index in 0..2 {
        if row.opened[index] {
            return Err(NotFlushable::InBlock(thread_of(index)));
        }
    }
    for index in 0..2 {
        if row.wanted[index] {
            return Err(NotFlushable::Wanted(thread_of(index)));
        }
    }
    Ok(())
}

/// Whether an object may be flushed, and the list after it was.
fn plain_flush(plain: &mut Plain, at: usize) -> Result<(), NotFlushable>
    requires { at < 6 }
{
    reason(&plain.rows[at])?;
    plain.rows[at] = ABSENT;
    if plain.last == Some(at) {
        plain.last = plain.before_last;
        plain.before_last = None;
    }
    if plain.before_last == Some(at) {
        plain.before_last = None;
    }
    Ok(())
}

/// Which object is flushed next.
fn plain_victim(plain: &Plain) -> Option<u64> {
    let mut residents = 0u32;
    for at in 0..6 {
        if plain.rows[at].value.is_some() {
            residents = residents.wrapping_add(1);
        }
    }
    if residents <= LIMIT {
        return None;
    }
    for at in 0..6 {
        let is_kept = plain.last == Some(at) || plain.before_last == Some(at);
        if !is_kept && reason(&plain.rows[at]).is_ok() {
            return Some(id_of(at));
        }
    }
    flushable(plain, plain.before_last).or(flushable(plain, plain.last))
}

/// The id of an object used last, where it may be flushed.
fn flushable(plain: &Plain, used: Option<usize>) -> Option<u64> {
    match used {
        Some(at) if at < 6 && reason(&plain.rows[at]).is_ok() => Some(id_of(at)),
        _ => None,
    }
}
