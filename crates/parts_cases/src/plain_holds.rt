//! Calls on holds that are drawn from a number, each compared with what a plain list of holds tells.

use crate::plain_calls::{Comparison, drawn_level, drawn_lock, run};
use case_words::first_of;
use dso_base::{Level, LockName, NoMemory, ThreadId};
use dso_hold::{Enter, Hold};
use std::alloc::Global;

/// A hold, as the list has it.
#[derive(Clone, Copy)]
struct Row {
    lock: LockName,
    thread: ThreadId,
    level: Level,
    count: u32,
}

/// The holds, and the plain list of them.
#[derive(Drop)]
struct HoldComparison {
    holds: Hold,
    rows: Vec<Row>,
}

/// Makes so many calls, drawn from a number, and tells whether each answered what the list tells.
pub fn compared_holds(alloc: Global, text: &str) -> Result<String, NoMemory> {
    let (first, second) = first_of(text);
    let mut comparison = HoldComparison {
        holds: Hold::new(alloc),
        rows: Vec::new(alloc),
    };
    run(alloc, &mut comparison, first, second)
}

impl Comparison for HoldComparison {
    /// Of ten calls six enter and three leave.
    fn agrees(&mut self, alloc: Global, drawn: u64) -> Result<bool, NoMemory> {
        let lock = drawn_lock(drawn);
        let thread = drawn_thread(drawn / 4);
        let level = drawn_level(drawn / 32 % 2 != 0);
        match drawn / 64 % 10 {
            0..6 => enters(alloc, self, lock, thread, level),
            6..9 => {
                let left = plain_exit(&mut self.rows, lock, thread);
                Ok(self.holds.exit(thread, lock, 1) == left)
            }
            _ => Ok(reads_agree(&self.holds, self.rows.as_slice(), lock, thread)),
        }
    }
}

/// One of eight threads.
fn drawn_thread(drawn: u64) -> ThreadId {
    ThreadId {
        client: if drawn % 2 == 0 { 1 } else { 2 },
        index: match drawn / 2 % 4 {
            0 => 1,
            1 => 2,
            2 => 3,
            _ => 10,
        },
    }
}

/// Whether the entry is answered as the list tells.
fn enters(
    alloc: Global,
    comparison: &mut HoldComparison,
    lock: LockName,
    thread: ThreadId,
    level: Level,
) -> Result<bool, NoMemory> {
    if comparison.holds.count(thread, lock) > 1000 {
        return Ok(true);
    }
    let answer = comparison.holds.enter(alloc, thread, lock, level, 1)?;
    Ok(answer == plain_enter(&mut comparison.rows, lock, thread, level)?)
}

/// What the list answers to an entry, and the list after it.
fn plain_enter(
    rows: &mut Vec<Row>,
    lock: LockName,
    thread: ThreadId,
    level: Level,
) -> Result<Enter, NoMemory> {
    for row in rows.iter_mut() {
        if row.lock == lock && row.thread == thread {
            if row.level == Level::Read && level == Level::Write {
                return Ok(Enter::LockUpgrade);
            }
            row.count = row.count.saturating_add(1);
            return Ok(Enter::Entered);
        }
    }
    if let Some(other) = plain_conflict(rows.as_slice(), lock, thread, level) {
        return Ok(Enter::Blocked(other));
    }
    rows.push(Row {
        lock,
        thread,
        level,
        count: 1,
    })?;
    Ok(Enter::Entered)
}

/// The least other thread of the list that holds the lock in conflict.
fn plain_conflict(
    rows: &[Row],
    lock: LockName,
    thread: ThreadId,
    level: Level,
) -> Option<ThreadId> {
    let mut least = None;
    for row in rows {
        let excludes = level == Level::Write || row.level == Level::Write;
        if row.lock == lock && row.thread != thread && excludes {
            least = lesser(least, row.thread);
        }
    }
    least
}

/// The lesser of the two threads.
fn lesser(least: Option<ThreadId>, thread: ThreadId) -> Option<ThreadId> {
    match least {
        Some(other) if other < thread => Some(other),
        _ => Some(thread),
    }
}

/// The count that one exit leaves in the list, and the list after it.
fn plain_exit(rows: &mut Vec<Row>, lock: LockName, thread: ThreadId) -> u32 {
    let mut left = 0;
    for row in rows.iter_mut() {
        if row.lock == lock && row.thread == thread {
            row.count = row.count.saturating_sub(1);
            left = row.count;
        }
    }
    rows.retain(|row| row.count > 0);
    left
}

/// Whether the reads tell what the list tells.
fn reads_agree(holds: &Hold, rows: &[Row], lock: LockName, thread: ThreadId) -> bool {
    let own = rows
        .iter()
        .find(|row| row.lock == lock && row.thread == thread)
        .copied();
    holds.level_of(thread, lock) == own.map(|row| row.level)
        && holds.count(thread, lock) == own.map_or(0, |row| row.count)
        && holds.any(thread) == rows.iter().any(|row| row.thread == thread)
        && holds.free(lock) == !rows.iter().any(|row| row.lock == lock)
}
