//! The list of holds: `enter 1.1 m5 read 1`, `exit 1.1 m5 1`, `level 1.1 m5`, `count 1.1 m5`, `conflict 1.1 m5 read`,
//! `any 1.1`, `free m5`, `random 7 500`.

use crate::plain_holds::compared_holds;
use case_words::{count, debugged, first_of, level, lock, shown, thread};
use dso_base::{Level, LockName, NoMemory, ThreadId};
use dso_hold::Hold;
use std::alloc::Global;

/// The answer to the call.
pub fn told(alloc: Global, holds: &mut Hold, text: &str) -> Result<String, NoMemory> {
    let (word, rest) = first_of(text);
    match word {
        "free" => free(alloc, holds, rest),
        "random" => compared_holds(alloc, rest),
        _ => of_thread(alloc, holds, word, rest),
    }
}

/// Whether no thread holds the lock.
fn free(alloc: Global, holds: &Hold, text: &str) -> Result<String, NoMemory> {
    match lock(text) {
        Some(lock) => shown(alloc, holds.free(lock)),
        None => shown(alloc, "no such lock"),
    }
}

/// The answer to a call on a thread.
fn of_thread(alloc: Global, holds: &mut Hold, word: &str, text: &str) -> Result<String, NoMemory> {
    let (first, rest) = first_of(text);
    let (second, rest) = first_of(rest);
    match (thread(first), lock(second)) {
        (Some(thread), Some(lock)) => of_both(alloc, holds, word, Asker { thread, lock }, rest),
        (Some(thread), None) if word == "any" => shown(alloc, holds.any(thread)),
        _ => shown(alloc, "no such call"),
    }
}

/// A thread, and the lock that it asks of.
#[derive(Clone, Copy)]
struct Asker {
    thread: ThreadId,
    lock: LockName,
}

/// The answer to a call on a thread and a lock.
fn of_both(
    alloc: Global,
    holds: &mut Hold,
    word: &str,
    asker: Asker,
    text: &str,
) -> Result<String, NoMemory> {
    let Asker { thread, lock } = asker;
    let (first, second) = first_of(text);
    match (word, level(first), count(first), count(second)) {
        ("enter", Some(level), _, Some(count)) => entered(alloc, holds, asker, level, count),
        ("exit", _, Some(count), _) => shown(alloc, holds.exit(thread, lock, count)),
        ("level", _, _, _) => debugged(alloc, holds.level_of(thread, lock)),
        ("count", _, _, _) => shown(alloc, holds.count(thread, lock)),
        ("conflict", Some(level), _, _) => conflict(alloc, holds, thread, lock, level),
        _ => shown(alloc, "no such call"),
    }
}

/// The answer to an entry, where the condition of the call holds.
fn entered(
    alloc: Global,
    holds: &mut Hold,
    asker: Asker,
    level: Level,
    count: u32,
) -> Result<String, NoMemory> {
    let Asker { thread, lock } = asker;
    if count == 0 || count > 1000 || holds.count(thread, lock) > 1_000_000 {
        return shown(alloc, "no such count");
    }
    let answer = holds.enter(alloc, thread, lock, level, count)?;
    debugged(alloc, answer)
}

/// The first thread in conflict, for a thread that doesn't hold the lock.
fn conflict(
    alloc: Global,
    holds: &Hold,
    thread: ThreadId,
    lock: LockName,
    level: Level,
) -> Result<String, NoMemory> {
    match holds.level_of(thread, lock) {
        Some(_) => shown(alloc, "held"),
        None => debugged(alloc, holds.conflict(thread, lock, level)),
    }
}
