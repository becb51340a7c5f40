//! The server's table of locks: `request 1 m5 write`, `returned 1 m5`, `lose 1`, `lease 1 m5`, `waits 1 m5`,
//! `random 7 500`.

use crate::plain_locks::compared_locks;
use case_words::{debugged, first_of, level, lock, shown, small};
use dso_base::{Level, LockName, NoMemory};
use dso_locks::LockTable;
use std::alloc::Global;

/// The answer to the call.
pub fn told(alloc: Global, locks: &mut LockTable, text: &str) -> Result<String, NoMemory> {
    let (word, rest) = first_of(text);
    let (first, rest) = first_of(rest);
    match (word, small(first)) {
        ("random", _) => compared_locks(alloc, first, rest),
        ("lose", Some(client)) => {
            let told = locks.lose(alloc, client)?;
            debugged(alloc, told)
        }
        (_, Some(client)) => of_client(alloc, locks, word, client, rest),
        _ => shown(alloc, "no such client"),
    }
}

/// The answer to a call on a lock for a client.
fn of_client(
    alloc: Global,
    locks: &mut LockTable,
    word: &str,
    client: u8,
    text: &str,
) -> Result<String, NoMemory> {
    let (first, second) = first_of(text);
    match (word, lock(first), level(second)) {
        ("request", Some(lock), Some(level)) => requested(alloc, locks, client, lock, level),
        ("returned", Some(lock), _) => {
            let told = locks.returned(alloc, client, lock)?;
            debugged(alloc, told)
        }
        ("lease", Some(lock), _) => debugged(alloc, locks.lease(client, lock)),
        ("waits", Some(lock), _) => shown(alloc, locks.waits(client, lock)),
        _ => shown(alloc, "no such call"),
    }
}

/// The answer to a request, where the condition of the call holds.
fn requested(
    alloc: Global,
    locks: &mut LockTable,
    client: u8,
    lock: LockName,
    level: Level,
) -> Result<String, NoMemory> {
    if locks.waits(client, lock) {
        return shown(alloc, "it waits");
    }
    let told = locks.request(alloc, client, lock, level)?;
    debugged(alloc, told)
}
