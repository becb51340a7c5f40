//! The leases: `want m5 read outer`, `entered m5`, `granted m5 read`, `recalled m5`, `return m5 free`, `standing m5`,
//! `asked m5`; of a lease `level m5`, `is-entered m5`, `closing m5`; `admits m5 read inner`, whether a thread that wants
//! the lock is told `Held`; `random 7 500`.

use crate::plain_leases::compared_leases;
use case_words::{debugged, first_of, level, lock, shown};
use dso_base::{LockName, NoMemory};
use dso_lease::{Leases, Want};
use std::alloc::Global;

/// The answer to the call.
pub fn told(alloc: Global, leases: &mut Leases, text: &str) -> Result<String, NoMemory> {
    let (word, rest) = first_of(text);
    let (first, rest) = first_of(rest);
    match (word, lock(first)) {
        ("random", _) => compared_leases(alloc, first, rest),
        (_, Some(lock)) => of_lock(alloc, leases, word, lock, rest),
        _ => shown(alloc, "no such lock"),
    }
}

/// The answer to a call on a lock.
fn of_lock(
    alloc: Global,
    leases: &mut Leases,
    word: &str,
    lock: LockName,
    text: &str,
) -> Result<String, NoMemory> {
    match word {
        "entered" => {
            leases.entered(lock);
            shown(alloc, "entered")
        }
        "recalled" => shown(alloc, leases.recalled(lock)),
        "return" => shown(alloc, leases.try_return(lock, text == "free")),
        "level" => debugged(alloc, leases.leased(lock).map(|lease| lease.level)),
        "standing" => debugged(alloc, leases.standing(lock)),
        "asked" => shown(alloc, leases.is_asked(lock)),
        "is-entered" => shown(
            alloc,
            leases.leased(lock).is_some_and(|lease| lease.is_entered),
        ),
        "closing" => shown(
            alloc,
            leases.leased(lock).is_some_and(|lease| lease.is_closing),
        ),
        _ => at_level(alloc, leases, word, lock, text),
    }
}

/// The answer to a call on a lock at a level.
fn at_level(
    alloc: Global,
    leases: &mut Leases,
    word: &str,
    lock: LockName,
    text: &str,
) -> Result<String, NoMemory> {
    let (first, second) = first_of(text);
    match (word, level(first)) {
        ("want", Some(level)) => debugged(alloc, leases.want(lock, level, second == "inner")?),
        ("admits", Some(level)) => {
            let answer = leases.want(lock, level, second == "inner")?;
            shown(alloc, answer == Want::Held)
        }
        ("granted", Some(level)) => shown(alloc, leases.granted(lock, level)),
        _ => shown(alloc, "no such call"),
    }
}
