//! Why a thread can't go on, in the words of a journal's text.

use case_words::shown;
use dso_base::{LockName, NoMemory, ThreadId};
use dso_client::Cause;
use std::alloc::Global;

/// The line of a thread that can't go on for this cause.
pub fn blocked(alloc: Global, cause: Cause) -> Result<String, NoMemory> {
    match cause {
        Cause::Lease(lock) => at_lock(alloc, "lease", lock),
        Cause::Wake(lock) => at_lock(alloc, "wake", lock),
        Cause::Object(object) => numbered(alloc, "object", object),
        Cause::Ack(seq) => numbered(alloc, "ack", seq),
        Cause::LocalHolder(thread) => held_by(alloc, thread),
        Cause::Ids => shown(alloc, "blocked ids\n"),
    }
}

/// The line of a thread that lacks this of a lock.
fn at_lock(alloc: Global, need: &str, lock: LockName) -> Result<String, NoMemory> {
    let text = match lock {
        LockName::Mon(object) => format!(in alloc; "blocked {need} m{object}\n")?,
        LockName::Name(name) => format!(in alloc; "blocked {need} n{name}\n")?,
    };
    Ok(text)
}

/// The line of a thread that lacks what has this number.
fn numbered(alloc: Global, need: &str, number: u64) -> Result<String, NoMemory> {
    Ok(format!(in alloc; "blocked {need} {number}\n")?)
}

/// The line of a thread that wants a lock which this one holds.
fn held_by(alloc: Global, thread: ThreadId) -> Result<String, NoMemory> {
    Ok(format!(in alloc; "blocked holder {}.{}\n", thread.client, thread.index)?)
}
