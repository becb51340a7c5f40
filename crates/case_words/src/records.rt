//! Parts of records.

use crate::numbers::{count, number};
use crate::values::value;
use crate::words::{first_of, lock, thread};
use dso_base::{Choice, Ending, Items, Note, Set, ThreadId, Txn};
use std::alloc::Global;

/// A record of the thread with this ending, and nothing else in it.
pub fn bare_record(alloc: Global, seq: u64, thread: ThreadId, ending: Ending) -> Txn {
    Txn {
        seq,
        thread,
        news: Items::new(alloc),
        sets: Items::new(alloc),
        outs: Items::new(alloc),
        notes: Items::new(alloc),
        ending,
    }
}

/// A value in a field, as `5 0 l7`.
pub fn set(text: &str) -> Option<Set> {
    let (object, rest) = first_of(text);
    let (field, word) = first_of(rest);
    Some(Set {
        object: number(object)?,
        field: count(field)?,
        value: value(word)?,
    })
}

/// A notification of a lock: of one waiter that the server chooses, `there`, of `all`, or of a thread that the client chose.
pub fn note(name: &str, whom: &str) -> Option<Note> {
    let choice = match whom {
        "there" => Choice::There,
        "all" => Choice::All,
        _ => Choice::Here(thread(whom)?),
    };
    Some(Note {
        lock: lock(name)?,
        choice,
    })
}

/// How a block ends: `exit`, `wait` or `timeout` of a lock, or `end`.
pub fn ending(word: &str, name: &str) -> Option<Ending> {
    match word {
        "exit" => Some(Ending::Exit(lock(name)?)),
        "wait" => Some(Ending::Wait(lock(name)?)),
        "timeout" => Some(Ending::Timeout(lock(name)?)),
        "end" => Some(Ending::End(None)),
        _ => None,
    }
}
