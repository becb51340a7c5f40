//! Messages, as words: `idask`, `fault 5`, `flushed 5`, `request m5 write`, `return m5 1.1 1.2`, `commit 1 1.1 exit:m5`, the
//! words of a record told in `records.rt`.

use crate::records::record;
use case_words::{first_of, level, lock, number, thread_list};
use dso_base::{NoMemory, Shared, Up};
use std::alloc::Global;

/// The message of the words, None where they tell none.
pub fn message(alloc: Global, text: &str) -> Result<Option<Up>, NoMemory> {
    let (word, rest) = first_of(text);
    match word {
        "idask" => Ok(Some(Up::IdAsk)),
        "fault" => Ok(number(rest).map(Up::Fault)),
        "flushed" => Ok(number(rest).map(Up::Flushed)),
        "request" => Ok(requested(rest)),
        "return" => returned(alloc, rest),
        "commit" => committed(alloc, rest),
        _ => Ok(None),
    }
}

/// The request of the lock at the level.
fn requested(text: &str) -> Option<Up> {
    let (name, wanted) = first_of(text);
    Some(Up::Request(lock(name)?, level(wanted)?))
}

/// The return of the lock with the threads.
fn returned(alloc: Global, text: &str) -> Result<Option<Up>, NoMemory> {
    let (name, rest) = first_of(text);
    let Some(name) = lock(name) else {
        return Ok(None);
    };
    let waiting = thread_list(alloc, rest)?;
    Ok(Some(Up::Return(name, waiting)))
}

/// A record to be applied, None where the words tell none.
fn committed(alloc: Global, text: &str) -> Result<Option<Up>, NoMemory> {
    match record(alloc, text)? {
        Some(txn) => Ok(Some(Up::Commit(Shared::new(alloc, txn)?))),
        None => Ok(None),
    }
}
