//! Messages told by words.

use case_words::{
    bare_record, digits_of, first_of, level, lock, note, shown, single, thread, thread_list,
};
use dso_base::{Down, Ending, NoMemory, Shared, Up};
use dso_session::Frame;
use dso_wire::{can_encode_down, can_encode_up, encode_down, encode_up};
use std::alloc::Global;

/// The bytes of a message up, or `no`.
pub fn up(alloc: Global, text: &str) -> Result<String, NoMemory> {
    let Some(message) = up_of(alloc, text)? else {
        return shown(alloc, "nothing");
    };
    let frame = carried(message);
    if !can_encode_up(&frame) {
        return shown(alloc, "no");
    }
    digits_of(alloc, &encode_up(alloc, &frame)?)
}

/// The bytes of a message down, or `no`.
pub fn down(alloc: Global, text: &str) -> Result<String, NoMemory> {
    let Some(message) = down_of(text) else {
        return shown(alloc, "nothing");
    };
    let frame = carried(message);
    if !can_encode_down(&frame) {
        return shown(alloc, "no");
    }
    digits_of(alloc, &encode_down(alloc, &frame)?)
}

/// A message of number 1 and clock 2.
fn carried<M>(message: M) -> Frame<M> {
    Frame::Carry {
        epoch: 0,
        number: 1,
        seen: 0,
        clock: 2,
        message,
    }
}

/// A message up, None where the words tell none.
fn up_of(alloc: Global, text: &str) -> Result<Option<Up>, NoMemory> {
    let (word, rest) = first_of(text);
    let (first, rest) = first_of(rest);
    if word == "commit" {
        return commit_of(alloc, first, rest);
    }
    let Some(name) = lock(first) else {
        return Ok(None);
    };
    if word == "return" {
        return Ok(Some(Up::Return(name, thread_list(alloc, rest)?)));
    }
    Ok(level(rest).map(|level| Up::Request(name, level)))
}

/// The record of a thread with one notification, which ends with a full release of that lock.
fn commit_of(alloc: Global, who: &str, text: &str) -> Result<Option<Up>, NoMemory> {
    let (name, whom) = first_of(text);
    let (Some(thread), Some(lock), Some(note)) = (thread(who), lock(name), note(name, whom)) else {
        return Ok(None);
    };
    let mut txn = bare_record(alloc, 1, thread, Ending::Exit(lock));
    txn.notes = single(alloc, note)?;
    Ok(Some(Up::Commit(Shared::new(alloc, txn)?)))
}

/// A message down, None where the words tell none.
fn down_of(text: &str) -> Option<Down> {
    let (_, rest) = first_of(text);
    let (name, who) = first_of(rest);
    Some(Down::Wake(lock(name)?, thread(who)?))
}
