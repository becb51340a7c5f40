//! What the heap tells.

use case_words::{count, debugged, first_of, number, shown, thread};
use dso_base::{NoMemory, ThreadId};
use dso_plain::Plain;
use std::alloc::Global;

/// The answer to a question about the heap.
pub fn told(alloc: Global, heap: &Plain, text: &str) -> Result<String, NoMemory> {
    let (word, rest) = first_of(text);
    let (first, second) = first_of(rest);
    if word == "unguarded" {
        return shown(alloc, heap.unguarded());
    }
    match (thread(first), number(first)) {
        (Some(thread), _) => of_thread(alloc, heap, word, thread, second),
        (_, Some(number)) => of_number(alloc, heap, word, number, second),
        _ => shown(alloc, "no such question"),
    }
}

/// What is told of a thread.
fn of_thread(
    alloc: Global,
    heap: &Plain,
    word: &str,
    thread: ThreadId,
    rest: &str,
) -> Result<String, NoMemory> {
    match (word, count(rest)) {
        ("printed", _) => shown(alloc, heap.printed(thread)),
        ("output", Some(at)) => debugged(alloc, heap.output(thread, at as usize)),
        ("ended", _) => debugged(alloc, heap.ended(thread)),
        ("waits", _) => shown(alloc, heap.waits(thread)),
        _ => shown(alloc, "no such question"),
    }
}

/// What is told of an object or of a client.
fn of_number(
    alloc: Global,
    heap: &Plain,
    word: &str,
    number: u64,
    rest: &str,
) -> Result<String, NoMemory> {
    match (word, count(rest)) {
        ("object", _) => debugged(alloc, heap.object(number)),
        ("value", Some(field)) => debugged(alloc, heap.value(number, field)),
        ("lost", _) => match u8::try_from(number) {
            Ok(client) => shown(alloc, heap.is_lost(client)),
            Err(_) => shown(alloc, "no such client"),
        },
        _ => shown(alloc, "no such question"),
    }
}
