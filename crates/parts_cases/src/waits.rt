//! The list of waiting threads: `add 1.1`, `pick`, `remove 1.1`, `drop 2`, `move`, `all`.

use case_words::{debugged, first_of, shown, small, thread};
use dso_base::{NoMemory, ThreadId};
use dso_wait::WaitList;
use std::alloc::Global;

/// The answer to the call.
pub fn told(alloc: Global, waiters: &mut WaitList, text: &str) -> Result<String, NoMemory> {
    let (word, rest) = first_of(text);
    match (word, thread(rest), small(rest)) {
        ("add", Some(thread), _) => {
            waiters.add(thread)?;
            shown(alloc, "added")
        }
        ("pick", _, _) => debugged(alloc, waiters.pick()),
        ("remove", Some(thread), _) => shown(alloc, waiters.remove(thread)),
        ("drop", _, Some(client)) => {
            waiters.drop_client(client);
            shown(alloc, "dropped")
        }
        ("move", _, _) => {
            let moved = waiters.move_out();
            listed(alloc, moved.as_slice())
        }
        ("all", _, _) => listed(alloc, waiters.all()),
        _ => shown(alloc, "no such call"),
    }
}

/// The threads in order, each as `1.2`.
fn listed(alloc: Global, threads: &[ThreadId]) -> Result<String, NoMemory> {
    let mut text = String::new(alloc);
    for thread in threads {
        let ThreadId { client, index } = *thread;
        text = format!(in alloc; "{text} {client}.{index}")?;
    }
    shown(alloc, text)
}
