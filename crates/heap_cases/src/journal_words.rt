//! The entries in short words, of which only what plays a part in the history is there.
//!
//! | Line | Entry |
//! |---|---|
//! | `act 1.2 enter n0 write` | the second thread of client 1 acts: a verb with its numbers, its lock (`n0`, `m1`) or its object |
//! | `act 1.2 tick n0 false` | and is answered: a tick tells whether the thread was woken, as does a timeout that comes too late |
//! | `take 1 record 3` | the server takes the record of number 3 of client 1 |
//! | `take 1 record 3 wakes 1.1 1.2` | and it wakes these threads |
//! | `take 1 return n0 1.1 1.2` | the server takes the lock of client 1 back, with the threads that wait for it |
//! | `lose 1` | the server gives client 1 up |

use case_words::{bare_record, first_of, lock, number, request, small, thread, thread_list, value};
use dso_base::{
    ClassId, Down, Ending, Entry, Event, Input, Items, LockName, NoMemory, Node, Reply, Request,
    Sent, Shared, ThreadId, Up,
};
use std::alloc::Global;

/// The entry of the line, if it is one.
pub fn entry_of(alloc: Global, clock: u64, line: &str) -> Result<Option<Entry>, NoMemory> {
    let Some((word, rest)) = line.split_once(' ') else {
        return Ok(None);
    };
    match word {
        "act" => acting(alloc, clock, rest),
        "take" => taking(alloc, clock, rest),
        "lose" => losing(alloc, clock, rest),
        _ => Ok(None),
    }
}

/// An entry that sends nothing.
fn entry(alloc: Global, clock: u64, node: Node, input: Input) -> Entry {
    Entry {
        clock,
        node,
        input,
        sent: Items::new(alloc),
        event: None,
    }
}

/// An act that wakes nobody at its client, as `1.2 enter n0 write`.
fn act_of(words: &str) -> Option<(ThreadId, Event)> {
    let (who, verb) = words.split_once(' ')?;
    let thread = thread(who)?;
    let (request, reply) = request_and_reply(verb)?;
    let event = Event::Act {
        thread,
        request,
        reply,
        woken: None,
    };
    Some((thread, event))
}

/// The entry of an act.
fn acting(alloc: Global, clock: u64, words: &str) -> Result<Option<Entry>, NoMemory> {
    let Some((thread, event)) = act_of(words) else {
        return Ok(None);
    };
    let node = Node::Client(thread.client);
    let mut entry = entry(alloc, clock, node, Input::Act(thread.index));
    entry.event = Some(Shared::new(alloc, event)?);
    Ok(Some(entry))
}

/// The loss of a client.
fn losing(alloc: Global, clock: u64, words: &str) -> Result<Option<Entry>, NoMemory> {
    let Some(client) = small(words) else {
        return Ok(None);
    };
    let mut entry = entry(alloc, clock, Node::Server, Input::Lose(client));
    entry.event = Some(Shared::new(alloc, Event::Lost(client))?);
    Ok(Some(entry))
}

/// A message of a client that the server takes: a record, or a return.
fn taking(alloc: Global, clock: u64, words: &str) -> Result<Option<Entry>, NoMemory> {
    let (first, rest) = first_of(words);
    let (kind, rest) = first_of(rest);
    let (what, rest) = first_of(rest);
    let Some(client) = small(first) else {
        return Ok(None);
    };
    let threads = thread_list(alloc, rest)?;
    match kind {
        "record" => recorded(alloc, clock, client, what, &threads),
        "return" => Ok(returned(alloc, clock, client, what, threads)),
        _ => Ok(None),
    }
}

/// A record of the client, of which only the number matters; the server wakes the threads.
fn recorded(
    alloc: Global,
    clock: u64,
    client: u8,
    word: &str,
    woken: &Items<ThreadId>,
) -> Result<Option<Entry>, NoMemory> {
    let Some(seq) = number(word) else {
        return Ok(None);
    };
    let thread = ThreadId { client, index: 1 };
    let txn = bare_record(alloc, seq, thread, Ending::Exit(LockName::Name(0)));
    let input = Input::TookUp(client, Up::Commit(Shared::new(alloc, txn)?));
    let mut entry = entry(alloc, clock, Node::Server, input);
    for thread in woken.as_slice() {
        let wake = Down::Wake(LockName::Name(0), *thread);
        entry.sent.push(Sent::ToClient(thread.client, wake))?;
    }
    Ok(Some(entry))
}

/// A lock that the client gives back, with the threads that wait for it.
fn returned(
    alloc: Global,
    clock: u64,
    client: u8,
    word: &str,
    waiters: Items<ThreadId>,
) -> Option<Entry> {
    let input = Input::TookUp(client, Up::Return(lock(word)?, waiters));
    Some(entry(alloc, clock, Node::Server, input))
}

/// A request with its reply, as `put 1 0 4`, `get 0 0 r1` or `tick n0 false`.
fn request_and_reply(words: &str) -> Option<(Request, Reply)> {
    let (verb, rest) = first_of(words);
    let (_, behind) = first_of(rest);
    let (_, third) = first_of(behind);
    match verb {
        "new" => Some((
            Request::New(ClassId::Plain(0), 1),
            Reply::Made(number(rest)?),
        )),
        "look" => Some((request(words)?, Reply::Seen(ClassId::Roots, 1))),
        "get" => Some((request(words)?, Reply::Val(value(third)?))),
        _ => Some((request(words)?, wait_reply(verb, behind)?)),
    }
}

/// The reply in a timed wait: the value of the word, Done where there is none, and in any other request.
fn wait_reply(verb: &str, word: &str) -> Option<Reply> {
    match verb {
        "tick" | "timeout" if !word.is_empty() => Some(Reply::Val(value(word)?)),
        _ => Some(Reply::Done),
    }
}
