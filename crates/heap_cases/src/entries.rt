//! Entries of a journal in short words.
//!
//! | Words | Entry |
//! |---|---|
//! | `1.2 acts` | the thread acts, without an event |
//! | `1 takes grant m5 read` | the client takes a message of the server |
//! | `1 flushes 7` | the client drops its copy of the object |
//! | `server takes 1 request n0 read` | the server takes a message of the client |
//!
//! Behind ` sends ` stand the messages that it sends, joined by ` and `: to the server as they are, to a client as
//! `to 2 recall m5`.

use case_words::{
    bare_record, class, first_of, level, lock, number, set, single, small, thread, value,
};
use dso_base::{
    Body, Down, Ending, Entry, Input, Items, NoMemory, Node, Sent, Shared, ThreadId, Up,
};
use std::alloc::Global;

/// The entry of the text, if it is one.
pub fn entry_of(alloc: Global, clock: u64, text: &str) -> Result<Option<Entry>, NoMemory> {
    let (taken, sends) = text.split_once(" sends ").unwrap_or((text, ""));
    let Some((node, input)) = input_of(alloc, taken)? else {
        return Ok(None);
    };
    Ok(Some(Entry {
        clock,
        node,
        input,
        sent: messages_of(alloc, sends)?,
        event: None,
    }))
}

/// The messages that are sent.
fn messages_of(alloc: Global, text: &str) -> Result<Items<Sent>, NoMemory> {
    let mut sent = Items::new(alloc);
    for message in text.split(" and ") {
        if let Some(message) = sent_of(alloc, message)? {
            sent.push(message)?;
        }
    }
    Ok(sent)
}

/// The node, and what it takes in.
fn input_of(alloc: Global, text: &str) -> Result<Option<(Node, Input)>, NoMemory> {
    let (who, rest) = first_of(text);
    let (verb, what) = first_of(rest);
    match (verb, thread(who), small(who)) {
        ("acts", Some(thread), _) => Ok(Some(acting(thread))),
        ("flushes", _, Some(client)) => {
            Ok(number(what).map(|object| (Node::Client(client), Input::Flush(object))))
        }
        ("takes", _, Some(client)) => {
            let message = down_of(alloc, what)?;
            Ok(message.map(|message| (Node::Client(client), Input::TookDown(message))))
        }
        ("takes", _, None) => server_takes(alloc, what),
        _ => Ok(None),
    }
}

/// An act of the thread.
fn acting(thread: ThreadId) -> (Node, Input) {
    (Node::Client(thread.client), Input::Act(thread.index))
}

/// The server takes a message of a client.
fn server_takes(alloc: Global, text: &str) -> Result<Option<(Node, Input)>, NoMemory> {
    let (who, what) = first_of(text);
    let Some(client) = small(who) else {
        return Ok(None);
    };
    let message = up_of(alloc, what)?;
    Ok(message.map(|message| (Node::Server, Input::TookUp(client, message))))
}

/// A message that is sent.
fn sent_of(alloc: Global, text: &str) -> Result<Option<Sent>, NoMemory> {
    let Some(rest) = text.strip_prefix("to ") else {
        let message = up_of(alloc, text)?;
        return Ok(message.map(Sent::ToServer));
    };
    let (who, what) = first_of(rest);
    let Some(client) = small(who) else {
        return Ok(None);
    };
    let message = down_of(alloc, what)?;
    Ok(message.map(|message| Sent::ToClient(client, message)))
}

/// A message of the server that has no list.
fn plain_down_of(verb: &str, rest: &str) -> Option<Down> {
    let (first, second) = first_of(rest);
    match verb {
        "grant" => Some(Down::Grant(lock(first)?, level(second)?)),
        "recall" => Some(Down::Recall(lock(first)?)),
        _ => None,
    }
}

/// A message of the server.
fn down_of(alloc: Global, text: &str) -> Result<Option<Down>, NoMemory> {
    let (verb, rest) = first_of(text);
    match verb {
        "object" => object_of(alloc, rest),
        "changes" => match set(rest) {
            Some(set) => Ok(Some(Down::Changes(single(alloc, set)?))),
            None => Ok(None),
        },
        _ => Ok(plain_down_of(verb, rest)),
    }
}

/// An object with one field, as `7 c0 l1`.
fn object_of(alloc: Global, text: &str) -> Result<Option<Down>, NoMemory> {
    let (first, rest) = first_of(text);
    let (second, third) = first_of(rest);
    let (Some(object), Some(class), Some(value)) = (number(first), class(second), value(third))
    else {
        return Ok(None);
    };
    let body = Body {
        object,
        class,
        values: single(alloc, value)?,
    };
    Ok(Some(Down::Object(Shared::new(alloc, body)?)))
}

/// A message of a client; a lock goes back without waiters.
fn up_of(alloc: Global, text: &str) -> Result<Option<Up>, NoMemory> {
    let (verb, rest) = first_of(text);
    let (first, second) = first_of(rest);
    match (verb, lock(first), level(second)) {
        ("request", Some(lock), Some(level)) => Ok(Some(Up::Request(lock, level))),
        ("return", Some(lock), _) => Ok(Some(Up::Return(lock, Items::new(alloc)))),
        ("commit", ..) => record_of(alloc, first, second),
        _ => Ok(None),
    }
}

/// The first record of a thread, with one set and its end: `1.2 0 1 r7`.
fn record_of(alloc: Global, who: &str, text: &str) -> Result<Option<Up>, NoMemory> {
    let (Some(thread), Some(set)) = (thread(who), set(text)) else {
        return Ok(None);
    };
    let mut txn = bare_record(alloc, 1, thread, Ending::End(None));
    txn.sets.push(set)?;
    Ok(Some(Up::Commit(Shared::new(alloc, txn)?)))
}
