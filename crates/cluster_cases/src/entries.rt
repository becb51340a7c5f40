//! The entries of a client, as lines in the text of a journal.

use case_words::{shown, single};
use dso_base::{Entry, Event, Input, Items, Journal, NoMemory, Node, Sent, Shared, Up};
use dso_report::journal_text;
use std::alloc::Global;

/// What a step takes in, the event that it makes, and what it sends.
#[derive(Drop)]
pub struct Made {
    input: Input,
    event: Option<Shared<Event>>,
    sent: Vec<Up>,
}

impl Made {
    /// Of these parts.
    pub fn new(input: Input, event: Option<Shared<Event>>, sent: Vec<Up>) -> Made {
        Made { input, event, sent }
    }
}

/// These messages, as an entry sends them.
fn to_server(alloc: Global, messages: Vec<Up>) -> Result<Items<Sent>, NoMemory> {
    let mut sent = Items::new(alloc);
    for message in messages {
        sent.push(Sent::ToServer(message))?;
    }
    Ok(sent)
}

/// The line of an entry.
fn text_of(alloc: Global, entry: Entry) -> Result<String, NoMemory> {
    let journal = Journal {
        entries: single(alloc, entry)?,
    };
    let bytes = journal_text(alloc, &journal)?;
    match String::from_utf8(bytes) {
        Ok(text) => Ok(text),
        Err(_) => shown(alloc, "no text\n"),
    }
}

/// The line of what the client of this number made, with this clock.
pub fn entry_line(alloc: Global, clock: u64, number: u8, made: Made) -> Result<String, NoMemory> {
    let Made { input, event, sent } = made;
    let entry = Entry {
        clock,
        node: Node::Client(number),
        input,
        sent: to_server(alloc, sent)?,
        event,
    };
    text_of(alloc, entry)
}
