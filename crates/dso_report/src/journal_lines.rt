//! The text of a journal (`specs/JournalText.antt`).
ghost use Rattle.std.specs.Prelude.{◌≡◌, ◌++◌, IfOk, OnOk};
ghost use Rattle.dso_report.specs.JournalText.{node_number, input_words, sent_words, event_part, entry_head, entry_line, journal_text};

use crate::written::{Written, put_behind, put_each};
use dso_base::{Entry, Event, Input, Journal, NoMemory, Node, Sent, Shared, ThreadId};
use std::alloc::{AllocError, Global};

/// The text of a journal: a line for each entry, the first one first, with its clock, its node, what the node took in, each message
/// that it sent, and the thread's event where it has one. Each line ends with a line feed.
///
/// It takes time and memory in the measure of the text. `NoMemory` is answered where an allocation was refused, and then there is no
/// text.
pub fn journal_text(alloc: Global, journal: &Journal) -> Result<Vec<u8>, NoMemory>
    ensures { IfOk result (λ text. text.items ≡ journal_text journal.now) }
{
    let mut text = Vec::new(alloc);
    for entry in journal.entries.as_slice() {
        put_entry(&mut text, entry)?;
    }
    Ok(text)
}

/// Puts the line of an entry at the end.
fn put_entry(text: &mut Vec<u8>, entry: &Entry) -> Result<(), AllocError>
    ensures { OnOk result (text.new.items ≡ text.old.items ++ entry_line entry.now) }
{
    put_head(text, entry)?;
    put_each(text, b" ; to ", entry.sent.as_slice())?;
    put_event(text, &entry.event)?;
    text.extend_from_slice(b"\n")?;
    Ok(())
}

/// Puts at the end how the line of an entry begins.
fn put_head(text: &mut Vec<u8>, entry: &Entry) -> Result<(), AllocError>
    ensures { OnOk result (text.new.items ≡ text.old.items ++ entry_head entry.now) }
{
    entry.clock.put(text)?;
    put_behind(text, b" ", &entry.node)?;
    text.extend_from_slice(b" ")?;
    put_input(text, entry.node, &entry.input)
}

/// Puts at the end what a node took in.
fn put_input(text: &mut Vec<u8>, node: Node, input: &Input) -> Result<(), AllocError>
    ensures { OnOk result (text.new.items ≡ text.old.items ++ input_words node input.now) }
{
    match input {
        Input::Act(index) => {
            let client = node_number(node);
            put_behind(
                text,
                b"act ",
                &ThreadId {
                    client,
                    index: *index,
                },
            )
        }
        Input::TookUp(client, message) => {
            put_behind(text, b"took ", &Node::Client(*client))?;
            put_behind(text, b" ", message)
        }
        Input::TookDown(message) => {
            put_behind(text, b"took ", &Node::Server)?;
            put_behind(text, b" ", message)
        }
        Input::Flush(object) => put_behind(text, b"flush ", object),
        Input::Lose(client) => put_behind(text, b"lose ", client),
        Input::Break(client) => put_behind(text, b"break ", client),
        Input::Rejoin(client) => put_behind(text, b"rejoin ", client),
    }
}

/// The number of a node: that of a client, and 0 for the server.
fn node_number(node: Node) -> u8
    ensures { result ≡ node_number node }
{
    match node {
        Node::Server => 0,
        Node::Client(client) => client,
    }
}

impl Written for Sent {
    ghost words = { sent_words };

    fn put(&self, text: &mut Vec<u8>) -> Result<(), AllocError> {
        match self {
            Sent::ToServer(message) => {
                Node::Server.put(text)?;
                put_behind(text, b" ", message)
            }
            Sent::ToClient(client, message) => {
                Node::Client(*client).put(text)?;
                put_behind(text, b" ", message)
            }
        }
    }
}

/// Puts the part of an entry's event at the end, where it has one.
fn put_event(text: &mut Vec<u8>, event: &Option<Shared<Event>>) -> Result<(), AllocError>
    ensures { OnOk result (text.new.items ≡ text.old.items ++ event_part event.now) }
{
    match event {
        None => Ok(()),
        Some(event) => put_behind(text, b" ; event ", event.get()),
    }
}
