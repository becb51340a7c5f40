//! A case: the entries so far, and what is answered to each line.

use crate::journal_words::entry_of;
use case_words::{class_shape, field_shape, single};
use dso_base::{
    Entry, Event, Guard, Items, Journal, Kind, NoMemory, Reply, Request, Shape, ThreadId,
};
use dso_legal::committed;
use dso_plain::Plain;
use std::alloc::{AllocError, Global};
use std::fmt::Write;

/// The entries of the case that is being read.
#[derive(Drop)]
pub struct HistoryCase {
    entries: Items<Entry>,
    clock: u64,
}

impl HistoryCase {
    /// No entry was read yet.
    pub fn new(alloc: Global) -> HistoryCase {
        HistoryCase {
            entries: Items::new(alloc),
            clock: 0,
        }
    }

    /// What is printed for the line: nothing for an entry, the history for `commits`, and any other line as it stands.
    pub fn answered(&mut self, alloc: Global, line: &str) -> Result<String, AllocError> {
        if line == "commits" {
            return self.history(alloc);
        }
        let clock = self.clock.saturating_add(1);
        match entry_of(alloc, clock, line) {
            Ok(Some(entry)) => self.added(alloc, clock, entry),
            Ok(None) => format!(in alloc; "{line}\n"),
            Err(_) => Err(AllocError),
        }
    }

    /// Adds the entry to the case.
    fn added(&mut self, alloc: Global, clock: u64, entry: Entry) -> Result<String, AllocError> {
        self.entries.push(entry)?;
        self.clock = clock;
        Ok(String::new(alloc))
    }

    /// The history that the entries commit, and the next case begins.
    fn history(&mut self, alloc: Global) -> Result<String, AllocError> {
        let journal = Journal {
            entries: std::mem::replace(&mut self.entries, Items::new(alloc)),
        };
        self.clock = 0;
        match told(alloc, &journal) {
            Ok(text) => Ok(text),
            Err(_) => Err(AllocError),
        }
    }
}

/// The history of the journal as text.
fn told(alloc: Global, journal: &Journal) -> Result<String, NoMemory> {
    let history = committed(alloc, journal)?;
    let mut text = String::new(alloc);
    for event in &history {
        add_line(&mut text, event)?;
    }
    let taken = taken_by_plain(alloc, history.as_slice())?;
    write!(text, "one heap takes {taken} of them\n\n")?;
    Ok(text)
}

/// Adds a line for the event.
fn add_line(text: &mut String, event: &Event) -> Result<(), AllocError> {
    match event {
        Event::Lost(client) => writeln!(text, "client {client} is lost"),
        Event::Act {
            thread,
            request,
            reply,
            woken,
        } => {
            add_request(text, *thread, *request)?;
            add_outcome(text, *reply, *woken)
        }
    }
}

/// Adds a thread and what it asks.
fn add_request(text: &mut String, thread: ThreadId, request: Request) -> Result<(), AllocError> {
    let ThreadId { client, index } = thread;
    write!(text, "{client}.{index} {request:?} ")
}

/// Adds what came of a request, and ends the line: the thread that was woken, or else the reply.
fn add_outcome(text: &mut String, reply: Reply, woken: Option<ThreadId>) -> Result<(), AllocError> {
    match woken {
        Some(ThreadId { client, index }) => writeln!(text, "wakes {client}.{index}"),
        None => writeln!(text, "{reply:?}"),
    }
}

/// How many events of the history one heap with plain monitors takes, up to the first that it refuses.
fn taken_by_plain(alloc: Global, history: &[Event]) -> Result<usize, NoMemory> {
    let shape = shape(alloc)?;
    let mut plain = Plain::new(alloc, &shape)?;
    for (at, event) in history.iter().enumerate() {
        if !plain.apply(alloc, &shape, event)? {
            return Ok(at);
        }
    }
    Ok(history.len())
}

/// One class with a number under its own monitor, and one root.
fn shape(alloc: Global) -> Result<Shape, NoMemory> {
    let class = class_shape(alloc, &[field_shape(Kind::Long, Guard::Own)])?;
    Ok(Shape {
        classes: single(alloc, class)?,
        roots: 1,
        names: 1,
        texts: 0,
    })
}
