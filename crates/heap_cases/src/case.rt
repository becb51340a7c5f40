//! The heap and the journal that the rows speak of, and the answer to a row.
//!
//! | Command | Answer |
//! |---|---|
//! | `event 1.1 get 1 1 -> val l7` | whether the heap takes the event (`events.rt`) |
//! | `heap printed 1.1` | what the heap tells (`heap.rt`) |
//! | `base fits long l-1` | what the base types tell (`parts.rt`) |
//! | `entry 1 takes grant m5 read` | the journal has this entry more (`entries.rt`) |
//! | `journal leased 1 m5` | what the journal tells (`journal.rt`) |
//! | `empty` | the journal has no entries |

use crate::entries::entry_of;
use crate::events::event_of;
use crate::shape::shape;
use crate::{heap, journal, parts};
use case_words::{first_of, row_answer, shown};
use dso_base::{Entry, Items, Journal, NoMemory, Shape};
use dso_plain::Plain;
use std::alloc::{AllocError, Global};

/// What the rows speak of.
#[derive(Drop)]
pub struct Case {
    shape: Shape,
    heap: Plain,
    journal: Journal,
}

impl Case {
    /// The opening state, and no entries.
    pub fn new(alloc: Global) -> Result<Case, NoMemory> {
        let shape = shape(alloc)?;
        let heap = Plain::new(alloc, &shape)?;
        Ok(Case {
            shape,
            heap,
            journal: Journal {
                entries: Items::new(alloc),
            },
        })
    }

    /// What is printed for the line.
    pub fn answered(&mut self, alloc: Global, line: &str) -> Result<String, AllocError> {
        let Some((name, command)) = line.split_once(": ") else {
            return format!(in alloc; "{line}");
        };
        let (word, rest) = first_of(command);
        let answer = self.told(alloc, word, rest);
        row_answer(alloc, name, answer)
    }

    /// The answer to the command.
    fn told(&mut self, alloc: Global, word: &str, rest: &str) -> Result<String, NoMemory> {
        match word {
            "event" => self.happens(alloc, rest),
            "heap" => heap::told(alloc, &self.heap, rest),
            "base" => parts::told(alloc, &self.shape, rest),
            "entry" => self.added(alloc, rest),
            "journal" => journal::told(alloc, &self.journal, rest),
            "empty" => self.emptied(alloc),
            _ => shown(alloc, "no such command"),
        }
    }

    /// Whether the heap takes the event.
    fn happens(&mut self, alloc: Global, text: &str) -> Result<String, NoMemory> {
        match event_of(text) {
            Some(event) => {
                let made = self.heap.apply(alloc, &self.shape, &event)?;
                shown(alloc, if made { "possible" } else { "not possible" })
            }
            None => shown(alloc, "no such event"),
        }
    }

    /// The journal with the entry behind the others.
    fn added(&mut self, alloc: Global, text: &str) -> Result<String, NoMemory> {
        let clock = (self.journal.entries.len() as u64).saturating_add(1);
        match entry_of(alloc, clock, text)? {
            Some(entry) => self.pushed(alloc, entry),
            None => shown(alloc, "no such entry"),
        }
    }

    /// The journal with the entry behind the others.
    fn pushed(&mut self, alloc: Global, entry: Entry) -> Result<String, NoMemory> {
        self.journal.entries.push(entry)?;
        shown(alloc, "added")
    }

    /// The journal without its entries.
    fn emptied(&mut self, alloc: Global) -> Result<String, NoMemory> {
        self.journal.entries = Items::new(alloc);
        shown(alloc, "no entries")
    }
}
