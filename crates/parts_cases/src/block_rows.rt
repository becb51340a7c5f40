//! A thread's private objects and its open block, and beside them the events that they come from.
//!
//! | Command | What it does |
//! |---|---|
//! | `private 5 c0 l7 null` | the thread has this private object from an earlier block |
//! | `make 5 c0 2` | it makes an object of this class and size |
//! | `set 5 0 l7` | it puts a value in a field of a private object |
//! | `put 1 0 r5` | it puts a value in a field of a shared object |
//! | `print l7`, `note m1 there` | it prints a value; it notifies |
//! | `get 5`, `body 5`, `value 1 0` | the private object; the published one; the block's value of the field |
//! | `named` | the objects that what is in hand names |
//! | `fold 3 exit m1` | the record of this number and ending, from all these events |
//! | `close 3 exit m1` | the record from the open block, which is empty then |
//! | `changes 1 2` | the sets of the last record closed that are for a client that holds these objects |

use crate::block_words::{body_of, made_by, note_of, note_request, numbered_ending, shape};
use crate::record_words::{body_text, record_text, sets_text};
use case_words::{debugged, first_of, number, number_list, set, shown, value, with_numbers};
use dso_base::{Body, Ending, Event, NoMemory, Note, Reply, Request, Set, ThreadId, Txn, Value};
use dso_change::{changes_for, fold, opening_body};
use dso_txn::{OpenBlock, Privates};
use std::alloc::Global;

/// The thread of the rows.
const THREAD: ThreadId = ThreadId {
    client: 1,
    index: 1,
};

/// What the thread has in hand, and where it comes from: the private objects before the block, and the events.
#[derive(Drop)]
pub struct Hand {
    privates: Privates,
    block: OpenBlock,
    before: Vec<Body>,
    events: Vec<Event>,
    closed: Option<Txn>,
}

impl Hand {
    /// Nothing is in hand.
    pub fn new(alloc: Global) -> Hand {
        Hand {
            privates: Privates::new(alloc),
            block: OpenBlock::new(alloc, THREAD),
            before: Vec::new(alloc),
            events: Vec::new(alloc),
            closed: None,
        }
    }

    /// The answer to the command.
    pub fn told(&mut self, alloc: Global, text: &str) -> Result<String, NoMemory> {
        let (word, rest) = first_of(text);
        match word {
            "private" => self.private(alloc, rest),
            "make" => self.make(alloc, rest),
            "set" | "put" => self.write(alloc, word, rest),
            "print" | "note" => self.gather(alloc, word, rest),
            "fold" | "close" => self.end(alloc, word, rest),
            _ => self.read(alloc, word, rest),
        }
    }

    /// The thread has a private object from an earlier block.
    fn private(&mut self, alloc: Global, text: &str) -> Result<String, NoMemory> {
        match (body_of(alloc, text)?, body_of(alloc, text)?) {
            (Some(body), Some(copy)) => {
                self.privates.add(body)?;
                self.before.push(copy)?;
                shown(alloc, "added")
            }
            _ => shown(alloc, "no such object"),
        }
    }

    /// The thread makes an object.
    fn make(&mut self, alloc: Global, text: &str) -> Result<String, NoMemory> {
        let Some((object, class, size)) = made_by(text) else {
            return shown(alloc, "no such object");
        };
        let shape = shape(alloc)?;
        let body = opening_body(alloc, &shape, class, size, object)?;
        self.privates.add(body)?;
        self.did(Request::New(class, size), Reply::Made(object), None)?;
        shown(alloc, "made")
    }

    /// The thread did this.
    fn did(
        &mut self,
        request: Request,
        reply: Reply,
        woken: Option<ThreadId>,
    ) -> Result<(), NoMemory> {
        self.events.push(Event::Act {
            thread: THREAD,
            request,
            reply,
            woken,
        })?;
        Ok(())
    }

    /// The thread puts a value in a field of a private object, or of a shared one.
    fn write(&mut self, alloc: Global, word: &str, text: &str) -> Result<String, NoMemory> {
        let Some(set) = set(text) else {
            return shown(alloc, "no such field");
        };
        match word {
            "set" => self.set(alloc, set),
            _ => self.put(alloc, set),
        }
    }

    /// A put into a private object; where it has no such field nothing is done.
    fn set(&mut self, alloc: Global, set: Set) -> Result<String, NoMemory> {
        let found = self.privates.set(alloc, set);
        if found {
            self.did_put(set)?;
        }
        shown(alloc, found)
    }

    /// A put into a shared object.
    fn put(&mut self, alloc: Global, set: Set) -> Result<String, NoMemory> {
        self.did_put(set)?;
        self.block.put(alloc, &mut self.privates, set)?;
        shown(alloc, "put")
    }

    /// The thread put the value.
    fn did_put(&mut self, set: Set) -> Result<(), NoMemory> {
        let request = Request::Put(set.object, set.field, set.value);
        self.did(request, Reply::Done, None)
    }

    /// The thread prints a value, or notifies.
    fn gather(&mut self, alloc: Global, word: &str, text: &str) -> Result<String, NoMemory> {
        match (word, value(text), note_of(text)) {
            ("print", Some(value), _) => self.print(alloc, value),
            ("note", _, Some(note)) => self.note(alloc, note),
            _ => shown(alloc, "no such call"),
        }
    }

    /// The thread prints a value.
    fn print(&mut self, alloc: Global, value: Value) -> Result<String, NoMemory> {
        self.did(Request::Print(value), Reply::Done, None)?;
        self.block.print(value)?;
        shown(alloc, "printed")
    }

    /// The thread notifies.
    fn note(&mut self, alloc: Global, note: Note) -> Result<String, NoMemory> {
        let (request, woken) = note_request(note);
        self.did(request, Reply::Done, woken)?;
        self.block.note(note)?;
        shown(alloc, "noted")
    }

    /// The record of the events, or of the block.
    fn end(&mut self, alloc: Global, word: &str, text: &str) -> Result<String, NoMemory> {
        match (word, numbered_ending(text)) {
            ("fold", Some((seq, ending))) => self.fold(alloc, seq, ending),
            ("close", Some((seq, ending))) => self.close(alloc, seq, ending),
            _ => shown(alloc, "no such ending"),
        }
    }

    /// The record from the events.
    fn fold(&self, alloc: Global, seq: u64, ending: Ending) -> Result<String, NoMemory> {
        let shape = shape(alloc)?;
        let events = self.events.as_slice();
        let before = self.before.as_slice();
        let txn = fold(alloc, &shape, seq, THREAD, events, before, ending)?;
        record_text(alloc, &txn)
    }

    /// The record from the block.
    fn close(&mut self, alloc: Global, seq: u64, ending: Ending) -> Result<String, NoMemory> {
        self.closed = Some(self.block.close(alloc, seq, ending)?);
        self.last_record(alloc)
    }

    /// The last record closed.
    fn last_record(&self, alloc: Global) -> Result<String, NoMemory> {
        match &self.closed {
            Some(txn) => record_text(alloc, txn),
            None => shown(alloc, "no record"),
        }
    }

    /// What is in hand.
    fn read(&self, alloc: Global, word: &str, text: &str) -> Result<String, NoMemory> {
        let (first, second) = first_of(text);
        match (word, number(first), number(second)) {
            ("get", Some(object), _) => body_text(alloc, self.privates.get(object)),
            ("body", Some(object), _) => body_text(alloc, self.block.body(object)),
            ("value", Some(object), Some(field)) if field < 1000 => {
                debugged(alloc, self.block.value(object, field as u32))
            }
            ("changes", _, _) => self.changes(alloc, text),
            ("named", _, _) => self.named(alloc),
            _ => shown(alloc, "no such call"),
        }
    }

    /// The objects that what is in hand names.
    fn named(&self, alloc: Global) -> Result<String, NoMemory> {
        let mut named = Vec::new(alloc);
        self.block.named(&self.privates, &mut named)?;
        with_numbers(alloc, String::new(alloc), named.as_slice())
    }

    /// The changes of the last record for a client that holds these objects.
    fn changes(&self, alloc: Global, text: &str) -> Result<String, NoMemory> {
        let Some(txn) = &self.closed else {
            return shown(alloc, "no record");
        };
        let held = number_list(alloc, text)?;
        let changes = changes_for(alloc, txn, held.as_slice())?;
        sets_text(alloc, changes.as_slice())
    }
}
