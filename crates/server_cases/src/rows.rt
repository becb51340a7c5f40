//! A server, and the answer to a row.
//!
//! | Command | What it calls |
//! |---|---|
//! | `1 idask`, `1 fault 5`, `1 flushed 5` | the server takes that message of client 1 |
//! | `1 request m5 write`, `1 return m5 1.1 1.2` | a request, and a return with the threads that wait |
//! | `1 commit 1 1.1 5.0=7 exit:m5` | a record, its words told in `records.rt` |
//! | `1 lasting fault 5` | the same, where the message is to stay |
//! | `1 lose`, `1 lost` | the client is lost; whether it was |
//! | `collect 5 5>6` | a collection, its words told in `collecting.rt` |
//! | `1 due 4 0 break 1@5` | which triggers of the client are due, its words told in `triggers.rt` |
//!
//! A message that doesn't fit loses its client. Where it isn't to stay the server is made anew by the commands before it,
//! so that the next row finds what this one found.

use crate::answers::with_messages;
use crate::collecting::collect;
use crate::records::record;
use crate::triggers::due_of;
use case_words::{
    class_shape, field_shape, first_of, level, lock, number, row_answer, shown, single, small,
    thread_list,
};
use dso_base::{Down, Guard, Items, Kind, NoMemory, Shape, Shared, ThreadId, Up};
use dso_machine::{Branch, Code, ThreadBody};
use dso_server::{Server, Taken};
use std::alloc::{AllocError, Global};

/// How many batches a row may ask for.
const MOST_BATCHES: u64 = 1000;

/// A server of clients with two threads each, 1 to 3, that do nothing, and of this shape: class 0 with a long guarded
/// by the object's monitor and an object guarded by the named lock 1; one root, two named locks, one text.
#[derive(Drop)]
pub struct Rows {
    code: Code,
    server: Server,
    done: Vec<String>,
}

/// The shape.
fn shape(alloc: Global) -> Result<Shape, NoMemory> {
    let fields = [
        field_shape(Kind::Long, Guard::Own),
        field_shape(Kind::Ref, Guard::Name(1)),
    ];
    let class = class_shape(alloc, &fields)?;
    Ok(Shape {
        classes: single(alloc, class)?,
        roots: 1,
        names: 2,
        texts: 1,
    })
}

/// The bodies of the threads.
fn bodies(alloc: Global) -> Result<Items<ThreadBody>, NoMemory> {
    let mut bodies = Items::new(alloc);
    for client in 1..4 {
        bodies.push(body(alloc, ThreadId { client, index: 1 })?)?;
        bodies.push(body(alloc, ThreadId { client, index: 2 })?)?;
    }
    Ok(bodies)
}

/// A thread that does nothing.
fn body(alloc: Global, thread: ThreadId) -> Result<ThreadBody, NoMemory> {
    Ok(ThreadBody {
        thread,
        vars: 0,
        body: Branch::new(alloc, Items::new(alloc))?,
    })
}

/// The code and a server of it.
fn opened(alloc: Global) -> Result<Rows, NoMemory> {
    let bodies = bodies(alloc)?;
    let code = Code {
        shape: shape(alloc)?,
        methods: Items::new(alloc),
        bodies,
    };
    let server = Server::new(alloc, &code, 3)?;
    let done = Vec::new(alloc);
    Ok(Rows { code, server, done })
}

/// The return of the lock with the threads.
fn returned(alloc: Global, text: &str) -> Result<Option<Up>, NoMemory> {
    let (name, rest) = first_of(text);
    let Some(name) = lock(name) else {
        return Ok(None);
    };
    let waiting = thread_list(alloc, rest)?;
    Ok(Some(Up::Return(name, waiting)))
}

/// The request of the lock at the level.
fn requested(text: &str) -> Option<Up> {
    let (name, wanted) = first_of(text);
    Some(Up::Request(lock(name)?, level(wanted)?))
}

/// The message of the words, None where they tell none.
fn message(alloc: Global, text: &str) -> Result<Option<Up>, NoMemory> {
    let (word, rest) = first_of(text);
    match word {
        "idask" => Ok(Some(Up::IdAsk)),
        "fault" => Ok(number(rest).map(Up::Fault)),
        "flushed" => Ok(number(rest).map(Up::Flushed)),
        "request" => Ok(requested(rest)),
        "return" => returned(alloc, rest),
        "commit" => committed(alloc, rest),
        _ => Ok(None),
    }
}

/// A record to be applied, None where the words tell none.
fn committed(alloc: Global, text: &str) -> Result<Option<Up>, NoMemory> {
    match record(alloc, text)? {
        Some(txn) => Ok(Some(Up::Commit(Shared::new(alloc, txn)?))),
        None => Ok(None),
    }
}

/// What the server tells of the message, None where too many batches were given.
fn take(
    alloc: Global,
    code: &Code,
    server: &mut Server,
    client: u8,
    message: &Up,
) -> Result<Option<(Taken, Vec<(u8, Down)>)>, NoMemory> {
    if server.batches_given() > MOST_BATCHES {
        return Ok(None);
    }
    Ok(Some(server.take(alloc, code, client, message)?))
}

/// Does the command once more.
fn redo(alloc: Global, code: &Code, server: &mut Server, command: &str) -> Result<(), NoMemory> {
    let (first, rest) = first_of(command);
    if first == "collect" {
        collect(alloc, server, rest)?;
        return Ok(());
    }
    let Some(client) = small(first) else {
        return Ok(());
    };
    if rest == "lose" {
        server.lose(alloc, client)?;
        return Ok(());
    }
    let (words, _) = lasting(rest);
    if let Some(message) = message(alloc, words)? {
        take(alloc, code, server, client, &message)?;
    }
    Ok(())
}

/// The words of a message, and whether it is to stay.
fn lasting(words: &str) -> (&str, bool) {
    match words.strip_prefix("lasting ") {
        Some(message) => (message, true),
        None => (words, false),
    }
}

impl Rows {
    /// A new server.
    pub fn new(alloc: Global) -> Result<Rows, AllocError> {
        match opened(alloc) {
            Ok(rows) => Ok(rows),
            Err(_) => Err(AllocError),
        }
    }

    /// What is printed for the line.
    pub fn answered(&mut self, alloc: Global, line: &str) -> Result<String, AllocError> {
        let Some((name, command)) = line.split_once(": ") else {
            *self = Rows::new(alloc)?;
            return format!(in alloc; "{line}");
        };
        let answer = self.told(alloc, command);
        row_answer(alloc, name, answer)
    }

    /// The answer to the command.
    fn told(&mut self, alloc: Global, command: &str) -> Result<String, NoMemory> {
        let (first, rest) = first_of(command);
        if first == "collect" {
            return self.swept(alloc, command, rest);
        }
        let Some(client) = small(first) else {
            return shown(alloc, "no such client");
        };
        match rest {
            "lose" => self.lost(alloc, command, client),
            "lost" => shown(alloc, self.server.is_lost(client)),
            _ => match rest.strip_prefix("due ") {
                Some(text) => due_of(alloc, client, text),
                None => self.sent(alloc, command, client, rest),
            },
        }
    }

    /// The answer to a collection.
    fn swept(&mut self, alloc: Global, command: &str, words: &str) -> Result<String, NoMemory> {
        let swept = collect(alloc, &mut self.server, words)?;
        self.note(alloc, command)?;
        let text = format!(in alloc; "Swept {swept:?}")?;
        Ok(text)
    }

    /// The answer to a loss.
    fn lost(&mut self, alloc: Global, command: &str, client: u8) -> Result<String, NoMemory> {
        let messages = self.server.lose(alloc, client)?;
        self.note(alloc, command)?;
        with_messages(alloc, shown(alloc, "Lost")?, messages.as_slice())
    }

    /// The answer to the words of a message.
    fn sent(
        &mut self,
        alloc: Global,
        command: &str,
        client: u8,
        rest: &str,
    ) -> Result<String, NoMemory> {
        let (words, stays) = lasting(rest);
        let Some(message) = message(alloc, words)? else {
            return shown(alloc, "no such message");
        };
        let Some((taken, messages)) = take(alloc, &self.code, &mut self.server, client, &message)?
        else {
            return shown(alloc, "too many batches");
        };
        match taken {
            Taken::BadMessage(_) if !stays => self.make_anew(alloc)?,
            _ => self.note(alloc, command)?,
        }
        let text = format!(in alloc; "{taken:?}")?;
        with_messages(alloc, text, messages.as_slice())
    }

    /// Notes that the command was done.
    fn note(&mut self, alloc: Global, command: &str) -> Result<(), NoMemory> {
        self.done.push(format!(in alloc; "{command}")?)?;
        Ok(())
    }

    /// Makes the server anew, by the commands that were done.
    fn make_anew(&mut self, alloc: Global) -> Result<(), NoMemory> {
        self.server = Server::new(alloc, &self.code, 3)?;
        for command in &self.done {
            redo(alloc, &self.code, &mut self.server, command.as_str())?;
        }
        Ok(())
    }
}
