//! The two ends of a connection, and the commands of each.

use crate::port_calls::{all, give, sent, take, tells};
use case_words::{debugged, first_of, number};
use dso_base::{Down, Items, LockName, NoMemory, ThreadId, Up};
use dso_port::{Port, both_ends};
use std::alloc::Global;

/// Both ends.
#[derive(Drop)]
pub struct Ends {
    client: Port<Up, Down>,
    server: Port<Down, Up>,
}

impl Ends {
    /// At first.
    pub fn new(alloc: Global) -> Result<Ends, NoMemory> {
        let (client, server) = both_ends(alloc)?;
        Ok(Ends { client, server })
    }

    /// The answer to a call of the client's end.
    pub fn told_client(&mut self, alloc: Global, text: &str) -> Result<String, NoMemory> {
        let (word, rest) = first_of(text);
        let (thing, clock) = two_numbers(rest);
        match word {
            "send" => sent(alloc, &mut self.client, Up::Flushed(thing), clock),
            "many" => self.many(alloc, thing),
            "strange" => self.strange(alloc),
            "give" => give(alloc, &mut self.client),
            "take" => take(alloc, &mut self.client),
            "all" => all(alloc, &mut self.client),
            _ => tells(alloc, &self.client),
        }
    }

    /// The answer to a call of the server's end.
    pub fn told_server(&mut self, alloc: Global, text: &str) -> Result<String, NoMemory> {
        let (word, rest) = first_of(text);
        let (thing, clock) = two_numbers(rest);
        match word {
            "send" => sent(alloc, &mut self.server, Down::Ids(thing), clock),
            "break" => self.broken(alloc),
            "give" => give(alloc, &mut self.server),
            "take" => take(alloc, &mut self.server),
            "all" => all(alloc, &mut self.server),
            _ => tells(alloc, &self.server),
        }
    }

    /// Says of the objects up to this one that they are flushed.
    fn many(&mut self, alloc: Global, last: u64) -> Result<String, NoMemory> {
        for object in 0..last {
            sent(alloc, &mut self.client, Up::Flushed(object + 1), object + 1)?;
        }
        debugged(alloc, last)
    }

    /// Returns a lock with a thread of a client that there can't be.
    fn strange(&mut self, alloc: Global) -> Result<String, NoMemory> {
        let mut threads = Vec::new(alloc);
        threads.push(ThreadId {
            client: 17,
            index: 1,
        })?;
        let message = Up::Return(LockName::Mon(5), Items::from_vec(threads));
        sent(alloc, &mut self.client, message, 1)
    }

    /// Breaks the connection, where the epoch fits.
    fn broken(&mut self, alloc: Global) -> Result<String, NoMemory> {
        if self.server.epoch() >= 1 << 30 {
            return debugged(alloc, "too often");
        }
        self.server.break_now();
        debugged(alloc, self.server.epoch())
    }
}

/// The first two words as numbers, 0 where they are none.
fn two_numbers(text: &str) -> (u64, u64) {
    let (first, rest) = first_of(text);
    let (second, _) = first_of(rest);
    (number(first).unwrap_or(0), number(second).unwrap_or(0))
}
