//! The logs of the server and of two clients.

use crate::words::{MOST, number_of};
use case_words::debugged;
use dso_base::{Input, NoMemory, Node};
use dso_log::{NodeLog, merge};
use std::alloc::Global;

/// A log for each node.
#[derive(Drop)]
pub struct Logs {
    server: NodeLog,
    first: NodeLog,
    second: NodeLog,
}

impl Logs {
    /// At first.
    pub fn new(alloc: Global) -> Logs {
        Logs {
            server: NodeLog::new(Node::Server, alloc),
            first: NodeLog::new(Node::Client(1), alloc),
            second: NodeLog::new(Node::Client(2), alloc),
        }
    }

    /// Adds a flush to the log of a node, having heard a clock.
    pub fn added(&mut self, alloc: Global, text: &str) -> Result<String, NoMemory> {
        let (node, rest) = number_of(text);
        let (heard, _) = number_of(rest);
        match node {
            0 => added_to(alloc, &mut self.server, heard),
            1 => added_to(alloc, &mut self.first, heard),
            _ => added_to(alloc, &mut self.second, heard),
        }
    }

    /// The nodes and clocks of all entries in order. The logs are new then.
    pub fn merged(&mut self, alloc: Global) -> Result<String, NoMemory> {
        let old = std::mem::replace(self, Logs::new(alloc));
        let mut logs = Vec::new(alloc);
        logs.push(old.second)?;
        logs.push(old.first)?;
        logs.push(old.server)?;
        let journal = merge(alloc, logs)?;
        let mut places = Vec::new(alloc);
        for entry in journal.entries.as_slice() {
            places.push((entry.node, entry.clock))?;
        }
        debugged(alloc, places)
    }
}

/// Adds a flush to the log, having heard a clock.
fn added_to(alloc: Global, log: &mut NodeLog, heard: u64) -> Result<String, NoMemory> {
    if heard >= MOST || log.last_clock() >= MOST {
        return debugged(alloc, "too late");
    }
    log.reserve()?;
    debugged(
        alloc,
        log.add(heard, Input::Flush(1), Vec::new(alloc), None),
    )
}
