//! The entries of one node (`specs/Logs.antt`).
ghost use Rattle.std.specs.Prelude.{◌<◌, ◌-◌, ◌^◌, ◌≡◌, [], OnErr, OnOk, min, sum_by, true, false};
ghost use Rattle.dso_base.specs.Weight.{entry_weight_of};
ghost use Rattle.dso_log.specs.Logs.{LogKeeps, entry_of, last_clock, next_clock, with_entry};

use crate::with_weight;
use dso_base::{Entry, Event, Input, Items, NoMemory, Node, Sent, Shared};
use std::alloc::Global;
use std::marker::Model;

/// The entries of one node, the first of them first. Contracts see them, and whether there is room for one more (`Log`).
/// Each is the node's own, and has a greater clock than the one before it, the first at least 1 (`LogKeeps`).
#[derive(Drop)]
pub struct NodeLog {
    node: Node,
    entries: Vec<Entry>,
    has_room: bool,
    /// What the entries weigh, and 2^64 - 1 where that is more.
    weight: u64,
}

impl Model for NodeLog {
    ghost use Rattle.std.specs.Prelude.{◌<◌, ◌-◌, ◌^◌, ◌≡◌, true, length, min, sum_by};
    ghost use Rattle.std.specs.Vec.{vec_capacity};
    ghost use Rattle.dso_base.specs.Weight.{entry_weight_of};
    ghost use Rattle.dso_log.specs.Logs.{Log, LogKeeps};

    ghost Value = { Log };

    ghost view = { λ log. record { node = log.node; entries = log.entries.items; has_room = log.has_room } };

    ghost invariant = { λ log. (log.has_room ≡ true → length log.entries.items < vec_capacity log.entries) × LogKeeps log.node log.entries.items × (log.weight ≡ min (sum_by entry_weight_of log.entries.items) (2 ^ 64 - 1)) };
}

impl NodeLog {
    /// The log of a node that has no entry yet, without room for one.
    pub fn new(node: Node, alloc: Global) -> NodeLog
        ensures { result ≡ record { node = node; entries = []; has_room = false } }
    {
        NodeLog {
            node,
            entries: Vec::new(alloc),
            has_room: false,
            weight: 0,
        }
    }

    /// Makes room for one more entry. It answers `NoMemory` where an allocation was refused, and the log is then as before.
    pub fn reserve(&mut self) -> Result<(), NoMemory>
        ensures ok { OnOk result (self.new ≡ record self.old { has_room = true }) }
        ensures err { OnErr result (self.new ≡ self.old) }
    {
        self.entries.reserve(1)?;
        self.has_room = true;
        Ok(())
    }

    /// Adds an entry in the room that was made for it. Its clock, which is answered, is one more than the greater of the last entry's
    /// and the one that was heard. It takes no memory.
    pub fn add(
        &mut self,
        heard: u64,
        input: Input,
        sent: Vec<Sent>,
        event: Option<Shared<Event>>,
    ) -> u64
        requires room { self.old.has_room ≡ true }
        requires clock { next_clock heard self.old < 2 ^ 64 }
        ensures clock { result ≡ next_clock heard self.old }
        ensures added { self.new ≡ with_entry (entry_of heard input sent.items event self.old) self.old }
    {
        let clock = self.last_clock().max(heard) + 1;
        let entry = Entry {
            clock,
            node: self.node,
            input,
            sent: Items::from_vec(sent),
            event,
        };
        self.has_room = false;
        self.weight = with_weight(self.weight, &entry);
        match self.entries.push(entry) {
            Ok(()) => clock,
            Err(_) => unreachable!(),
        }
    }

    /// The clock of the last entry, 0 where there is none. It takes no memory.
    pub fn last_clock(&self) -> u64
        ensures { result ≡ last_clock self.now }
    {
        match self.entries.last() {
            Some(entry) => entry.clock,
            None => 0,
        }
    }

    /// What all entries weigh together, and 2^64 - 1 where that is more. It takes no memory.
    pub fn weight(&self) -> u64
        ensures { result ≡ min (sum_by entry_weight_of self.now.entries) (2 ^ 64 - 1) }
    {
        self.weight
    }

    /// All entries in order, each of the node and with a greater clock than the one before it. It takes no memory.
    pub fn into_entries(self) -> Vec<Entry>
        ensures entries { result.items ≡ self.entries }
        ensures keeps { LogKeeps self.node self.entries }
    {
        self.entries
    }
}
