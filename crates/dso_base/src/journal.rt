//! Nodes, inputs, entries and the journal; what it weighs, by `specs/Weight.antt`.
ghost use Rattle.std.specs.Prelude.{◌≡◌, ◌<◌, ◌^◌};
ghost use Rattle.dso_base.specs.Weight.{weight_of, entry_weight_of, sent_values_of, txn_values_of};

use crate::{Data, Down, Event, Items, Same, Shared, Txn, Up};

/// A node of the cluster.
#[derive(Clone, Copy, Debug, PartialEq, Eq, PartialOrd, Ord)]
pub enum Node {
    Server,
    Client(u8),
}

/// What one step of a node takes in.
#[derive(Clone, Debug, Drop)]
pub enum Input {
    /// The client's thread of this index acts.
    Act(u8),
    /// The server takes a message of this client.
    TookUp(u8, Up),
    /// The client takes a message of the server.
    TookDown(Down),
    /// The client drops its copy of the object.
    Flush(u64),
    /// The server gives this client up.
    Lose(u8),
    /// The connection of this client breaks.
    Break(u8),
    /// One end of this client's connection takes it up again.
    Rejoin(u8),
}

/// A message that a step sends, with the client where it goes to one.
#[derive(Clone, Debug, Drop)]
pub enum Sent {
    ToServer(Up),
    ToClient(u8, Down),
}

/// One step of one node: its clock, what it took in, what it sent in order, and the thread's event where it has one.
#[derive(Clone, Debug, Drop)]
pub struct Entry {
    pub clock: u64,
    pub node: Node,
    pub input: Input,
    pub sent: Items<Sent>,
    pub event: Option<Shared<Event>>,
}

/// The steps of a run, the first of them first.
#[derive(Clone, Debug, Drop)]
pub struct Journal {
    pub entries: Items<Entry>,
}

/// When a client is lost or its connection breaks: after so many messages of it that the server took.
#[derive(Clone, Copy, Debug, PartialEq, Eq)]
pub struct Trigger {
    pub client: u8,
    pub after: u64,
}

impl Data for Node {
    ghost use Rattle.std.proofs.Common.{rules};

    ghost faithful = { Prim.search rules };
}

impl Same for Node {
    fn same(&self, other: &Self) -> bool {
        self == other
    }
}

impl Data for Trigger {
    ghost use Rattle.std.proofs.Common.{rules};

    ghost faithful = { Prim.search rules };
}

impl Same for Trigger {
    fn same(&self, other: &Self) -> bool {
        self == other
    }
}

impl Data for Input {
    ghost use Rattle.std.proofs.Common.{rules};

    ghost faithful = { Prim.search rules };
}

impl Data for Sent {
    ghost use Rattle.std.proofs.Common.{rules};

    ghost faithful = { Prim.search rules };
}

impl Data for Entry {
    ghost use Rattle.std.proofs.Common.{rules};

    ghost faithful = { Prim.search rules };
}

impl Data for Journal {
    ghost use Rattle.std.proofs.Common.{rules};

    ghost faithful = { Prim.search rules };
}

impl Same for Input {
    fn same(&self, other: &Self) -> bool {
        match (self, other) {
            (Input::Act(index), Input::Act(that)) => index == that,
            (Input::TookUp(client, message), Input::TookUp(that, other)) => client == that
                && message.same(other),
            (Input::TookDown(message), Input::TookDown(other)) => message.same(other),
            (Input::Flush(object), Input::Flush(that)) => object == that,
            (Input::Lose(client), Input::Lose(that)) => client == that,
            (Input::Break(client), Input::Break(that)) => client == that,
            (Input::Rejoin(client), Input::Rejoin(that)) => client == that,
            _ => false,
        }
    }
}

impl Same for Sent {
    fn same(&self, other: &Self) -> bool {
        match (self, other) {
            (Sent::ToServer(message), Sent::ToServer(other)) => message.same(other),
            (Sent::ToClient(client, message), Sent::ToClient(that, other)) => client == that
                && message.same(other),
            _ => false,
        }
    }
}

impl Same for Entry {
    fn same(&self, other: &Self) -> bool {
        self.clock == other.clock
            && self.node == other.node
            && self.input.same(&other.input)
            && self.sent.same(&other.sent)
            && self.event.same(&other.event)
    }
}

impl Same for Journal {
    fn same(&self, other: &Self) -> bool {
        self.entries.same(&other.entries)
    }
}

impl Journal {
    /// One for each entry and one for each value in a message that an entry sends: the values of bodies, the sets
    /// and what was printed. It takes no memory.
    pub fn weight(&self) -> u64
        requires { weight_of self.now < 2 ^ 64 }
        ensures { result ≡ weight_of self.now }
    {
        let mut weight = 0;
        for entry in self.entries.as_slice() {
            weight += entry_weight(entry);
        }
        weight
    }
}

/// One for the entry and one for each value that it sends.
fn entry_weight(entry: &Entry) -> u64
    requires { entry_weight_of entry.now < 2 ^ 64 }
    ensures { result ≡ entry_weight_of entry.now }
{
    let mut values = 0;
    for sent in entry.sent.as_slice() {
        values += sent_values(sent);
    }
    values + 1
}

/// How many values a message has.
fn sent_values(sent: &Sent) -> u64
    requires { sent_values_of sent.now < 2 ^ 64 }
    ensures { result ≡ sent_values_of sent.now }
{
    match sent {
        Sent::ToServer(Up::Commit(txn)) => txn_values(txn.get()),
        Sent::ToClient(_, Down::Object(body)) => body.get().values.len() as u64,
        Sent::ToClient(_, Down::Changes(sets)) => sets.len() as u64,
        _ => 0,
    }
}

/// How many values a record has.
fn txn_values(txn: &Txn) -> u64
    requires { txn_values_of txn.now < 2 ^ 64 }
    ensures { result ≡ txn_values_of txn.now }
{
    let mut values = 0;
    for body in txn.news.as_slice() {
        values += body.values.len() as u64;
    }
    values + txn.sets.len() as u64 + txn.outs.len() as u64
}
