//! The history that a journal commits, by one pass over its entries (`specs/Committed.antt`).
ghost use Rattle.std.specs.Prelude.{◌≡◌, ◌++◌, eqb, None, Some, OnOk, IfOk};
ghost use Rattle.dso_base.specs.declared.journal.Node.TheVariants.{Server};
ghost use Rattle.dso_base.specs.declared.lock.ThreadId.{ThreadId};
ghost use Rattle.dso_lookup.specs.Maps.{writes, written};
ghost use Rattle.dso_legal.specs.Committed.{committed_of};
ghost use Rattle.dso_legal.specs.JournalPass.{CountsFit, AllCountsFit, client_state_after, given_events, given_block, given_at, without_history, pass_state_at_client, pass_state_after};
ghost use Rattle.dso_legal.specs.JournalPassTables.{clients_in, kept_in, no_pass_state};

use crate::resolving::add_resolved;
use crate::threads::ClientState;
use crate::waiters::ServerState;
use dso_base::{Entry, Event, Input, Journal, NoMemory, Node, Sent, Shared, Up};
use dso_lookup::put;
use std::alloc::Global;
use std::collections::BTreeMap;

/// A pass over a journal, entry by entry: what is kept of the entries so far, without the history that they commit.
///
/// Each entry gives its part of the history as it is taken in, so that nobody needs the whole history at once. An entry
/// costs the logarithm of what is kept, beside the blocks and lists that it gives or changes.
#[derive(Drop)]
pub struct Committing {
    clients: BTreeMap<u8, ClientState>,
    lists: ServerState,
}

/// Takes in an event of the client in the table, where it stands.
fn act_in(
    alloc: Global,
    clients: &mut BTreeMap<u8, ClientState>,
    client: u8,
    event: &Shared<Event>,
) -> Result<(), NoMemory>
    requires { (t : ThreadId) → CountsFit ((clients_in clients.old client).threads t) }
    ensures { OnOk result (clients_in clients.new ≡ written (writes (λ c. eqb c client) (λ _. client_state_after event.now (clients_in clients.old client))) (clients_in clients.old)) }
{
    match clients.get_mut(&client) {
        Some(threads) => threads.take(alloc, event),
        None => {
            let mut threads = ClientState::new(alloc);
            threads.take(alloc, event)?;
            put(clients, client, threads)?;
            Ok(())
        }
    }
}

impl Committing {
    /// No entry was taken in yet. It takes no memory.
    pub fn new(alloc: Global) -> Committing
        ensures { kept_in result ≡ no_pass_state }
    {
        Committing {
            clients: BTreeMap::new(alloc),
            lists: ServerState::new(alloc),
        }
    }

    /// Takes in the event of an entry of the client.
    fn act(&mut self, alloc: Global, client: u8, event: &Shared<Event>) -> Result<(), NoMemory>
        requires { (t : ThreadId) → CountsFit (((kept_in self.old).clients client).threads t) }
        ensures { OnOk result (kept_in self.new ≡ pass_state_at_client client (Some event.now) (kept_in self.old)) }
    {
        act_in(alloc, &mut self.clients, client, event)?;
        Ok(())
    }

    /// Puts the block of the client's ending of this number at the end of the given events, unless the client is lost.
    fn give_block(
        &self,
        alloc: Global,
        client: u8,
        number: u64,
        given: &mut Vec<Shared<Event>>,
    ) -> Result<(), NoMemory>
        ensures { OnOk result (given.new.items ≡ given.old.items ++ given_block number ((kept_in self.now).clients client).ended ((kept_in self.now).lists.lost client) (kept_in self.now).lists.waiters) }
    {
        if self.lists.is_lost(client) {
            return Ok(());
        }
        if let Some(threads) = self.clients.get(&client) {
            add_resolved(alloc, &self.lists, threads.block(number), given)?;
        }
        Ok(())
    }

    /// Puts what an entry of the server commits at the end of the given events.
    fn give(
        &self,
        alloc: Global,
        input: &Input,
        given: &mut Vec<Shared<Event>>,
    ) -> Result<(), NoMemory>
        ensures { OnOk result (given.new.items ≡ given.old.items ++ given_events input.now (kept_in self.now)) }
    {
        match input {
            Input::TookUp(client, Up::Commit(txn)) => self.give_block(
                alloc,
                *client,
                txn.get().seq,
                given,
            ),
            Input::Lose(client) => {
                given.push(Shared::new(alloc, Event::Lost(*client))?)?;
                Ok(())
            }
            _ => Ok(()),
        }
    }

    /// Takes in an entry of the server, and puts at the end of the given events what it commits.
    fn serve(
        &mut self,
        alloc: Global,
        input: &Input,
        sent: &[Sent],
        given: &mut Vec<Shared<Event>>,
    ) -> Result<(), NoMemory>
        ensures kept { OnOk result (kept_in self.new ≡ without_history (pass_state_after Server input.now sent.now None (kept_in self.old))) }
        ensures given { OnOk result (given.new.items ≡ given.old.items ++ given_events input.now (kept_in self.old)) }
    {
        self.give(alloc, input, given)?;
        self.lists.take(alloc, input, sent)?;
        Ok(())
    }

    /// Takes in the next entry, and puts at the end of the given events what it commits: where the server took the
    /// record of a block, the events of the block, and where it lost a client, that loss.
    ///
    /// It answers `NoMemory` only where an allocation was refused; nothing is known of the pass and of the given events
    /// then.
    pub fn take(
        &mut self,
        alloc: Global,
        entry: &Entry,
        given: &mut Vec<Shared<Event>>,
    ) -> Result<(), NoMemory>
        requires { AllCountsFit (kept_in self.old) }
        ensures kept { OnOk result (kept_in self.new ≡ without_history (pass_state_after entry.now.node entry.now.input entry.now.sent entry.now.event (kept_in self.old))) }
        ensures given { OnOk result (given.new.items ≡ given.old.items ++ given_at entry.now.node entry.now.input (kept_in self.old)) }
    {
        match entry.node {
            Node::Server => self.serve(alloc, &entry.input, entry.sent.as_slice(), given),
            Node::Client(client) => match &entry.event {
                Some(event) => self.act(alloc, client, event),
                None => Ok(()),
            },
        }
    }
}

/// What the entries of a journal commit, one after the other.
fn all_given(alloc: Global, journal: &Journal) -> Result<Vec<Shared<Event>>, NoMemory>
    ensures { IfOk result (λ given. given.items ≡ committed_of journal.now) }
{
    let mut kept = Committing::new(alloc);
    let mut given = Vec::new(alloc);
    for entry in journal.entries.as_slice() {
        kept.take(alloc, entry, &mut given)?;
    }
    Ok(given)
}

/// The events themselves.
fn copied(alloc: Global, events: &[Shared<Event>]) -> Result<Vec<Event>, NoMemory>
    ensures { IfOk result (λ copies. copies.items ≡ events.now) }
{
    let mut copies = Vec::new(alloc);
    for event in events {
        copies.push(*event.get())?;
    }
    Ok(copies)
}

/// The committed history of a journal, lawful or not: the blocks of its clients' threads in the order in which the
/// server took their records, each notification with the thread that was woken, and the losses. `NoMemory` is answered
/// only where an allocation was refused.
///
/// It goes over the journal once: an entry costs the logarithm of what is kept, beside the blocks and lists that it
/// gives or changes.
pub fn committed(alloc: Global, journal: &Journal) -> Result<Vec<Event>, NoMemory>
    ensures { IfOk result (λ history. history.items ≡ committed_of journal.now) }
{
    let given = all_given(alloc, journal)?;
    copied(alloc, given.as_slice())
}
