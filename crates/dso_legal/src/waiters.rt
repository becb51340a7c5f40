//! What the entries of the server tell of its clients and its lists of waiters, kept from entry to entry
//! (`specs/JournalPassTables.antt`).
ghost use Rattle.std.specs.Prelude.{◌≡◌, ◌++◌, cond, not, eqb, filter, true, None, OnOk, IfOk};
ghost use Rattle.std.specs.BTreeMap.{is_at};
ghost use Rattle.dso_lookup.specs.Maps.{written, writes, look};
ghost use Rattle.dso_plain.specs.KeyTests.{is_lock};
ghost use Rattle.dso_law.specs.Entries.{one_sent_down, by_sent_down};
ghost use Rattle.dso_law.specs.ClientWaiters.{without};
ghost use Rattle.dso_lookup.specs.Orders.{lock_order};
ghost use Rattle.dso_base.specs.declared.message.Down.TheVariants.{Wake};
ghost use Rattle.dso_base.specs.declared.message.Up.TheVariants.{Return};
ghost use Rattle.dso_base.specs.Following.{is_thread};
ghost use Rattle.dso_law.specs.ServerWaiters.{without_client, waiters_by_message, waiters_by, waiters_by_sent};
ghost use Rattle.dso_law.specs.ServerReadings.{loses};
ghost use Rattle.dso_legal.specs.JournalPass.{is_of_lost, server_state_after};
ghost use Rattle.dso_legal.specs.JournalPassTables.{no_server_state, server_state_in, waiters_in};

use dso_base::{Down, Input, Items, LockName, NoMemory, Sent, ThreadId, Up};
use dso_lookup::{put, take};
use dso_plain::is_thread;
use std::alloc::Global;
use std::collections::BTreeMap;
use std::mem::replace;

/// What is kept of the server: which clients are lost, and its list of waiters of each lock.
#[derive(Drop)]
pub(crate) struct ServerState {
    lost: BTreeMap<u8, bool>,
    waiters: BTreeMap<LockName, Items<ThreadId>>,
}

/// Takes out the list of a lock, an empty one where there is none.
fn take_list(
    alloc: Global,
    waiters: &mut BTreeMap<LockName, Items<ThreadId>>,
    lock: LockName,
) -> Vec<ThreadId>
    ensures was { result.items ≡ waiters_in waiters.old lock }
    ensures gone { look lock_order waiters.new ≡ written (writes (is_at (lock_order lock)) (λ _. None)) (look lock_order waiters.old) }
{
    match take(waiters, &lock) {
        Some(list) => list.into_vec(),
        None => Vec::new(alloc),
    }
}

/// Puts the threads at the end of the lock's list.
fn append(
    alloc: Global,
    waiters: &mut BTreeMap<LockName, Items<ThreadId>>,
    lock: LockName,
    threads: &[ThreadId],
) -> Result<(), NoMemory>
    ensures { OnOk result (waiters_in waiters.new ≡ (λ l. cond (is_lock l lock) (waiters_in waiters.old l ++ threads.now) (waiters_in waiters.old l))) }
{
    if threads.is_empty() {
        return Ok(());
    }
    let mut list = take_list(alloc, waiters, lock);
    list.extend_from_slice(threads)?;
    put(waiters, lock, Items::from_vec(list))?;
    Ok(())
}

/// Takes the thread out of the list.
fn leave_out(list: &mut Vec<ThreadId>, thread: ThreadId)
    ensures { list.new.items ≡ without thread list.old.items }
{
    list.retain(|waiter| {
        let waiter: &ThreadId = waiter;
        !is_thread(thread, *waiter)
    });
}

/// Takes the threads of the client out of the list.
fn leave_client_out(list: &mut Vec<ThreadId>, client: u8)
    ensures { list.new.items ≡ without_client client list.old.items }
{
    list.retain(|waiter| {
        let waiter: &ThreadId = waiter;
        waiter.client != client
    });
}

/// Takes the thread out of the lock's list.
fn wake(
    alloc: Global,
    waiters: &mut BTreeMap<LockName, Items<ThreadId>>,
    lock: LockName,
    thread: ThreadId,
) -> Result<(), NoMemory>
    ensures { OnOk result (waiters_in waiters.new ≡ (λ l. cond (is_lock l lock) (without thread (waiters_in waiters.old l)) (waiters_in waiters.old l))) }
{
    let mut list = take_list(alloc, waiters, lock);
    leave_out(&mut list, thread);
    put(waiters, lock, Items::from_vec(list))?;
    Ok(())
}

/// Takes the threads of the client out of all lists.
fn lose(
    alloc: Global,
    waiters: &mut BTreeMap<LockName, Items<ThreadId>>,
    client: u8,
) -> Result<(), NoMemory>
    ensures { OnOk result (waiters_in waiters.new ≡ (λ l. without_client client (waiters_in waiters.old l))) }
{
    let mut before = replace(waiters, BTreeMap::new(alloc));
    while let Some((lock, list)) = before.pop_first() {
        let mut list = list.into_vec();
        leave_client_out(&mut list, client);
        put(waiters, lock, Items::from_vec(list))?;
    }
    Ok(())
}

impl ServerState {
    /// A server that made no entry yet. It takes no memory.
    pub(crate) fn new(alloc: Global) -> ServerState
        ensures { server_state_in result ≡ no_server_state }
    {
        ServerState {
            lost: BTreeMap::new(alloc),
            waiters: BTreeMap::new(alloc),
        }
    }

    /// Whether the client is lost. It takes no memory.
    pub(crate) fn is_lost(&self, client: u8) -> bool
        ensures { result ≡ (server_state_in self.now).lost client }
    {
        match self.lost.get(&client) {
            Some(lost) => *lost,
            None => false,
        }
    }

    /// The list of a lock. It takes no memory.
    pub(crate) fn waiters(&self, lock: LockName) -> &[ThreadId]
        ensures { result.now ≡ (server_state_in self.now).waiters lock }
    {
        match self.waiters.get(&lock) {
            Some(list) => list.as_slice(),
            None => &[],
        }
    }

    /// Whether the input is a message of a lost client.
    fn is_of_lost(&self, input: &Input) -> bool
        ensures { result ≡ is_of_lost input.now (server_state_in self.now).lost }
    {
        match input {
            Input::TookUp(client, _) => self.is_lost(*client),
            _ => false,
        }
    }

    /// What the server takes in makes of the lists.
    fn hear(&mut self, alloc: Global, input: &Input) -> Result<(), NoMemory>
        ensures { OnOk result (server_state_in self.new ≡ record { lost = λ c. cond (loses c input.now) true ((server_state_in self.old).lost c); waiters = λ l. waiters_by l input.now ((server_state_in self.old).waiters l) }) }
    {
        match input {
            Input::TookUp(_, Up::Return(lock, threads)) => {
                append(alloc, &mut self.waiters, *lock, threads.as_slice())?;
                Ok(())
            }
            Input::Lose(client) => {
                put(&mut self.lost, *client, true)?;
                lose(alloc, &mut self.waiters, *client)?;
                Ok(())
            }
            _ => Ok(()),
        }
    }

    /// What a message sent makes of the lists.
    fn tell(&mut self, alloc: Global, sent: &Sent) -> Result<(), NoMemory>
        ensures lost { OnOk result (self.new.lost ≡ self.old.lost) }
        ensures waiters { OnOk result (waiters_in self.new.waiters ≡ (λ l. one_sent_down (waiters_by_sent l) (waiters_in self.old.waiters l) sent.now)) }
    {
        match sent {
            Sent::ToClient(_, Down::Wake(lock, thread)) => {
                wake(alloc, &mut self.waiters, *lock, *thread)
            }
            _ => Ok(()),
        }
    }

    /// What all messages sent make of the lists.
    fn tell_all(&mut self, alloc: Global, messages: &[Sent]) -> Result<(), NoMemory>
        ensures lost { OnOk result (self.new.lost ≡ self.old.lost) }
        ensures waiters { OnOk result (waiters_in self.new.waiters ≡ (λ l. by_sent_down (waiters_by_sent l) messages.now (waiters_in self.old.waiters l))) }
    {
        for sent in messages {
            self.tell(alloc, sent)?;
        }
        Ok(())
    }

    /// Takes in an entry of the server. Where an allocation was refused, nothing is known of what stands here
    /// afterwards.
    pub(crate) fn take(
        &mut self,
        alloc: Global,
        input: &Input,
        sent: &[Sent],
    ) -> Result<(), NoMemory>
        ensures { OnOk result (server_state_in self.new ≡ server_state_after input.now sent.now (server_state_in self.old)) }
    {
        if self.is_of_lost(input) {
            return Ok(());
        }
        self.hear(alloc, input)?;
        self.tell_all(alloc, sent)?;
        Ok(())
    }
}
