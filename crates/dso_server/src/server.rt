//! The server's core (`specs/Answering.antt`).
ghost use Rattle.std.specs.Prelude.{ℕ, ◌≡◌, ◌↔◌, ◌≤◌, ◌+◌, ◌<◌, ◌^◌, true, List, [], IfOk, OnErr, OnOk};
ghost use Rattle.std.specs.List.Sorted.{IsStrictlySortedBy};
ghost use Rattle.std.specs.Ordering.{nat_cmp};
ghost use Rattle.dso_base.specs.declared.journal.Entry.{Entry};
ghost use Rattle.dso_law.specs.ServerReadings.{is_lost};
ghost use Rattle.dso_law.specs.Settings.{Settings};
ghost use Rattle.dso_locks.specs.Locks.{IsClient};
ghost use Rattle.dso_lookup.specs.Search.{is_listed};
ghost use Rattle.dso_server.specs.Answering.{IsLost, IsTaken, given_by};
ghost use Rattle.dso_server.specs.Collecting.{HasSwept, IsGarbageAt};
ghost use Rattle.dso_server.specs.Lacking.{KnowsNamed, LacksNothing};
ghost use Rattle.dso_server.specs.ServerStands.{ServerStands};
ghost use Rattle.dso_server.specs.Threads.{RunsThreadsOf};

use crate::answers::{answer, lost};
use crate::batches::Batches;
use crate::fits::fits;
use crate::taken::{Taken, tag};
use crate::threads::{Threads, opening, threads_of};
use crate::waiters::Waiters;
use dso_base::{Down, NoMemory, Up};
use dso_gc::garbage;
use dso_locks::LockTable;
use dso_machine::Code;
use dso_store::Store;
use std::alloc::Global;
use std::collections::{BTreeMap, BTreeSet};

/// The server of a cluster: who was lost, the batches of ids that were given, the graph, the locks, the waiters and the
/// threads. Contracts see for which lists of the server's entries it stands (`ServerStands`).
///
/// A call costs the logarithm of what the server holds, for each item of its message and each message that it answers;
/// losing a client costs that for each lock that was ever requested or waited on. After `NoMemory` the server is spent,
/// but for that of a collection: its calls still return, but it stands for no list that is told.
#[derive(Drop)]
pub struct Server {
    pub(crate) lost: BTreeSet<u8>,
    pub(crate) ids: Batches,
    pub(crate) store: Store,
    pub(crate) locks: LockTable,
    pub(crate) waiters: Waiters,
    pub(crate) threads: Threads,
}

impl Server {
    /// The server before its first entry, of a cluster of so many clients that runs this code: it lacks nothing. How many clients there are it
    /// doesn't keep: its answers hold of whatever cluster has the code's shape and threads.
    ///
    /// It answers `NoMemory` where an allocation was refused.
    pub fn new(alloc: Global, code: &Code, clients: u8) -> Result<Server, NoMemory>
        ensures stands { IfOk result (λ server. (p : Settings) → p.shape ≡ code.now.shape → RunsThreadsOf code.now p → p.clients ≡ clients → ServerStands p server []) }
        ensures lacks { IfOk result (λ server. (p : Settings) → p.shape ≡ code.now.shape → LacksNothing p server []) }
        ensures given { IfOk result (λ server. given_by server ≡ 0) }
    {
        let _ = clients;
        let store = Store::new(alloc, &code.shape)?;
        let listed = threads_of(alloc, code.bodies.as_slice())?;
        let threads = opening(alloc, listed.as_slice())?;
        Ok(Server {
            lost: BTreeSet::new(alloc),
            ids: Batches::new(alloc),
            store,
            locks: LockTable::new(alloc),
            waiters: BTreeMap::new(alloc),
            threads,
        })
    }

    /// Takes a message of a client of the cluster, whose code is that of [`Server::new`]. Fewer than 2^54 batches of ids were
    /// given before.
    ///
    /// It is `Done` exactly where the client isn't lost and the message fits: the messages are those of the server rule's
    /// row, in its order, and the server stands for its entries with the one in which it took the message. It is `Gone`
    /// exactly where the client was lost before: nothing is sent and nothing changed. It is `BadMessage`, with the number of
    /// the message's kind, exactly where the client isn't lost and the message doesn't fit: nothing of the message is done,
    /// and its client is lost as by [`Server::lose`]. The messages are those of that loss, and the server stands for its
    /// entries with the one in which it lost the client. What it lacks of the stored objects it lacked before.
    ///
    /// So it is where the server has the stored body of each object that the message names, if the client isn't lost.
    ///
    /// It answers `NoMemory` where an allocation was refused.
    pub fn take(
        &mut self,
        alloc: Global,
        code: &Code,
        client: u8,
        message: &Up,
    ) -> Result<(Taken, Vec<(u8, Down)>), NoMemory>
        requires { given_by self.old < 2 ^ 54 }
        ensures taken { IfOk result (λ answer. (p : Settings) (es : List Entry) → p.shape ≡ code.now.shape → ServerStands p self.old es → IsClient p client → KnowsNamed p self.old client message.now es → IsTaken p client message.now answer.0 answer.1.items self.old self.new es) }
        ensures given { OnOk result (given_by self.new ≤ given_by self.old + 1) }
    {
        if self.lost.contains(&client) {
            return Ok((Taken::Gone, Vec::new(alloc)));
        }
        if !fits(self, &code.shape, client, message) {
            let messages = lost(alloc, self, client)?;
            return Ok((Taken::BadMessage(tag(message)), messages));
        }
        let messages = answer(alloc, self, client, message)?;
        Ok((Taken::Done, messages))
    }

    /// Loses the client: its leases, its requests, its waiters and what it holds are gone, and the queues of all locks are
    /// served, by rising lock. The messages are those of the server rule, in its order, and the server stands for its
    /// entries with the one in which it lost the client. What it lacks of the stored objects it lacked before.
    ///
    /// It answers `NoMemory` where an allocation was refused.
    pub fn lose(&mut self, alloc: Global, client: u8) -> Result<Vec<(u8, Down)>, NoMemory>
        ensures lost { IfOk result (λ messages. (p : Settings) (es : List Entry) → ServerStands p self.old es → IsLost p client messages.items self.old self.new es) }
        ensures given { OnOk result (given_by self.new ≡ given_by self.old) }
    {
        lost(alloc, self, client)
    }

    /// Drops the bodies of the garbage: of the objects that have a body and that no path reaches from a start, object 0 among
    /// them. Paths go along these edges, and from an object to each one that its body names. It tells which objects that
    /// were, each once, by rising id. All else is as before, so it stands for the entries for which it stood: who holds an
    /// object that was swept may flush it, and a Fault of it doesn't fit any longer.
    ///
    /// It costs what [`garbage`] does with all bodies and what they name. It answers `NoMemory` where an allocation was
    /// refused, and the server is as before then: nothing was dropped.
    pub fn collect(
        &mut self,
        alloc: Global,
        starts: &[u64],
        edges: &[(u64, u64)],
    ) -> Result<Vec<u64>, NoMemory>
        requires { is_listed 0 starts.now ≡ true }
        ensures rising { IfOk result (λ swept. IsStrictlySortedBy nat_cmp swept.items) }
        ensures exact { IfOk result (λ swept. (o : ℕ) → (is_listed o swept.items ≡ true) ↔ IsGarbageAt self.old starts.now edges.now o) }
        ensures gone { IfOk result (λ swept. HasSwept swept.items self.old self.new) }
        ensures stands { OnOk result ((p : Settings) (es : List Entry) → ServerStands p self.old es → ServerStands p self.new es) }
        ensures unchanged { OnErr result (self.new ≡ self.old) }
    {
        let swept = self.garbage(alloc, starts, edges)?;
        self.store.sweep(swept.as_slice());
        Ok(swept)
    }

    /// The garbage.
    fn garbage(
        &self,
        alloc: Global,
        starts: &[u64],
        edges: &[(u64, u64)],
    ) -> Result<Vec<u64>, NoMemory>
        ensures rising { IfOk result (λ swept. IsStrictlySortedBy nat_cmp swept.items) }
        ensures exact { IfOk result (λ swept. (o : ℕ) → (is_listed o swept.items ≡ true) ↔ IsGarbageAt self.now starts.now edges.now o) }
    {
        let objects = self.store.objects(alloc)?;
        let mut all = self.store.edges(alloc)?;
        all.extend_from_slice(edges)?;
        garbage(alloc, objects.as_slice(), starts, all.as_slice())
    }

    /// How many batches of ids it gave. It takes no memory.
    pub fn batches_given(&self) -> u64
        ensures { result ≡ given_by self.now }
    {
        self.ids.given()
    }

    /// Whether the client was lost. It takes no memory.
    pub fn is_lost(&self, client: u8) -> bool
        ensures { (p : Settings) (es : List Entry) → ServerStands p self.now es → result ≡ is_lost client es }
    {
        self.lost.contains(&client)
    }
}
