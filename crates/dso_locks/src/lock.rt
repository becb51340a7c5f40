//! One lock: its leases, its recalls and its requests (`dso_law/specs/Granting.antt`).
ghost use Rattle.std.specs.Prelude.{◌≡◌, ◌++◌, [], ◌∷◌, not, filter, Some, OnOk, IfOk};
ghost use Rattle.std.specs.BTreeMap.{IsOrdered};
ghost use Rattle.std.specs.BTreeSet.{contains};
ghost use Rattle.std.specs.Ordering.{nat_cmp};
ghost use Rattle.dso_base.specs.declared.message.Down.TheVariants as down;
ghost use Rattle.dso_law.specs.Granting.{to_each, without_client};
ghost use Rattle.dso_law.specs.RequestNeeds.{conflicts};
ghost use Rattle.dso_locks.specs.Locks.{unused, messages_of};
ghost use Rattle.dso_locks.specs.Requests.{waiter_of};
ghost use Rattle.dso_locks.specs.Serving.{state_in, against, against_in, Sends, IsServed};

use crate::queue::{Queue, Request};
use crate::told::Told;
use dso_base::{Level, LockName, NoMemory};
use std::alloc::Global;
use std::collections::{BTreeMap, BTreeSet};

/// A lock with the leases of its clients, the clients that had a recall since their last grant, and its requests.
#[derive(Drop)]
pub struct Lock {
    pub name: LockName,
    pub leases: BTreeMap<u8, Level>,
    pub recalled: BTreeSet<u8>,
    pub queue: Queue,
}

/// Whether a request at the first level and a lease at the second exclude each other.
fn excludes(level: Level, lease: Level) -> bool
    ensures { result ≡ conflicts level (Some lease) }
{
    match (level, lease) {
        (Level::Read, Level::Read) => false,
        _ => true,
    }
}

/// Puts the client at the end, if its lease is against the request.
fn add_against(
    request: Request,
    client: u8,
    lease: Level,
    clients: &mut Vec<u8>,
) -> Result<(), NoMemory>
    ensures { OnOk result (clients.new.items ≡ clients.old.items ++ against (waiter_of request) client (Some lease)) }
{
    if client != request.client && excludes(request.level, lease) {
        clients.push(client)?;
    }
    Ok(())
}

/// The clients whose leases are against the request, by rising number.
fn in_conflict(
    alloc: Global,
    leases: &BTreeMap<u8, Level>,
    request: Request,
) -> Result<Vec<u8>, NoMemory>
    ensures all { IfOk result (λ clients. clients.items ≡ against_in (waiter_of request) leases.now) }
    ensures ordered { IsOrdered nat_cmp leases.now }
{
    let mut clients = Vec::new(alloc);
    for (client, lease) in leases {
        add_against(request, *client, *lease, &mut clients)?;
    }
    Ok(clients)
}

/// Recalls the lease of the client.
fn recall(lock: &mut Lock, client: u8, told: &mut Vec<Told>) -> Result<(), NoMemory>
    ensures name { lock.new.name ≡ lock.old.name }
    ensures sends { OnOk result (Sends lock.old.name (to_each (down.Recall lock.old.name) (client ∷ [])) (state_in lock.old) (state_in lock.new) (messages_of told.old.items) (messages_of told.new.items)) }
{
    lock.recalled.insert(client)?;
    told.push(Told::Recall(client, lock.name))?;
    Ok(())
}

/// Grants the client's request.
fn grant(lock: &mut Lock, request: Request, told: &mut Vec<Told>) -> Result<(), NoMemory>
    ensures name { lock.new.name ≡ lock.old.name }
    ensures sends { OnOk result (Sends lock.old.name (to_each (down.Grant lock.old.name request.level) (request.client ∷ [])) (state_in lock.old) (state_in lock.new) (messages_of told.old.items) (messages_of told.new.items)) }
    ensures rest { OnOk result (lock.new.queue ≡ without_client request.client lock.old.queue) }
{
    lock.leases.insert(request.client, request.level)?;
    lock.recalled.remove(&request.client);
    lock.queue.drop_client(request.client);
    told.push(Told::Grant(request.client, lock.name, request.level))?;
    Ok(())
}

/// Recalls the leases of the clients.
fn recall_all(lock: &mut Lock, clients: &[u8], told: &mut Vec<Told>) -> Result<(), NoMemory>
    ensures name { lock.new.name ≡ lock.old.name }
    ensures sends { OnOk result (Sends lock.old.name (to_each (down.Recall lock.old.name) clients.now) (state_in lock.old) (state_in lock.new) (messages_of told.old.items) (messages_of told.new.items)) }
{
    for client in clients {
        recall(lock, *client, told)?;
    }
    Ok(())
}

/// Recalls those leases of the clients that had no recall since their grant.
fn recall_once(lock: &mut Lock, mut clients: Vec<u8>, told: &mut Vec<Told>) -> Result<(), NoMemory>
    ensures name { lock.new.name ≡ lock.old.name }
    ensures sends { OnOk result (Sends lock.old.name (to_each (down.Recall lock.old.name) (filter (λ c. not (contains nat_cmp lock.old.recalled c)) clients.items)) (state_in lock.old) (state_in lock.new) (messages_of told.old.items) (messages_of told.new.items)) }
{
    clients.retain(|client| !lock.recalled.contains(client));
    recall_all(lock, clients.as_slice(), told)
}

/// Serves the requests in their order: each is granted until one has another client's lease against it, and then the
/// leases against that one are recalled, if they weren't since their grant.
pub(crate) fn serve(alloc: Global, lock: &mut Lock, told: &mut Vec<Told>) -> Result<(), NoMemory>
    ensures name { lock.new.name ≡ lock.old.name }
    ensures served { OnOk result (IsServed lock.old.name (state_in lock.old) (state_in lock.new) (messages_of told.old.items) (messages_of told.new.items)) }
{
    while let Some(request) = lock.queue.first() {
        let clients = in_conflict(alloc, &lock.leases, request)?;
        if !clients.as_slice().is_empty() {
            return recall_once(lock, clients, told);
        }
        grant(lock, request, told)?;
    }
    Ok(())
}

impl Lock {
    /// A lock that no client asked for yet.
    pub fn new(alloc: Global, name: LockName) -> Lock
        ensures name { result.name ≡ name }
        ensures unused { state_in result ≡ unused }
    {
        Lock {
            name,
            leases: BTreeMap::new(alloc),
            recalled: BTreeSet::new(alloc),
            queue: Queue::new(alloc),
        }
    }
}
