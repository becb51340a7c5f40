//! The locks by place, and the place of each lock (`specs/LockRows.antt`).
ghost use Rattle.slab.specs.Slab as slab;
ghost use Rattle.std.specs.Prelude.{◌≡◌, false, [], Some, OnOk, IfOk};
ghost use Rattle.std.specs.BTreeMap.{keys};
ghost use Rattle.std.specs.Option.{option_copied};
ghost use Rattle.dso_law.specs.Leases.{insert_lock};
ghost use Rattle.dso_locks.specs.declared.lock.Lock.{Lock};
ghost use Rattle.dso_locks.specs.Locks.{messages_of, lease_of, waits, requested_by, returned_by, lost_by, IsTold, AllTold};
ghost use Rattle.dso_locks.specs.Serving.{state_in, IsServed};
ghost use Rattle.dso_locks.specs.LockRows.{state_of, states_by, locks_in, requested_in, heard, FitsNews, ArePlaced, ChangesAt};
ghost use Rattle.dso_lookup.specs.Maps.{look};
ghost use Rattle.dso_lookup.specs.Orders.{lock_order};

use crate::lock::{Lock, serve};
use crate::news::{ClientNews, News};
use crate::queue::Request;
use crate::told::Told;
use dso_base::{Level, LockName, NoMemory};
use slab::Slab;
use std::alloc::Global;
use std::collections::BTreeMap;

/// The locks that were ever requested: each has a place, and keeps it.
#[derive(Drop)]
pub struct LockRows {
    pub index: BTreeMap<LockName, usize>,
    pub locks: Slab<Lock>,
}

/// The place of the lock, a new one where it was never requested before.
fn place_of(alloc: Global, tables: &mut LockRows, lock: LockName) -> Result<usize, NoMemory>
    requires { ArePlaced tables.old.index tables.old.locks }
    ensures placed { ArePlaced tables.new.index tables.new.locks }
    ensures place { IfOk result (λ place. look lock_order tables.new.index lock ≡ Some place) }
    ensures locks { OnOk result (locks_in tables.new ≡ locks_in tables.old) }
    ensures requested { OnOk result (requested_in tables.new ≡ insert_lock lock (requested_in tables.old)) }
{
    if let Some(place) = tables.index.get(&lock) {
        return Ok(*place);
    }
    let place = tables.locks.insert(Lock::new(alloc, lock))?;
    tables.index.insert(lock, place)?;
    Ok(place)
}

/// The lock, None where it was never requested.
fn lock_of(tables: &LockRows, lock: LockName) -> Option<&Lock>
    ensures { state_of (option_copied result) ≡ locks_in tables.now lock }
{
    let place = tables.index.get(&lock)?;
    tables.locks.get(*place)
}

/// The level of the client's lease of the lock, None where it has none.
pub(crate) fn standing_lease(tables: &LockRows, client: u8, lock: LockName) -> Option<Level>
    ensures { result ≡ lease_of client (locks_in tables.now lock) }
{
    match lock_of(tables, lock) {
        Some(lock) => lock.leases.get(&client).copied(),
        None => None,
    }
}

/// Whether the client has a request of the lock.
pub(crate) fn standing_request(tables: &LockRows, client: u8, lock: LockName) -> bool
    ensures { result ≡ waits client (locks_in tables.now lock) }
{
    match lock_of(tables, lock) {
        Some(lock) => lock.queue.has(client),
        None => false,
    }
}

/// A lock hears news of the client.
fn hear(lock: &mut Lock, client: u8, news: News) -> Result<(), NoMemory>
    requires { FitsNews client news (state_in lock.old) }
    ensures name { lock.new.name ≡ lock.old.name }
    ensures heard { OnOk result (state_in lock.new ≡ heard client news (state_in lock.old)) }
{
    match news {
        News::Request(level) => lock.queue.add(Request { client, level }),
        News::Return => {
            lock.leases.remove(&client);
            Ok(())
        }
        News::Loss => {
            lock.leases.remove(&client);
            lock.queue.drop_client(client);
            Ok(())
        }
    }
}

/// The lock at the place hears news of the client, and is served.
fn change_at(
    alloc: Global,
    locks: &mut Slab<Lock>,
    place: usize,
    by: ClientNews,
    told: &mut Vec<Told>,
) -> Result<(), NoMemory>
    requires { FitsNews by.client by.news (state_of (slab.get locks.old place)) }
    ensures changes { ChangesAt place locks.old locks.new }
    ensures served { OnOk result ((lock : Lock) → slab.get locks.old place ≡ Some lock → IsServed lock.name (heard by.client by.news (state_in lock)) (state_of (slab.get locks.new place)) (messages_of told.old.items) (messages_of told.new.items)) }
{
    if let Some(lock) = locks.get_mut(place) {
        hear(lock, by.client, by.news)?;
        serve(alloc, lock, told)?;
    }
    Ok(())
}

/// The lock hears that the client requests it, and is served.
pub(crate) fn request(
    alloc: Global,
    tables: &mut LockRows,
    client: u8,
    lock: LockName,
    level: Level,
) -> Result<Vec<Told>, NoMemory>
    requires placed { ArePlaced tables.old.index tables.old.locks }
    requires free { waits client (locks_in tables.old lock) ≡ false }
    ensures placed { ArePlaced tables.new.index tables.new.locks }
    ensures told { IfOk result (λ told. IsTold lock (requested_by client level) (locks_in tables.old) (locks_in tables.new) told.items) }
    ensures requested { OnOk result (requested_in tables.new ≡ insert_lock lock (requested_in tables.old)) }
{
    let mut told = Vec::new(alloc);
    let place = place_of(alloc, tables, lock)?;
    let by = ClientNews {
        client,
        news: News::Request(level),
    };
    change_at(alloc, &mut tables.locks, place, by, &mut told)?;
    Ok(told)
}

/// The lock hears that the client gives it back, and is served.
pub(crate) fn returned(
    alloc: Global,
    tables: &mut LockRows,
    client: u8,
    lock: LockName,
) -> Result<Vec<Told>, NoMemory>
    requires placed { ArePlaced tables.old.index tables.old.locks }
    ensures placed { ArePlaced tables.new.index tables.new.locks }
    ensures told { IfOk result (λ told. IsTold lock (returned_by client) (locks_in tables.old) (locks_in tables.new) told.items) }
    ensures requested { requested_in tables.new ≡ requested_in tables.old }
{
    let mut told = Vec::new(alloc);
    let Some(place) = tables.index.get(&lock).copied() else {
        return Ok(told);
    };
    let by = ClientNews {
        client,
        news: News::Return,
    };
    change_at(alloc, &mut tables.locks, place, by, &mut told)?;
    Ok(told)
}

/// Each lock of the index hears of the client's loss, and is served, in the order of the index.
pub(crate) fn lose(
    alloc: Global,
    index: &BTreeMap<LockName, usize>,
    locks: &mut Slab<Lock>,
    client: u8,
    told: &mut Vec<Told>,
) -> Result<(), NoMemory>
    requires placed { ArePlaced index.now locks.old }
    requires new { told.old.items ≡ [] }
    ensures placed { ArePlaced index.now locks.new }
    ensures told { OnOk result (AllTold (lost_by client) (keys index.now) (states_by index.now locks.old) (states_by index.now locks.new) told.new.items) }
{
    let by = ClientNews {
        client,
        news: News::Loss,
    };
    for (_, place) in index {
        change_at(alloc, locks, *place, by, told)?;
    }
    Ok(())
}
