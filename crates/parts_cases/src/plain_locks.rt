//! Calls on the table of locks that are drawn from a number, each compared with what plain lists of leases and requests
//! tell.

use crate::plain_calls::{Comparison, drawn_client, drawn_level, drawn_lock, run};
use dso_base::{Level, LockName, NoMemory};
use dso_locks::{LockTable, Told};
use std::alloc::Global;

/// A lease or a request.
#[derive(Clone, Copy)]
struct Row {
    lock: LockName,
    client: u8,
    level: Level,
    is_recalled: bool,
}

/// All leases, and all requests in the order of their coming.
#[derive(Drop)]
struct Lists {
    leases: Vec<Row>,
    requests: Vec<Row>,
}

/// The table of locks, and the lists.
#[derive(Drop)]
struct LockComparison {
    locks: LockTable,
    lists: Lists,
}

/// Makes so many calls, drawn from a number, and tells whether each answered what the lists tell.
pub fn compared_locks(alloc: Global, first: &str, second: &str) -> Result<String, NoMemory> {
    let mut comparison = LockComparison {
        locks: LockTable::new(alloc),
        lists: Lists {
            leases: Vec::new(alloc),
            requests: Vec::new(alloc),
        },
    };
    run(alloc, &mut comparison, first, second)
}

impl Comparison for LockComparison {
    /// One call in fifty loses a client; of the others a client returns a lease that it has, and requests a lock that
    /// it neither has nor waits for.
    fn agrees(&mut self, alloc: Global, drawn: u64) -> Result<bool, NoMemory> {
        let (locks, lists) = (&mut self.locks, &mut self.lists);
        let row = Row {
            lock: drawn_lock(drawn),
            client: drawn_client(drawn / 4),
            level: drawn_level(drawn / 32 % 3 == 0),
            is_recalled: false,
        };
        if !reads_agree(locks, lists, row) {
            return Ok(false);
        }
        match lease_of(lists.leases.as_slice(), row) {
            _ if drawn / 100 % 50 == 0 => loses(alloc, locks, lists, row),
            Some(_) => returns(alloc, locks, lists, row),
            None => requests(alloc, locks, lists, row),
        }
    }
}

/// Whether the table tells of the row's client and lock what the lists tell.
fn reads_agree(locks: &LockTable, lists: &Lists, row: Row) -> bool {
    locks.lease(row.client, row.lock) == lease_of(lists.leases.as_slice(), row)
        && locks.waits(row.client, row.lock) == is_listed(lists.requests.as_slice(), row)
}

/// The level of the lease of the row's client and lock.
fn lease_of(leases: &[Row], row: Row) -> Option<Level> {
    leases
        .iter()
        .find(|lease| is_same(**lease, row))
        .map(|lease| lease.level)
}

/// Whether the list has the row's client and lock.
fn is_listed(rows: &[Row], row: Row) -> bool {
    rows.iter().any(|listed| is_same(*listed, row))
}

/// Whether the two rows are of one client and one lock.
fn is_same(row: Row, other: Row) -> bool {
    row.client == other.client && row.lock == other.lock
}

/// Whether the loss of the row's client is answered as the lists tell.
fn loses(
    alloc: Global,
    locks: &mut LockTable,
    lists: &mut Lists,
    row: Row,
) -> Result<bool, NoMemory> {
    lists.leases.retain(|lease| lease.client != row.client);
    lists
        .requests
        .retain(|request| request.client != row.client);
    let mut told = Vec::new(alloc);
    for lock in 0..4 {
        serve(lists, drawn_lock(lock), &mut told)?;
    }
    let answer = locks.lose(alloc, row.client)?;
    Ok(answer.as_slice() == told.as_slice())
}

/// Whether a return is answered as the lists tell.
fn returns(
    alloc: Global,
    locks: &mut LockTable,
    lists: &mut Lists,
    row: Row,
) -> Result<bool, NoMemory> {
    lists.leases.retain(|lease| !is_same(*lease, row));
    let mut told = Vec::new(alloc);
    serve(lists, row.lock, &mut told)?;
    let answer = locks.returned(alloc, row.client, row.lock)?;
    Ok(answer.as_slice() == told.as_slice())
}

/// Whether a request is answered as the lists tell.
fn requests(
    alloc: Global,
    locks: &mut LockTable,
    lists: &mut Lists,
    row: Row,
) -> Result<bool, NoMemory> {
    if locks.waits(row.client, row.lock) {
        return Ok(true);
    }
    lists.requests.push(row)?;
    let mut told = Vec::new(alloc);
    serve(lists, row.lock, &mut told)?;
    let answer = locks.request(alloc, row.client, row.lock, row.level)?;
    Ok(answer.as_slice() == told.as_slice())
}

/// Grants the lock's requests in their order, up to the first one that a lease of another client is against; then
/// recalls those leases, by rising client, that weren't recalled.
fn serve(lists: &mut Lists, lock: LockName, told: &mut Vec<Told>) -> Result<(), NoMemory> {
    for _ in 0..5 {
        let first = lists
            .requests
            .iter()
            .find(|request| request.lock == lock)
            .copied();
        let Some(first) = first else {
            return Ok(());
        };
        if lists.leases.iter().any(|lease| is_against(*lease, first)) {
            return recall(lists, first, told);
        }
        lists.requests.retain(|request| !is_same(*request, first));
        lists.leases.push(first)?;
        told.push(Told::Grant(first.client, lock, first.level))?;
    }
    Ok(())
}

/// Whether a lease of another client and a request of the same lock exclude each other.
fn is_against(lease: Row, request: Row) -> bool {
    let excludes = lease.level == Level::Write || request.level == Level::Write;
    lease.lock == request.lock && lease.client != request.client && excludes
}

/// Recalls the leases against the request.
fn recall(lists: &mut Lists, request: Row, told: &mut Vec<Told>) -> Result<(), NoMemory> {
    for client in 0..5 {
        let client = drawn_client(client);
        for lease in lists.leases.iter_mut() {
            if lease.client == client && !lease.is_recalled && is_against(*lease, request) {
                lease.is_recalled = true;
                told.push(Told::Recall(client, request.lock))?;
            }
        }
    }
    Ok(())
}
