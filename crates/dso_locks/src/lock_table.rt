//! The server's table of locks (`specs/Locks.antt`).
ghost use Rattle.std.specs.Prelude.{◌≡◌, false, [], flat_map, OnOk, IfOk};
ghost use Rattle.dso_law.specs.Leases.{insert_lock};
ghost use Rattle.dso_law.specs.Settings.{Settings};
ghost use Rattle.dso_base.specs.declared.lock.LockName.{LockName};
ghost use Rattle.dso_locks.specs.Locks.{unused, lease_of, waits, requested_by, returned_by, lost_by, at_lock, after_told, messages_of, IsWithin, serves};
ghost use Rattle.dso_locks.specs.LockRows.{locks_in, requested_in};

use crate::tables::{LockRows, lose, request, returned, standing_lease, standing_request};
use crate::told::Told;
use dso_base::{Level, LockName, NoMemory};
use slab::Slab;
use std::alloc::Global;
use std::collections::BTreeMap;
use std::marker::Model;

/// The locks that clients requested of the server: who has a lease of which, who had a recall of it since, and who waits
/// for it. Contracts see how each lock stands (`locks_in`), and which were ever requested (`requested_in`).
///
/// A call of a lock costs the logarithm of the number of locks, and the number of the lock's clients for each grant. After
/// `NoMemory` the table is spent: how its locks stand is not told.
#[derive(Drop)]
pub struct LockTable {
    tables: LockRows,
}

impl Model for LockTable {
    ghost use Rattle.dso_locks.specs.declared.tables.LockRows.{LockRows};
    ghost use Rattle.dso_locks.specs.contracts.tables.LockRows.{the_row};
    ghost use Rattle.dso_locks.specs.LockRows.{ArePlaced};

    ghost Value = { LockRows };

    ghost coded = { the_row.coded };

    ghost view = { λ table. table.tables };

    ghost invariant = { λ table. ArePlaced table.tables.index table.tables.locks };
}

impl LockTable {
    /// No lock was ever requested.
    pub fn new(alloc: Global) -> LockTable
        ensures locks { locks_in result ≡ (λ _. unused) }
        ensures requested { requested_in result ≡ [] }
    {
        let tables = LockRows {
            index: BTreeMap::new(alloc),
            locks: Slab::new(alloc),
        };
        LockTable { tables }
    }

    /// The client requests the lock at the level, where it has no request of it: its request comes last, and the lock is
    /// served. The grants and recalls are answered that the server rule sends then, for any cluster that has the lock's
    /// clients.
    ///
    /// It answers `NoMemory` where an allocation was refused.
    pub fn request(
        &mut self,
        alloc: Global,
        client: u8,
        lock: LockName,
        level: Level,
    ) -> Result<Vec<Told>, NoMemory>
        requires { waits client (locks_in self.old lock) ≡ false }
        ensures told { IfOk result (λ told. (p : Settings) → IsWithin p (requested_by client level (locks_in self.old lock)) → messages_of told.items ≡ serves p lock (requested_by client level (locks_in self.old lock))) }
        ensures locks { IfOk result (λ told. locks_in self.new ≡ after_told told.items (at_lock lock (requested_by client level) (locks_in self.old))) }
        ensures requested { OnOk result (requested_in self.new ≡ insert_lock lock (requested_in self.old)) }
    {
        request(alloc, &mut self.tables, client, lock, level)
    }

    /// The client gives its lease of the lock back, and the lock is served. The grants and recalls are answered that the
    /// server rule sends then, for any cluster that has the lock's clients.
    ///
    /// It answers `NoMemory` where an allocation was refused.
    pub fn returned(
        &mut self,
        alloc: Global,
        client: u8,
        lock: LockName,
    ) -> Result<Vec<Told>, NoMemory>
        ensures told { IfOk result (λ told. (p : Settings) → IsWithin p (returned_by client (locks_in self.old lock)) → messages_of told.items ≡ serves p lock (returned_by client (locks_in self.old lock))) }
        ensures locks { IfOk result (λ told. locks_in self.new ≡ after_told told.items (at_lock lock (returned_by client) (locks_in self.old))) }
        ensures requested { requested_in self.new ≡ requested_in self.old }
    {
        returned(alloc, &mut self.tables, client, lock)
    }

    /// The client is lost: its leases and its requests are gone, and each lock that was ever requested is served, by rising
    /// lock. The grants and recalls are answered that the server rule sends then, for any cluster that has the locks'
    /// clients. It costs a step for each of these locks.
    ///
    /// It answers `NoMemory` where an allocation was refused.
    pub fn lose(&mut self, alloc: Global, client: u8) -> Result<Vec<Told>, NoMemory>
        ensures told { IfOk result (λ told. (p : Settings) → ((l : LockName) → IsWithin p (lost_by client (locks_in self.old l))) → messages_of told.items ≡ flat_map (λ l. serves p l (lost_by client (locks_in self.old l))) (requested_in self.old)) }
        ensures locks { IfOk result (λ told. locks_in self.new ≡ after_told told.items (λ l. lost_by client (locks_in self.old l))) }
        ensures requested { requested_in self.new ≡ requested_in self.old }
    {
        let mut told = Vec::new(alloc);
        lose(
            alloc,
            &self.tables.index,
            &mut self.tables.locks,
            client,
            &mut told,
        )?;
        Ok(told)
    }

    /// The level of the client's lease of the lock, None where it has none. It takes no memory.
    pub fn lease(&self, client: u8, lock: LockName) -> Option<Level>
        ensures { result ≡ lease_of client (locks_in self.now lock) }
    {
        standing_lease(&self.tables, client, lock)
    }

    /// Whether the client has a request of the lock that isn't granted. It takes no memory.
    pub fn waits(&self, client: u8, lock: LockName) -> bool
        ensures { result ≡ waits client (locks_in self.now lock) }
    {
        standing_request(&self.tables, client, lock)
    }
}
