//! The list of holds of one client (`specs/Holds.antt`).
ghost use Rattle.std.specs.Prelude.{◌≡◌, ◌↔◌, ◌+◌, ◌^◌, ◌<◌, ◌≤◌, None, Some, IsTrue, IfNone, IfSome, IfOk, OnErr};
ghost use Rattle.dso_hold.specs.declared.held.Enter.TheVariants.{Entered};
ghost use Rattle.dso_hold.specs.Holds.{hold_in, with_hold, level_at, count_at, exited, HoldsEnough, HoldsSome, IsFree, NoConflict, IsFirstInConflict, IsAnswer};

use crate::entries::{enter, exit};
use crate::held::{Enter, Held};
use crate::tables::{HoldTables, first_in_conflict, held, holds_some, is_free};
use dso_base::{Level, LockName, NoMemory, ThreadId};
use std::alloc::Global;
use std::collections::BTreeMap;
use std::marker::Model;

/// Which threads of a client hold which locks. Contracts see how a thread holds a lock (`hold_in`), None where it doesn't.
///
/// A hold has the level of its first entry and the number of entries. Who holds a lock at `Write` holds it alone. The
/// holds stand by lock, monitors before names, and then by thread. Each call costs the logarithm of their number.
#[derive(Drop)]
pub struct Hold {
    tables: HoldTables,
}

impl Model for Hold {
    ghost use Rattle.dso_hold.specs.declared.tables.HoldTables.{HoldTables};
    ghost use Rattle.dso_hold.specs.contracts.tables.HoldTables.{the_row};
    ghost use Rattle.dso_hold.specs.HoldTables.{HoldsAgree};

    ghost Value = { HoldTables };

    ghost coded = { the_row.coded };

    ghost view = { λ hold. hold.tables };

    ghost invariant = { λ hold. HoldsAgree hold.tables };
}

impl Hold {
    /// No thread holds a lock.
    pub fn new(alloc: Global) -> Hold
        ensures { hold_in result ≡ (λ _. None) }
    {
        let tables = HoldTables {
            by_lock: BTreeMap::new(alloc),
            by_thread: BTreeMap::new(alloc),
        };
        Hold { tables }
    }

    /// The thread enters the lock so many times at the level: `Entered`, and its hold's count is that much more, at the
    /// level of the hold where it has one. `LockUpgrade`, with nothing changed, exactly where it holds at `Read` and asks
    /// for `Write`. `Blocked`, with nothing changed, exactly where another thread holds in conflict and it is no upgrade:
    /// the first of these threads; so a thread that holds the lock and asks for no upgrade has entered.
    ///
    /// It answers `NoMemory` where an allocation was refused, and nothing is changed then.
    pub fn enter(
        &mut self,
        alloc: Global,
        thread: ThreadId,
        lock: LockName,
        level: Level,
        count: u32,
    ) -> Result<Enter, NoMemory>
        requires once { 1 ≤ count }
        requires fits { count_at (hold_in self.old (lock, thread)) + count < 2 ^ 32 }
        ensures answer { IfOk result (λ enter. IsAnswer thread lock level count (hold_in self.old) (hold_in self.new) enter) }
        ensures again { IfOk result (λ enter. HoldsEnough level (hold_in self.old (lock, thread)) → enter ≡ Entered) }
        ensures err { OnErr result (hold_in self.new ≡ hold_in self.old) }
    {
        enter(alloc, &mut self.tables, thread, lock, Held { level, count })
    }

    /// The thread leaves the lock so many times, and the count left is answered. At 0 the hold is gone, and so is one of a
    /// lower count. It takes no memory.
    pub fn exit(&mut self, thread: ThreadId, lock: LockName, count: u32) -> u32
        ensures left { result ≡ count_at (exited count (hold_in self.old (lock, thread))) }
        ensures holds { hold_in self.new ≡ with_hold lock thread (exited count (hold_in self.old (lock, thread))) (hold_in self.old) }
    {
        exit(&mut self.tables, thread, lock, count)
    }

    /// The level at which the thread holds the lock, None where it doesn't. It takes no memory.
    pub fn level_of(&self, thread: ThreadId, lock: LockName) -> Option<Level>
        ensures { result ≡ level_at (hold_in self.now (lock, thread)) }
    {
        match held(&self.tables, lock, thread) {
            Some(own) => Some(own.level),
            None => None,
        }
    }

    /// How often the thread entered the lock and didn't leave it, 0 where it doesn't hold it. It takes no memory.
    pub fn count(&self, thread: ThreadId, lock: LockName) -> u32
        ensures { result ≡ count_at (hold_in self.now (lock, thread)) }
    {
        match held(&self.tables, lock, thread) {
            Some(own) => own.count,
            None => 0,
        }
    }

    /// Whether the thread holds some lock. It takes no memory.
    pub fn any(&self, thread: ThreadId) -> bool
        ensures { IsTrue result ↔ HoldsSome thread (hold_in self.now) }
    {
        holds_some(&self.tables, thread)
    }

    /// Whether no thread holds the lock. It takes no memory.
    pub fn free(&self, lock: LockName) -> bool
        ensures { IsTrue result ↔ IsFree lock (hold_in self.now) }
    {
        is_free(&self.tables, lock)
    }

    /// The first other thread that holds the lock in conflict with an entry of this one at the level: the one that
    /// [`Hold::enter`] would name where the entry is no upgrade. None exactly where there is none. It takes no memory.
    pub fn conflict(&self, thread: ThreadId, lock: LockName, level: Level) -> Option<ThreadId>
        ensures none { IfNone result (NoConflict thread lock level (hold_in self.now)) }
        ensures first { IfSome result (λ other. IsFirstInConflict thread lock level (hold_in self.now) other) }
    {
        first_in_conflict(&self.tables, lock, thread, level)
    }
}
