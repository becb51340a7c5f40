//! The tables of holds: by lock, and by thread (`specs/HoldTables.antt`).
ghost use Rattle.std.specs.Prelude.{◌≡◌, ◌≢◌, ◌↔◌, true, false, None, Some, is_some, IsTrue, IfNone, IfSome, OnOk, OnErr};
ghost use Rattle.dso_base.specs.declared.lock.ThreadId.{ThreadId};
ghost use Rattle.dso_base.specs.declared.lock.LockName.{LockName};
ghost use Rattle.dso_lookup.specs.Maps.{look};
ghost use Rattle.dso_lookup.specs.Orders.{thread_order};
ghost use Rattle.dso_hold.specs.Holds.{hold_in, with_hold, is_before, HoldsSome, IsFree, NoConflict, IsFirstInConflict};
ghost use Rattle.dso_hold.specs.HoldTables.{IndexesAgree, HoldsAgree};

use crate::held::Held;
use dso_base::{Level, LockName, NoMemory, ThreadId};
use dso_lookup::{find_in, insert_in, is_row_empty, is_row_taken, remove_in, replace_in};
use std::alloc::Global;
use std::collections::BTreeMap;

/// The holds stand by lock and then by thread; `by_thread` tells the locks that a thread holds.
#[derive(Drop)]
pub struct HoldTables {
    pub by_lock: BTreeMap<LockName, BTreeMap<ThreadId, Held>>,
    pub by_thread: BTreeMap<ThreadId, BTreeMap<LockName, ()>>,
}

/// How the thread holds the lock, None where it doesn't.
pub(crate) fn held(tables: &HoldTables, lock: LockName, thread: ThreadId) -> Option<Held>
    ensures { result ≡ hold_in tables.now (lock, thread) }
{
    find_in(&tables.by_lock, &lock, &thread).copied()
}

/// Whether the thread holds some lock.
pub(crate) fn holds_some(tables: &HoldTables, thread: ThreadId) -> bool
    requires { IndexesAgree tables.now }
    ensures { IsTrue result ↔ HoldsSome thread (hold_in tables.now) }
{
    is_row_taken(&tables.by_thread, &thread)
}

/// Whether nobody holds the lock.
pub(crate) fn is_free(tables: &HoldTables, lock: LockName) -> bool
    ensures { IsTrue result ↔ IsFree lock (hold_in tables.now) }
{
    is_row_empty(&tables.by_lock, &lock)
}

/// The first thread of a row but this one, and how it holds, None where there is no other.
fn first_but(row: &BTreeMap<ThreadId, Held>, thread: ThreadId) -> Option<(ThreadId, Held)>
    ensures nobody { IfNone result ((u : ThreadId) → u ≢ thread → look thread_order row.now u ≡ None) }
    ensures other { IfSome result (λ first. first.0 ≢ thread) }
    ensures holder { IfSome result (λ first. look thread_order row.now first.0 ≡ Some first.1) }
    ensures least { IfSome result (λ first. (u : ThreadId) → u ≢ thread → is_some (look thread_order row.now u) ≡ true → is_before u first.0 ≡ false) }
{
    let mut holders = row.iter();
    let (first, held) = holders.next()?;
    if *first != thread {
        return Some((*first, *held));
    }
    let (second, held) = holders.next()?;
    Some((*second, *held))
}

/// The first other thread that holds the lock, and how, None where no other does.
fn first_other(tables: &HoldTables, lock: LockName, thread: ThreadId) -> Option<(ThreadId, Held)>
    ensures nobody { IfNone result ((u : ThreadId) → u ≢ thread → hold_in tables.now (lock, u) ≡ None) }
    ensures other { IfSome result (λ first. first.0 ≢ thread) }
    ensures holder { IfSome result (λ first. hold_in tables.now (lock, first.0) ≡ Some first.1) }
    ensures least { IfSome result (λ first. (u : ThreadId) → u ≢ thread → is_some (hold_in tables.now (lock, u)) ≡ true → is_before u first.0 ≡ false) }
{
    let row = tables.by_lock.get(&lock)?;
    first_but(row, thread)
}

/// The first other thread that holds the lock in conflict with an entry of this one at the level.
pub(crate) fn first_in_conflict(
    tables: &HoldTables,
    lock: LockName,
    thread: ThreadId,
    level: Level,
) -> Option<ThreadId>
    requires { HoldsAgree tables.now }
    ensures none { IfNone result (NoConflict thread lock level (hold_in tables.now)) }
    ensures first { IfSome result (λ other. IsFirstInConflict thread lock level (hold_in tables.now) other) }
{
    match first_other(tables, lock, thread) {
        Some((other, held)) if held.excludes(level) => Some(other),
        _ => None,
    }
}

/// Adds a hold. It answers `NoMemory` where an allocation was refused, and the holds are then as before.
pub(crate) fn add(
    alloc: Global,
    tables: &mut HoldTables,
    lock: LockName,
    thread: ThreadId,
    held: Held,
) -> Result<(), NoMemory>
    requires agree { IndexesAgree tables.old }
    requires absent { hold_in tables.old (lock, thread) ≡ None }
    ensures ok { OnOk result (hold_in tables.new ≡ with_hold lock thread (Some held) (hold_in tables.old)) }
    ensures err { OnErr result (hold_in tables.new ≡ hold_in tables.old) }
    ensures agree { IndexesAgree tables.new }
{
    insert_in(alloc, &mut tables.by_thread, thread, lock, ())?;
    match insert_in(alloc, &mut tables.by_lock, lock, thread, held) {
        Ok(()) => Ok(()),
        Err(refused) => {
            remove_in(&mut tables.by_thread, &thread, &lock);
            Err(refused)
        }
    }
}

/// Changes a hold that is there. It takes no memory.
pub(crate) fn change(tables: &mut HoldTables, lock: LockName, thread: ThreadId, held: Held)
    requires agree { IndexesAgree tables.old }
    requires there { is_some (hold_in tables.old (lock, thread)) ≡ true }
    ensures holds { hold_in tables.new ≡ with_hold lock thread (Some held) (hold_in tables.old) }
    ensures agree { IndexesAgree tables.new }
{
    replace_in(&mut tables.by_lock, &lock, &thread, held);
}

/// Takes a hold out. It takes no memory.
pub(crate) fn take_out(tables: &mut HoldTables, lock: LockName, thread: ThreadId)
    requires agree { IndexesAgree tables.old }
    ensures holds { hold_in tables.new ≡ with_hold lock thread None (hold_in tables.old) }
    ensures agree { IndexesAgree tables.new }
{
    remove_in(&mut tables.by_lock, &lock, &thread);
    remove_in(&mut tables.by_thread, &thread, &lock);
}
