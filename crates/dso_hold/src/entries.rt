//! Entries and exits in the tables of holds (`specs/Holds.antt`).
ghost use Rattle.std.specs.Prelude.{◌≡◌, ◌+◌, ◌^◌, ◌<◌, false, None, IfOk, OnErr, Some};
ghost use Rattle.dso_hold.specs.declared.held.Enter.TheVariants.{Entered};
ghost use Rattle.dso_hold.specs.Holds.{hold_in, with_hold, count_at, exited, is_lower, HoldsEnough, IsAnswer};
ghost use Rattle.dso_hold.specs.HoldTables.{HoldsAgree};

use crate::held::{Enter, Held};
use crate::tables::{HoldTables, add, change, first_in_conflict, held, take_out};
use dso_base::{Level, LockName, NoMemory, ThreadId};
use std::alloc::Global;

/// The first entry of a thread that doesn't hold the lock.
fn enter_first(
    alloc: Global,
    tables: &mut HoldTables,
    thread: ThreadId,
    lock: LockName,
    own: Held,
) -> Result<Enter, NoMemory>
    requires agree { HoldsAgree tables.old }
    requires absent { hold_in tables.old (lock, thread) ≡ None }
    ensures answer { IfOk result (λ enter. IsAnswer thread lock own.level own.count (hold_in tables.old) (hold_in tables.new) enter) }
    ensures err { OnErr result (hold_in tables.new ≡ hold_in tables.old) }
    ensures agree { HoldsAgree tables.new }
{
    if let Some(other) = first_in_conflict(tables, lock, thread, own.level) {
        return Ok(Enter::Blocked(other));
    }
    add(alloc, tables, lock, thread, own)?;
    Ok(Enter::Entered)
}

/// An entry of a thread that holds the lock.
fn enter_again(
    tables: &mut HoldTables,
    thread: ThreadId,
    lock: LockName,
    own: Held,
    wanted: Held,
) -> Enter
    requires agree { HoldsAgree tables.old }
    requires own { hold_in tables.old (lock, thread) ≡ Some own }
    requires fits { own.count + wanted.count < 2 ^ 32 }
    ensures answer { IsAnswer thread lock wanted.level wanted.count (hold_in tables.old) (hold_in tables.new) result }
    ensures again { is_lower wanted.level own ≡ false → result ≡ Entered }
    ensures agree { HoldsAgree tables.new }
{
    if own.is_lower(wanted.level) {
        return Enter::LockUpgrade;
    }
    change(tables, lock, thread, own.entered_again(wanted.count));
    Enter::Entered
}

/// The entry of a thread, so many times and at the level that it wants.
pub(crate) fn enter(
    alloc: Global,
    tables: &mut HoldTables,
    thread: ThreadId,
    lock: LockName,
    wanted: Held,
) -> Result<Enter, NoMemory>
    requires agree { HoldsAgree tables.old }
    requires fits { count_at (hold_in tables.old (lock, thread)) + wanted.count < 2 ^ 32 }
    ensures answer { IfOk result (λ enter. IsAnswer thread lock wanted.level wanted.count (hold_in tables.old) (hold_in tables.new) enter) }
    ensures again { IfOk result (λ enter. HoldsEnough wanted.level (hold_in tables.old (lock, thread)) → enter ≡ Entered) }
    ensures err { OnErr result (hold_in tables.new ≡ hold_in tables.old) }
    ensures agree { HoldsAgree tables.new }
{
    match held(tables, lock, thread) {
        Some(own) => Ok(enter_again(tables, thread, lock, own, wanted)),
        None => enter_first(alloc, tables, thread, lock, wanted),
    }
}

/// The exit of a thread, so many times.
pub(crate) fn exit(tables: &mut HoldTables, thread: ThreadId, lock: LockName, count: u32) -> u32
    requires { HoldsAgree tables.old }
    ensures left { result ≡ count_at (exited count (hold_in tables.old (lock, thread))) }
    ensures holds { hold_in tables.new ≡ with_hold lock thread (exited count (hold_in tables.old (lock, thread))) (hold_in tables.old) }
    ensures agree { HoldsAgree tables.new }
{
    match held(tables, lock, thread) {
        Some(own) if count < own.count => {
            let left = own.count - count;
            change(tables, lock, thread, Held { count: left, ..own });
            left
        }
        _ => {
            take_out(tables, lock, thread);
            0
        }
    }
}
