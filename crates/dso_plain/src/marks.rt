//! Marks of waiting threads in the tables (`specs/After.antt`).
ghost use Rattle.std.specs.Prelude.{◌≡◌, ◌≢◌, None, OnOk};
ghost use Rattle.dso_plain.specs.After as After;
ghost use Rattle.dso_plain.specs.TableInvariants.{IndexesAgree};
ghost use Rattle.dso_plain.specs.Changes.{moved};
ghost use Rattle.dso_lookup.specs.Maps.{look};
ghost use Rattle.dso_lookup.specs.Rows.{look_in};
ghost use Rattle.dso_lookup.specs.Orders.{lock_order, thread_order};
ghost use Rattle.dso_plain.specs.HeapTables.{state_of};

use crate::count::Count;
use crate::tables::HeapTables;
use dso_base::{LockName, NoMemory, ThreadId};
use dso_lookup::{put_in, take_in, take_row};
use std::alloc::Global;
use std::collections::BTreeMap;

/// Marks a waiter: it was notified, or it times out. One that is marked stays so.
pub(crate) fn mark(
    alloc: Global,
    tables: &mut HeapTables,
    lock: LockName,
    thread: ThreadId,
) -> Result<(), NoMemory>
    requires agrees { IndexesAgree tables.old }
    requires waits { (state_of tables.old).asleep (lock, thread) ≢ None }
    ensures state { OnOk result (state_of tables.new ≡ After.apply (After.times_out thread lock) (state_of tables.old)) }
    ensures agrees { OnOk result (IndexesAgree tables.new) }
{
    match take_in(alloc, &mut tables.waits, lock, &thread)? {
        Some(count) => {
            put_in(alloc, &mut tables.marked, lock, thread, count)?;
            Ok(())
        }
        None => Ok(()),
    }
}

/// Moves the waits of a row to those that are marked.
fn move_row(
    alloc: Global,
    mut row: BTreeMap<ThreadId, Count>,
    marked: &mut BTreeMap<LockName, BTreeMap<ThreadId, Count>>,
    lock: LockName,
) -> Result<(), NoMemory>
    ensures { OnOk result (look_in lock_order thread_order marked.new ≡ moved lock (look thread_order row) (look_in lock_order thread_order marked.old)) }
{
    while let Some((thread, count)) = row.pop_first() {
        put_in(alloc, marked, lock, thread, count)?;
    }
    Ok(())
}

/// Notifies all waiters of a lock.
pub(crate) fn mark_all(
    alloc: Global,
    tables: &mut HeapTables,
    lock: LockName,
) -> Result<(), NoMemory>
    requires { IndexesAgree tables.old }
    ensures state { OnOk result (state_of tables.new ≡ After.apply (After.notifies_all lock (state_of tables.old)) (state_of tables.old)) }
    ensures agrees { OnOk result (IndexesAgree tables.new) }
{
    let row = take_row(alloc, &mut tables.waits, &lock);
    move_row(alloc, row, &mut tables.marked, lock)?;
    Ok(())
}
