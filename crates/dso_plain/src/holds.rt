//! Changes of holds and waits in the tables, which stand by lock and are listed by thread (`specs/Changes.antt`).
ghost use Rattle.std.specs.Prelude.{◌≡◌, ◌≢◌, true, false, None, Some, OnOk, IfOk};
ghost use Rattle.dso_plain.specs.TableInvariants.{IndexesAgree};
ghost use Rattle.dso_lookup.specs.Rows.{look_in};
ghost use Rattle.dso_plain.specs.Changes.{with_hold, with_wait};
ghost use Rattle.dso_lookup.specs.Orders.{lock_order, thread_order};
ghost use Rattle.dso_plain.specs.HeapTables.{state_of, hold_of};

use crate::count::Count;
use crate::tables::{HeapTables, Hold};
use dso_base::{LockName, NoMemory, ThreadId};
use dso_lookup::{put_in, take_in};
use std::alloc::Global;

/// Gives the thread a hold on the lock.
pub(crate) fn set_hold(
    alloc: Global,
    tables: &mut HeapTables,
    lock: LockName,
    thread: ThreadId,
    hold: Hold,
) -> Result<(), NoMemory>
    requires { IndexesAgree tables.old }
    ensures state { OnOk result (state_of tables.new ≡ with_hold lock thread (Some (hold_of hold)) (state_of tables.old)) }
    ensures agrees { OnOk result (IndexesAgree tables.new) }
{
    put_in(alloc, &mut tables.holds, lock, thread, hold)?;
    put_in(alloc, &mut tables.held, thread, lock, ())?;
    put_in(alloc, &mut tables.threads, thread.client, thread, ())?;
    Ok(())
}

/// Takes the thread's hold on the lock.
pub(crate) fn drop_hold(
    alloc: Global,
    tables: &mut HeapTables,
    lock: LockName,
    thread: ThreadId,
) -> Result<Option<Hold>, NoMemory>
    requires { IndexesAgree tables.old }
    ensures was { IfOk result (λ hold. hold ≡ look_in lock_order thread_order tables.old.holds (lock, thread)) }
    ensures state { OnOk result (state_of tables.new ≡ with_hold lock thread None (state_of tables.old)) }
    ensures agrees { OnOk result (IndexesAgree tables.new) }
{
    let hold = take_in(alloc, &mut tables.holds, lock, &thread)?;
    let _ = take_in(alloc, &mut tables.held, thread, &lock)?;
    Ok(hold)
}

/// Lets the thread wait on the lock, not marked.
pub(crate) fn set_wait(
    alloc: Global,
    tables: &mut HeapTables,
    lock: LockName,
    thread: ThreadId,
    count: Count,
) -> Result<(), NoMemory>
    requires agrees { IndexesAgree tables.old }
    requires awake { (state_of tables.old).asleep (lock, thread) ≡ None }
    ensures state { OnOk result (state_of tables.new ≡ with_wait lock thread (Some count) false (state_of tables.old)) }
    ensures agrees { OnOk result (IndexesAgree tables.new) }
{
    put_in(alloc, &mut tables.waits, lock, thread, count)?;
    put_in(alloc, &mut tables.waiting, thread, lock, ())?;
    put_in(alloc, &mut tables.threads, thread.client, thread, ())?;
    Ok(())
}

/// Ends a wait of the thread on the lock, be it marked or not. None where it is not marked there.
pub(crate) fn drop_wait(
    alloc: Global,
    tables: &mut HeapTables,
    lock: LockName,
    thread: ThreadId,
) -> Result<Option<Count>, NoMemory>
    requires { IndexesAgree tables.old }
    ensures was { IfOk result (λ count. count ≡ look_in lock_order thread_order tables.old.marked (lock, thread)) }
    ensures state { OnOk result (state_of tables.new ≡ with_wait lock thread None false (state_of tables.old)) }
    ensures agrees { OnOk result (IndexesAgree tables.new) }
{
    let count = take_in(alloc, &mut tables.marked, lock, &thread)?;
    let _ = take_in(alloc, &mut tables.waits, lock, &thread)?;
    let _ = take_in(alloc, &mut tables.waiting, thread, &lock)?;
    Ok(count)
}
