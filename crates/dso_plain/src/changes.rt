//! What a request changes in the tables, of monitors and waits (`specs/After.antt`).
ghost use Rattle.std.specs.Prelude.{◌≡◌, ◌≢◌, true, false, None, Some, OnOk, IfOk};
ghost use Rattle.std.specs.Option.{option_map};
ghost use Rattle.dso_plain.specs.After as After;
ghost use Rattle.dso_plain.specs.TableInvariants.{IndexesAgree};
ghost use Rattle.dso_plain.specs.Changes.{with_hold, with_wait};
ghost use Rattle.dso_plain.specs.HeapTables.{state_of, hold_of};

use crate::count::Count;
use crate::holds::{drop_hold, drop_wait, set_hold, set_wait};
use crate::tables::{HeapTables, Hold};
use dso_base::{Level, LockName, NoMemory, ThreadId};
use std::alloc::Global;

/// The hold after one more entry.
fn entered(alloc: Global, wanted: Level, hold: Option<Hold>) -> Result<Hold, NoMemory>
    ensures { IfOk result (λ new. Some (hold_of new) ≡ After.entered wanted (option_map hold_of hold)) }
{
    match hold {
        Some(hold) => {
            let Hold { level, mut count } = hold;
            count.add()?;
            Ok(Hold { level, count })
        }
        None => {
            let mut count = Count::zero(alloc);
            count.add()?;
            Ok(Hold {
                level: wanted,
                count,
            })
        }
    }
}

/// The thread enters the lock.
pub(crate) fn enter(
    alloc: Global,
    tables: &mut HeapTables,
    thread: ThreadId,
    lock: LockName,
    wanted: Level,
) -> Result<(), NoMemory>
    requires { IndexesAgree tables.old }
    ensures state { OnOk result (state_of tables.new ≡ with_hold lock thread (After.entered wanted ((state_of tables.old).monitors (lock, thread))) (state_of tables.old)) }
    ensures agrees { OnOk result (IndexesAgree tables.new) }
{
    let hold = drop_hold(alloc, tables, lock, thread)?;
    let hold = entered(alloc, wanted, hold)?;
    set_hold(alloc, tables, lock, thread, hold)?;
    Ok(())
}

/// The hold after one exit, None where it was the last.
fn exited(hold: Option<Hold>) -> Option<Hold>
    ensures { option_map hold_of result ≡ After.exited (option_map hold_of hold) }
{
    match hold {
        Some(hold) => {
            let Hold { level, mut count } = hold;
            if count.get() == 1 {
                None
            } else {
                count.drop_one();
                Some(Hold { level, count })
            }
        }
        None => None,
    }
}

/// The thread leaves the lock once.
pub(crate) fn exit(
    alloc: Global,
    tables: &mut HeapTables,
    thread: ThreadId,
    lock: LockName,
) -> Result<(), NoMemory>
    requires { IndexesAgree tables.old }
    ensures state { OnOk result (state_of tables.new ≡ with_hold lock thread (After.exited ((state_of tables.old).monitors (lock, thread))) (state_of tables.old)) }
    ensures agrees { OnOk result (IndexesAgree tables.new) }
{
    let hold = drop_hold(alloc, tables, lock, thread)?;
    match exited(hold) {
        Some(hold) => {
            set_hold(alloc, tables, lock, thread, hold)?;
            Ok(())
        }
        None => Ok(()),
    }
}

/// The count of a hold.
fn count_of(alloc: Global, hold: Option<Hold>) -> Count
    ensures { result ≡ After.count_of (option_map hold_of hold) }
{
    match hold {
        Some(hold) => hold.count,
        None => Count::zero(alloc),
    }
}

/// The thread gives up its hold and waits on the lock.
pub(crate) fn wait(
    alloc: Global,
    tables: &mut HeapTables,
    thread: ThreadId,
    lock: LockName,
) -> Result<(), NoMemory>
    requires agrees { IndexesAgree tables.old }
    requires awake { (state_of tables.old).asleep (lock, thread) ≡ None }
    ensures state { OnOk result (state_of tables.new ≡ After.apply (After.waits thread lock (state_of tables.old)) (state_of tables.old)) }
    ensures agrees { OnOk result (IndexesAgree tables.new) }
{
    let hold = drop_hold(alloc, tables, lock, thread)?;
    let count = count_of(alloc, hold);
    set_wait(alloc, tables, lock, thread, count)?;
    Ok(())
}

/// The thread goes on after its wait: it has its hold again.
pub(crate) fn resume(
    alloc: Global,
    tables: &mut HeapTables,
    thread: ThreadId,
    lock: LockName,
) -> Result<(), NoMemory>
    requires agrees { IndexesAgree tables.old }
    requires free { (state_of tables.old).monitors (lock, thread) ≡ None }
    requires marked { (state_of tables.old).marked (lock, thread) ≡ true }
    ensures state { OnOk result (state_of tables.new ≡ After.apply (After.resumes thread lock (state_of tables.old)) (state_of tables.old)) }
    ensures agrees { OnOk result (IndexesAgree tables.new) }
{
    match drop_wait(alloc, tables, lock, thread)? {
        Some(count) => {
            let hold = Hold {
                level: Level::Write,
                count,
            };
            set_hold(alloc, tables, lock, thread, hold)?;
            Ok(())
        }
        None => Ok(()),
    }
}
