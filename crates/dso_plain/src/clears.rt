//! The loss of a client in the tables: its threads leave the monitors and the waits (`specs/After.antt`).
ghost use Rattle.std.specs.Prelude.{◌≡◌, ◌&&◌, eqb, OnOk};
ghost use Rattle.dso_base.specs.Following.{is_thread};
ghost use Rattle.dso_plain.specs.After as After;
ghost use Rattle.dso_plain.specs.TableInvariants.{IndexesAgree};
ghost use Rattle.dso_plain.specs.Changes.{dropped, without, Mirrors, ClearsRow};
ghost use Rattle.dso_lookup.specs.Maps.{look};
ghost use Rattle.dso_lookup.specs.Rows.{look_in};
ghost use Rattle.dso_lookup.specs.Orders.{lock_order, thread_order};
ghost use Rattle.dso_plain.specs.HeapTables.{state_of};

use crate::tables::HeapTables;
use dso_base::{LockName, NoMemory, ThreadId};
use dso_lookup::{discard_in, put, take_row};
use std::alloc::Global;
use std::collections::BTreeMap;

/// Takes out what the thread has at the locks of a row.
fn drop_row<V: Drop>(
    alloc: Global,
    mut row: BTreeMap<LockName, ()>,
    table: &mut BTreeMap<LockName, BTreeMap<ThreadId, V>>,
    thread: ThreadId,
) -> Result<(), NoMemory>
    ensures { OnOk result (look_in lock_order thread_order table.new ≡ dropped thread (look lock_order row) (look_in lock_order thread_order table.old)) }
{
    while let Some((lock, _)) = row.pop_first() {
        discard_in(alloc, table, lock, &thread)?;
    }
    Ok(())
}

/// Takes out what the thread has at the locks of a row, in two tables.
fn drop_rows<V: Drop>(
    alloc: Global,
    mut row: BTreeMap<LockName, ()>,
    table: &mut BTreeMap<LockName, BTreeMap<ThreadId, V>>,
    other: &mut BTreeMap<LockName, BTreeMap<ThreadId, V>>,
    thread: ThreadId,
) -> Result<(), NoMemory>
    ensures first { OnOk result (look_in lock_order thread_order table.new ≡ dropped thread (look lock_order row) (look_in lock_order thread_order table.old)) }
    ensures second { OnOk result (look_in lock_order thread_order other.new ≡ dropped thread (look lock_order row) (look_in lock_order thread_order other.old)) }
{
    while let Some((lock, _)) = row.pop_first() {
        discard_in(alloc, table, lock, &thread)?;
        discard_in(alloc, other, lock, &thread)?;
    }
    Ok(())
}

/// The thread leaves all monitors and waits.
fn clear(alloc: Global, tables: &mut HeapTables, thread: ThreadId) -> Result<(), NoMemory>
    requires { Mirrors tables.old }
    ensures state { OnOk result (state_of tables.new ≡ without (is_thread thread) (state_of tables.old)) }
    ensures mirrors { OnOk result (Mirrors tables.new) }
    ensures threads { OnOk result (tables.new.threads ≡ tables.old.threads) }
{
    let held = take_row(alloc, &mut tables.held, &thread);
    drop_row(alloc, held, &mut tables.holds, thread)?;
    let waiting = take_row(alloc, &mut tables.waiting, &thread);
    drop_rows(
        alloc,
        waiting,
        &mut tables.waits,
        &mut tables.marked,
        thread,
    )?;
    Ok(())
}

/// The thread leaves all monitors and waits, where it is one of the client.
fn clear_of(
    alloc: Global,
    tables: &mut HeapTables,
    thread: ThreadId,
    client: u8,
) -> Result<(), NoMemory>
    requires { Mirrors tables.old }
    ensures state { OnOk result (state_of tables.new ≡ without (λ u. eqb thread.client client && is_thread thread u) (state_of tables.old)) }
    ensures mirrors { OnOk result (Mirrors tables.new) }
    ensures threads { OnOk result (tables.new.threads ≡ tables.old.threads) }
{
    if thread.client == client {
        clear(alloc, tables, thread)?;
        return Ok(());
    }
    Ok(())
}

/// The threads of a row leave all monitors and waits, as far as they are of the client.
fn clear_all(
    alloc: Global,
    tables: &mut HeapTables,
    mut row: BTreeMap<ThreadId, ()>,
    client: u8,
) -> Result<(), NoMemory>
    requires { Mirrors tables.old }
    ensures { OnOk result (ClearsRow client (look thread_order row) tables.old tables.new) }
{
    while let Some((thread, _)) = row.pop_first() {
        clear_of(alloc, tables, thread, client)?;
    }
    Ok(())
}

/// The client is lost.
pub(crate) fn lose(alloc: Global, tables: &mut HeapTables, client: u8) -> Result<(), NoMemory>
    requires { IndexesAgree tables.old }
    ensures state { OnOk result (state_of tables.new ≡ After.apply (After.loses client) (state_of tables.old)) }
    ensures agrees { OnOk result (IndexesAgree tables.new) }
{
    let row = take_row(alloc, &mut tables.threads, &client);
    clear_all(alloc, tables, row, client)?;
    put(&mut tables.lost, client, true)?;
    Ok(())
}
