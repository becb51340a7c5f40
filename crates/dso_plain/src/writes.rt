//! What a request changes in the tables, of objects, threads and output (`specs/After.antt`).
ghost use Rattle.std.specs.Prelude.{suc, ◌-◌, ◌≡◌, length, ◌∷◌, Some, None, true, false, OnOk};
ghost use Rattle.dso_base.specs.Following.{is_thread};
ghost use Rattle.dso_plain.specs.After as After;
ghost use Rattle.dso_plain.specs.TableInvariants.{IndexesAgree};
ghost use Rattle.dso_plain.specs.StepInvariants.{PastInvariant};
ghost use Rattle.dso_plain.specs.State.{IsShared};
ghost use Rattle.dso_plain.specs.KeyTests.{is_view};
ghost use Rattle.dso_lookup.specs.Maps.{writes, written};
ghost use Rattle.dso_plain.specs.HeapTables.{state_of};

use crate::fields::make_fields;
use crate::publish::publish;
use crate::tables::{HeapTables, Object};
use dso_base::{ClassId, Fault, NoMemory, Set, Shape, ThreadId, Value};
use dso_lookup::{push_at, put};
use std::alloc::Global;

/// The thread prints a value.
pub(crate) fn print(
    alloc: Global,
    tables: &mut HeapTables,
    thread: ThreadId,
    value: Value,
) -> Result<(), NoMemory>
    requires { IndexesAgree tables.old }
    ensures state { OnOk result (state_of tables.new ≡ record (state_of tables.old) { output = written (writes (is_thread thread) (λ _. value ∷ (state_of tables.old).output thread)) (state_of tables.old).output }) }
    ensures agrees { OnOk result (IndexesAgree tables.new) }
{
    match tables.output.get_mut(&thread) {
        Some(printed) => printed.push(value)?,
        None => push_at(alloc, &mut tables.output, thread, value)?,
    }
    Ok(())
}

/// The thread ends.
pub(crate) fn end(
    tables: &mut HeapTables,
    thread: ThreadId,
    fault: Option<Fault>,
) -> Result<(), NoMemory>
    requires { IndexesAgree tables.old }
    ensures state { OnOk result (state_of tables.new ≡ record (state_of tables.old) { ended = written (writes (is_thread thread) (λ _. Some fault)) (state_of tables.old).ended }) }
    ensures agrees { OnOk result (IndexesAgree tables.new) }
{
    put(&mut tables.ended, thread, fault)?;
    Ok(())
}

/// The length of a field's past.
fn past_length(tables: &HeapTables, id: u64, field: u32) -> usize
    ensures { result ≡ length ((state_of tables.now).past (id, field)) }
{
    match tables.past.get(&(id, field)) {
        Some(past) => past.len(),
        None => 0,
    }
}

/// The thread has seen the last place of a field's past.
pub(crate) fn see(
    tables: &mut HeapTables,
    thread: ThreadId,
    id: u64,
    field: u32,
) -> Result<(), NoMemory>
    requires { IndexesAgree tables.old }
    ensures state { OnOk result (state_of tables.new ≡ record (state_of tables.old) { seen = written (writes (is_view thread id field) (λ _. length ((state_of tables.old).past (id, field)) - 1)) (state_of tables.old).seen }) }
    ensures agrees { OnOk result (IndexesAgree tables.new) }
{
    let place = past_length(tables, id, field).saturating_sub(1);
    put(&mut tables.seen, (thread, id, field), place)?;
    Ok(())
}

/// An unguarded read is counted.
pub(crate) fn count_read(tables: &mut HeapTables) -> Result<(), NoMemory>
    requires { IndexesAgree tables.old }
    ensures state { OnOk result (state_of tables.new ≡ record (state_of tables.old) { unguarded = suc (state_of tables.old).unguarded }) }
    ensures agrees { OnOk result (IndexesAgree tables.new) }
{
    tables.unguarded.add()?;
    Ok(())
}

/// What a New makes: an object of this class and size, by its id.
#[derive(Clone, Copy)]
pub(crate) struct NewObject {
    pub(crate) class: ClassId,
    pub(crate) size: u32,
    pub(crate) id: u64,
}

/// The thread makes an object, private to it.
pub(crate) fn make_object(
    alloc: Global,
    tables: &mut HeapTables,
    shape: &Shape,
    thread: ThreadId,
    made: NewObject,
) -> Result<(), NoMemory>
    requires agrees { IndexesAgree tables.old }
    requires past { PastInvariant (state_of tables.old) }
    requires absent { (state_of tables.old).objects made.id ≡ None }
    ensures state { OnOk result (state_of tables.new ≡ After.apply (After.made_new shape.now thread made.class made.size made.id (state_of tables.old)) (state_of tables.old)) }
    ensures agrees { OnOk result (IndexesAgree tables.new) }
{
    let object = Object {
        class: made.class,
        size: made.size,
        owner: Some(thread),
    };
    put(&mut tables.objects, made.id, object)?;
    make_fields(&mut tables.heap, shape, made.class, made.id, made.size)?;
    push_at(alloc, &mut tables.made, thread, made.id)?;
    Ok(())
}

/// A put into a private object.
pub(crate) fn put_own(tables: &mut HeapTables, thread: ThreadId, set: Set) -> Result<(), NoMemory>
    requires { IndexesAgree tables.old }
    ensures state { OnOk result (state_of tables.new ≡ After.apply (After.put thread set.object set.field set.value false (state_of tables.old)) (state_of tables.old)) }
    ensures agrees { OnOk result (IndexesAgree tables.new) }
{
    put(&mut tables.heap, (set.object, set.field), set.value)?;
    Ok(())
}

/// A put into a shared object, which publishes what is found from the value.
pub(crate) fn put_shared(
    alloc: Global,
    tables: &mut HeapTables,
    thread: ThreadId,
    set: Set,
) -> Result<(), NoMemory>
    requires agrees { IndexesAgree tables.old }
    requires past { PastInvariant (state_of tables.old) }
    requires shared { IsShared set.object (state_of tables.old) }
    ensures state { OnOk result (state_of tables.new ≡ After.apply (After.put thread set.object set.field set.value true (state_of tables.old)) (state_of tables.old)) }
    ensures agrees { OnOk result (IndexesAgree tables.new) }
{
    let place = past_length(tables, set.object, set.field);
    publish(alloc, tables, thread, set.value)?;
    push_at(alloc, &mut tables.past, (set.object, set.field), set.value)?;
    put(&mut tables.heap, (set.object, set.field), set.value)?;
    put(&mut tables.seen, (thread, set.object, set.field), place)?;
    Ok(())
}
