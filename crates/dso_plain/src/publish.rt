//! Publishing: what is found from a value through a thread's private objects becomes shared (`specs/After.antt`).
ghost use Rattle.std.specs.Prelude.{ℕ, ◌≡◌, ◌||◌, OnOk, IfOk, eqb};
ghost use Rattle.std.specs.BTreeMap.{keys};
ghost use Rattle.std.specs.Ordering.{nat_cmp};
ghost use Rattle.dso_lookup.proofs.Listed.{key_listed};
ghost use Rattle.dso_lookup.specs.Maps.{look};
ghost use Rattle.dso_lookup.specs.Search.{is_listed};
ghost use Rattle.dso_plain.specs.TableInvariants.{IndexesAgree};
ghost use Rattle.dso_plain.specs.StepInvariants.{PastInvariant};
ghost use Rattle.dso_plain.specs.State as State;
ghost use Rattle.dso_plain.specs.State.{is_mine};
ghost use Rattle.dso_plain.specs.After.{published, names, names_below, holds_reference};
ghost use Rattle.dso_plain.specs.HeapTables.{state_of, field_order};
ghost use Rattle.dso_plain.specs.Publishing.{with_shared, HasItsFields, private_is_there};

use crate::fields::open_fields;
use crate::tables::{HeapTables, Object};
use crate::threads::is_thread;
use dso_base::{NoMemory, ThreadId, Value};
use dso_lookup::{PrivateObjects, put, reached_from};
use std::alloc::Global;
use std::collections::BTreeMap;

/// Whether the thread is the owner.
pub(crate) fn is_owner(thread: ThreadId, owner: Option<ThreadId>) -> bool
    ensures { result ≡ State.is_owner thread owner }
{
    match owner {
        Some(owner) => is_thread(thread, owner),
        None => false,
    }
}

/// The objects of the tables that are private to a thread.
#[derive(Drop)]
struct PrivatesOf<'a> {
    thread: ThreadId,
    tables: &'a HeapTables,
}

impl PrivateObjects for PrivatesOf<'_> {
    ghost mine = { λ privates. is_mine privates.thread (state_of privates.tables.now) };

    ghost names = { λ privates. names (state_of privates.tables.now) };

    ghost objects = { λ privates. keys privates.tables.now.objects };

    fn is_private(&self, object: u64) -> bool {
        match self.tables.objects.get(&object) {
            Some(record) => is_owner(self.thread, record.owner),
            None => false,
        }
    }

    fn named(&self, alloc: Global, object: u64) -> Result<Vec<u64>, NoMemory> {
        let mut named = Vec::new(alloc);
        if let Some(record) = self.tables.objects.get(&object) {
            add_named(&self.tables.heap, object, record.size, &mut named)?;
        }
        Ok(named)
    }

    ghost listed = { λ privates o own. key_listed privates.tables.now.objects o (private_is_there privates.thread (look nat_cmp privates.tables.now.objects o) own) };
}

/// Adds the object that a field of an object names, if it names one.
fn add_field(
    heap: &BTreeMap<(u64, u32), Value>,
    object: u64,
    field: u32,
    named: &mut Vec<u64>,
) -> Result<(), NoMemory>
    ensures { OnOk result ((o : ℕ) → is_listed o named.new.items ≡ (is_listed o named.old.items || holds_reference o (look field_order heap.now (object, field)))) }
{
    if let Some(Value::Ref(other)) = heap.get(&(object, field)) {
        named.push(*other)?;
    }
    Ok(())
}

/// Adds the objects that the first fields of an object name.
fn add_named(
    heap: &BTreeMap<(u64, u32), Value>,
    object: u64,
    size: u32,
    named: &mut Vec<u64>,
) -> Result<(), NoMemory>
    ensures { OnOk result ((o : ℕ) → is_listed o named.new.items ≡ (is_listed o named.old.items || names_below (look field_order heap.now) size object o)) }
{
    for field in 0..size {
        add_field(heap, object, field, named)?;
    }
    Ok(())
}

/// Makes an object shared.
fn share(alloc: Global, tables: &mut HeapTables, object: u64) -> Result<(), NoMemory>
    requires { HasItsFields object (state_of tables.old) }
    ensures state { OnOk result (state_of tables.new ≡ with_shared (λ x. eqb x object) (state_of tables.old)) }
    ensures agrees { OnOk result (IndexesAgree tables.old → IndexesAgree tables.new) }
{
    let Some(record) = tables.objects.get(&object).copied() else {
        return Ok(());
    };
    let shared = Object {
        class: record.class,
        size: record.size,
        owner: None,
    };
    put(&mut tables.objects, object, shared)?;
    open_fields(alloc, &tables.heap, &mut tables.past, object, record.size)?;
    Ok(())
}

/// Makes shared what is found from a value through the private objects of a thread.
pub(crate) fn publish(
    alloc: Global,
    tables: &mut HeapTables,
    thread: ThreadId,
    value: Value,
) -> Result<(), NoMemory>
    requires { PastInvariant (state_of tables.old) }
    ensures state { OnOk result (state_of tables.new ≡ with_shared (published thread value (state_of tables.old)) (state_of tables.old)) }
    ensures agrees { OnOk result (IndexesAgree tables.old → IndexesAgree tables.new) }
{
    let privates = PrivatesOf {
        thread,
        tables: &*tables,
    };
    let mut reached = reached_from(alloc, &privates, value)?;
    while let Some(object) = reached.pop_first() {
        share(alloc, tables, object)?;
    }
    Ok(())
}
