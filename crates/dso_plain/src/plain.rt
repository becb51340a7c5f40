//! The plain state, as a value that a program computes (`specs/State.antt`).
ghost use Rattle.std.specs.Prelude.{◌≡◌, ◌↔◌, true, false, None, IfOk, IsTrue, length, reverse, slice_get};
ghost use Rattle.dso_plain.specs.After.{after};
ghost use Rattle.dso_plain.specs.Possible.{May};
ghost use Rattle.dso_plain.specs.State.{opening};
ghost use Rattle.dso_plain.specs.HeapTables.{state_of, object_of};
ghost use Rattle.dso_base.specs.declared.lock.LockName.{LockName};
ghost use Rattle.std.specs.Option.{option_map};

use crate::fields::{make_fields, open_fields};
use crate::reads;
use crate::steps::step;
use crate::tables::{HeapTables, Object};
use dso_base::{ClassId, Event, Fault, NoMemory, Shape, ThreadId, Value};
use dso_lookup::put;
use std::alloc::Global;
use std::marker::Model;

/// One heap with plain monitors. Contracts see its tables, and the plain state that they stand for.
#[derive(Drop)]
pub struct Plain {
    tables: HeapTables,
}

impl Model for Plain {
    ghost use Rattle.dso_plain.specs.declared.tables.HeapTables.{HeapTables};
    ghost use Rattle.dso_plain.specs.contracts.tables.HeapTables.{the_row};

    ghost Value = { HeapTables };

    ghost coded = { the_row.coded };

    ghost use Rattle.dso_plain.specs.TableInvariants.{TablesInvariant};

    ghost view = { λ plain. plain.tables };

    ghost invariant = { λ plain. TablesInvariant plain.tables };
}

impl Plain {
    /// The opening state: object 0 of the roots, with one null field for each.
    pub fn new(alloc: Global, shape: &Shape) -> Result<Plain, NoMemory>
        ensures { IfOk result (λ plain. state_of plain ≡ opening shape.now) }
    {
        let mut tables = HeapTables::blank(alloc);
        let roots = Object {
            class: ClassId::Roots,
            size: shape.roots,
            owner: None,
        };
        put(&mut tables.objects, 0, roots)?;
        make_fields(&mut tables.heap, shape, ClassId::Roots, 0, shape.roots)?;
        open_fields(alloc, &tables.heap, &mut tables.past, 0, shape.roots)?;
        Ok(Plain { tables })
    }

    /// Makes the event where the plain step has it from this state, and answers whether it does; else nothing changes.
    ///
    /// Where an allocation was refused, nothing is known of what stands here afterwards.
    pub fn apply(&mut self, alloc: Global, shape: &Shape, event: &Event) -> Result<bool, NoMemory>
        ensures made { IfOk result (λ made. made ≡ true → May shape.now event.now (state_of self.old) × (state_of self.new ≡ after shape.now event.now (state_of self.old))) }
        ensures refused { IfOk result (λ made. made ≡ false → (May shape.now event.now (state_of self.old) → ⊥) × (state_of self.new ≡ state_of self.old)) }
    {
        match step(alloc, &mut self.tables, shape, event) {
            Ok(made) => Ok(made),
            Err(refused) => {
                self.tables = HeapTables::blank(alloc);
                Err(refused)
            }
        }
    }

    /// How many values the thread printed. It takes no memory.
    pub fn printed(&self, thread: ThreadId) -> usize
        ensures { result ≡ length ((state_of self.now).output thread) }
    {
        reads::printed(&self.tables, thread)
    }

    /// What the thread printed at a place, counted from its first value; None past its last. It takes no memory.
    pub fn output(&self, thread: ThreadId, at: usize) -> Option<Value>
        ensures { result ≡ slice_get (reverse ((state_of self.now).output thread)) at }
    {
        reads::output(&self.tables, thread, at)
    }

    /// Whether the thread has ended, and with which fault. It takes no memory.
    pub fn ended(&self, thread: ThreadId) -> Option<Option<Fault>>
        ensures { result ≡ (state_of self.now).ended thread }
    {
        self.tables.ended.get(&thread).copied()
    }

    /// Whether the thread waits on some lock. It takes no memory.
    pub fn waits(&self, thread: ThreadId) -> bool
        ensures { IsTrue result ↔ (((l : LockName) → (state_of self.now).asleep (l, thread) ≡ None) → ⊥) }
    {
        !reads::is_awake(&self.tables, thread)
    }

    /// Whether the client is lost. It takes no memory.
    pub fn is_lost(&self, client: u8) -> bool
        ensures { result ≡ (state_of self.now).lost client }
    {
        reads::is_lost(&self.tables, client)
    }

    /// The object of an id: its class, its size and the thread it is private to; None where there is none. It takes no
    /// memory.
    pub fn object(&self, id: u64) -> Option<Object>
        ensures { option_map object_of result ≡ (state_of self.now).objects id }
    {
        reads::object(&self.tables, id)
    }

    /// The value of a field, None where there is no such field. It takes no memory.
    pub fn value(&self, object: u64, field: u32) -> Option<Value>
        ensures { result ≡ (state_of self.now).heap (object, field) }
    {
        reads::value(&self.tables, object, field)
    }

    /// How many unguarded reads there were. It takes no memory.
    pub fn unguarded(&self) -> usize
        ensures { result ≡ (state_of self.now).unguarded }
    {
        self.tables.unguarded.get()
    }
}
