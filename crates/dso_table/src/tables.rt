//! The tables of a client's objects: the places, the order of use, and the notes of threads (`specs/ObjectTables.antt`).
ghost use Rattle.std.specs.Prelude.{◌≡◌, true, false, Some, IfOk, OnOk, OnErr};
ghost use Rattle.std.specs.Bool.{OnTrue, OnFalse};
ghost use Rattle.dso_change.specs.Hands.{has_field};
ghost use Rattle.dso_table.specs.States.{nothing_known, asked, put, set, used, body_of, is_absent, is_resident};
ghost use Rattle.dso_table.specs.ObjectTables.{state_in, put_slot, TablesAgree};

use crate::notes::Notes;
use crate::order::Order;
use crate::places::Places;
use crate::slot::{ObjectStanding, Slot, changed_last};
use crate::{notes, order, places};
use dso_base::{Body, NoMemory, Set, ThreadId};
use slab::Slab;
use std::alloc::Global;
use std::collections::BTreeMap;

/// What is kept of the objects that aren't absent, the order of use of the resident ones, the objects that the open block
/// of each thread puts to, those that each thread wants, and the greatest number of a record acknowledged.
#[derive(Drop)]
pub struct ObjectTables {
    pub places: Places,
    pub order: Order,
    pub opened: Notes,
    pub wanted: Notes,
    pub acked: u64,
}

/// Nothing is known, and so many objects are to be resident. It answers `NoMemory` where an allocation was refused.
pub(crate) fn new(alloc: Global, limit: u32) -> Result<ObjectTables, NoMemory>
    ensures empty { IfOk result (λ tables. state_in tables ≡ nothing_known limit) }
    ensures agree { IfOk result TablesAgree }
{
    let order = order::new(alloc, limit)?;
    let places = Places {
        slots: Slab::new(alloc),
        index: BTreeMap::new(alloc),
    };
    Ok(ObjectTables {
        places,
        order,
        opened: BTreeMap::new(alloc),
        wanted: BTreeMap::new(alloc),
        acked: 0,
    })
}

/// A thread asks for an object: true, and it is asked for and the thread wants it, exactly where it was absent. It answers
/// `NoMemory` where an allocation was refused. Else nothing is changed.
pub(crate) fn ask(
    alloc: Global,
    tables: &mut ObjectTables,
    object: u64,
    thread: ThreadId,
) -> Result<bool, NoMemory>
    requires agree { TablesAgree tables.old }
    ensures absent { IfOk result (λ absent. absent ≡ is_absent ((state_in tables.old).standing object)) }
    ensures asked { IfOk result (λ absent. OnTrue absent (state_in tables.new ≡ asked object thread (state_in tables.old))) }
    ensures unchanged { IfOk result (λ absent. OnFalse absent (state_in tables.new ≡ state_in tables.old)) }
    ensures err { OnErr result (state_in tables.new ≡ state_in tables.old) }
    ensures agree { TablesAgree tables.new }
{
    if places::is_known(&tables.places, object) {
        return Ok(false);
    }
    let slot = Slot {
        object,
        standing: ObjectStanding::Asked,
        changed: None,
    };
    places::add(&mut tables.places, slot)?;
    match notes::add(alloc, &mut tables.wanted, thread, object) {
        Ok(()) => Ok(true),
        Err(refused) => {
            places::take_out(&mut tables.places, object);
            Err(refused)
        }
    }
}

/// Puts the slot of an object that isn't resident, and then is. It answers `NoMemory` where an allocation was refused, and
/// nothing is changed then.
fn put_new(tables: &mut ObjectTables, slot: Slot) -> Result<(), NoMemory>
    requires agree { TablesAgree tables.old }
    requires resident { is_resident (Some slot.standing) ≡ true }
    requires absent { is_resident ((state_in tables.old).standing slot.object) ≡ false }
    ensures ok { OnOk result (state_in tables.new ≡ put_slot slot 1 (state_in tables.old)) }
    ensures err { OnErr result (state_in tables.new ≡ state_in tables.old) }
    ensures agree { TablesAgree tables.new }
{
    let object = slot.object;
    order::add(&mut tables.order, object)?;
    match places::put(&mut tables.places, slot) {
        Ok(()) => Ok(()),
        Err(refused) => {
            order::take_out(&mut tables.order, object);
            Err(refused)
        }
    }
}

/// Puts the copy of an object, which the own record of this number changed, if there is one. It answers `NoMemory` where an
/// allocation was refused, and nothing is changed then.
pub(crate) fn put(
    tables: &mut ObjectTables,
    body: Body,
    changed: Option<u64>,
) -> Result<(), NoMemory>
    requires agree { TablesAgree tables.old }
    ensures ok { OnOk result (state_in tables.new ≡ put body changed (state_in tables.old)) }
    ensures err { OnErr result (state_in tables.new ≡ state_in tables.old) }
    ensures agree { TablesAgree tables.new }
{
    let object = body.object;
    let slot = Slot {
        object,
        standing: ObjectStanding::Resident(body),
        changed: changed_last(changed, places::changed_before(&tables.places, object)),
    };
    if places::is_resident(&tables.places, object) {
        places::replace(&mut tables.places, slot);
        return Ok(());
    }
    put_new(tables, slot)
}

/// Writes a field of the copy of an object. False, with nothing changed, exactly where there is no copy or it has no such
/// field. It takes no memory.
pub(crate) fn set(
    alloc: Global,
    tables: &mut ObjectTables,
    change: Set,
    changed: Option<u64>,
) -> bool
    requires agree { TablesAgree tables.old }
    ensures found { result ≡ has_field change.field (body_of ((state_in tables.old).standing change.object)) }
    ensures written { OnTrue result (state_in tables.new ≡ set change changed (state_in tables.old)) }
    ensures unchanged { OnFalse result (state_in tables.new ≡ state_in tables.old) }
    ensures agree { TablesAgree tables.new }
{
    places::write(alloc, &mut tables.places, change, changed)
}

/// A resident object was used: it is the first of those used last. It answers `NoMemory` where an allocation was refused,
/// and nothing is changed then.
pub(crate) fn touch(tables: &mut ObjectTables, object: u64) -> Result<(), NoMemory>
    requires agree { TablesAgree tables.old }
    ensures ok { OnOk result (state_in tables.new ≡ used object (state_in tables.old)) }
    ensures err { OnErr result (state_in tables.new ≡ state_in tables.old) }
    ensures agree { TablesAgree tables.new }
{
    if !places::is_resident(&tables.places, object) {
        return Ok(());
    }
    order::touch(&mut tables.order, object)
}
