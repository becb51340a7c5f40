//! Which objects may be flushed, and the flush (`specs/Victims.antt`).
ghost use Rattle.std.specs.Prelude.{◌≡◌, ◌↔◌, IsTrue, OnOk, OnErr, IfErr};
ghost use Rattle.dso_table.specs.States.{flushed};
ghost use Rattle.dso_table.specs.ObjectTables.{state_in, TablesAgree};
ghost use Rattle.dso_table.specs.Victims.{IsFlushable, IsReason};

use crate::not_flushable::NotFlushable;
use crate::notes::first_thread;
use crate::tables::ObjectTables;
use crate::{order, places};

/// Whether the object may be flushed, and the first reason where it may not.
pub(crate) fn judged(tables: &ObjectTables, object: u64) -> Result<(), NotFlushable>
    ensures flushable { OnOk result (IsFlushable (state_in tables.now) object) }
    ensures reason { IfErr result (IsReason (state_in tables.now) object) }
{
    let Some(slot) = places::slot(&tables.places, object) else {
        return Err(NotFlushable::Absent);
    };
    if !slot.is_resident() {
        return Err(NotFlushable::Absent);
    }
    if let Some(seq) = slot.mark(tables.acked) {
        return Err(NotFlushable::Changed(seq));
    }
    if let Some(thread) = first_thread(&tables.opened, object) {
        return Err(NotFlushable::InBlock(thread));
    }
    match first_thread(&tables.wanted, object) {
        Some(thread) => Err(NotFlushable::Wanted(thread)),
        None => Ok(()),
    }
}

/// Whether the object may be flushed.
pub(crate) fn is_flushable(tables: &ObjectTables, object: u64) -> bool
    ensures { IsTrue result ↔ IsFlushable (state_in tables.now) object }
{
    judged(tables, object).is_ok()
}

/// Flushes an object that may be flushed: it is absent. Else it tells the first reason why not, and nothing is changed. It
/// takes no memory.
pub(crate) fn flush(tables: &mut ObjectTables, object: u64) -> Result<(), NotFlushable>
    requires agree { TablesAgree tables.old }
    ensures flushable { OnOk result (IsFlushable (state_in tables.old) object) }
    ensures flushed { OnOk result (state_in tables.new ≡ flushed object (state_in tables.old)) }
    ensures reason { IfErr result (IsReason (state_in tables.old) object) }
    ensures unchanged { OnErr result (state_in tables.new ≡ state_in tables.old) }
    ensures agree { TablesAgree tables.new }
{
    judged(tables, object)?;
    places::take_out(&mut tables.places, object);
    order::take_out(&mut tables.order, object);
    Ok(())
}
