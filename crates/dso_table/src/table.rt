//! The table of a client's objects (`specs/States.antt`).
ghost use Rattle.std.specs.Prelude.{ℕ, ◌≡◌, IfNone, IfSome, IfOk, IfErr, OnOk, OnErr};
ghost use Rattle.std.specs.Bool.{OnTrue, OnFalse};
ghost use Rattle.std.specs.Option.{option_copied};
ghost use Rattle.dso_base.specs.Block.{body_names};
ghost use Rattle.dso_change.specs.Hands.{has_field};
ghost use Rattle.dso_lookup.specs.Search.{has_edge};
ghost use Rattle.dso_table.specs.States.{nothing_known, body_of, is_absent, is_asked, asked, put, set, acted, acknowledged, opened, closed, used, flushed};
ghost use Rattle.dso_table.specs.ObjectTables.{state_in};
ghost use Rattle.dso_table.specs.Victims.{IsFlushable, IsReason, IsVictim, NoVictim};

use crate::not_flushable::NotFlushable;
use crate::slot::ObjectStanding;
use crate::tables::ObjectTables;
use crate::{edges, flush, notes, places, tables, victim};
use dso_base::{Body, NoMemory, Set, ThreadId};
use std::alloc::Global;
use std::marker::Model;

/// The objects that a client knows. Contracts see its state (`state_in`): how each object stands, what keeps it from being
/// flushed, and which objects were used last.
///
/// An object is absent, asked for, or resident with a copy. It may be flushed where it is resident, no own record that
/// isn't acknowledged changed it, no open block puts to it and no thread wants it.
///
/// Each call costs the logarithm of what the table holds: [`Table::put_object`] besides the copy that it makes,
/// [`Table::acted`] and [`Table::closed`] the notes that they drop, [`Table::flush`] that for each thread with notes, and
/// [`Table::victim`] that for each resident object that may not be flushed.
#[derive(Drop)]
pub struct Table {
    tables: ObjectTables,
}

impl Model for Table {
    ghost use Rattle.dso_table.specs.declared.tables.ObjectTables.{ObjectTables};
    ghost use Rattle.dso_table.specs.contracts.tables.ObjectTables.{the_row};
    ghost use Rattle.dso_table.specs.ObjectTables.{TablesAgree};

    ghost Value = { ObjectTables };

    ghost coded = { the_row.coded };

    ghost view = { λ table. table.tables };

    ghost invariant = { λ table. TablesAgree table.tables };
}

impl Table {
    /// An empty table of a client that is to keep so many resident objects. It answers `NoMemory` where an allocation was
    /// refused.
    pub fn new(alloc: Global, resident: u32) -> Result<Table, NoMemory>
        ensures { IfOk result (λ table. state_in table ≡ nothing_known resident) }
    {
        let tables = tables::new(alloc, resident)?;
        Ok(Table { tables })
    }

    /// The copy of an object, None exactly where it isn't resident. It takes no memory.
    pub fn get(&self, object: u64) -> Option<&Body>
        ensures { option_copied result ≡ body_of ((state_in self.now).standing object) }
    {
        match &places::slot(&self.tables.places, object)?.standing {
            ObjectStanding::Asked => None,
            ObjectStanding::Resident(body) => Some(body),
        }
    }

    /// The edges of the copies: from a to b exactly where the copy of a names b in a field, as often as it does. They stand
    /// by rising a, and it costs the size of the copies.
    ///
    /// It answers `NoMemory` where an allocation was refused.
    pub fn edges(&self, alloc: Global) -> Result<Vec<(u64, u64)>, NoMemory>
        ensures { IfOk result (λ edges. (a b : ℕ) → has_edge a b edges.items ≡ body_names (body_of ((state_in self.now).standing a)) b) }
    {
        edges::edges(&self.tables.places, alloc)
    }

    /// Whether an object was asked for and isn't resident yet. It takes no memory.
    pub fn is_asked(&self, object: u64) -> bool
        ensures { result ≡ is_asked ((state_in self.now).standing object) }
    {
        match places::slot(&self.tables.places, object) {
            Some(slot) => !slot.is_resident(),
            None => false,
        }
    }

    /// The thread wants an object. True exactly where it was absent: it is asked for, and the want is noted. False changes
    /// nothing.
    ///
    /// It answers `NoMemory` where an allocation was refused, and nothing is changed then.
    pub fn ask(&mut self, alloc: Global, object: u64, thread: ThreadId) -> Result<bool, NoMemory>
        ensures absent { IfOk result (λ absent. absent ≡ is_absent ((state_in self.old).standing object)) }
        ensures asked { IfOk result (λ absent. OnTrue absent (state_in self.new ≡ asked object thread (state_in self.old))) }
        ensures unchanged { IfOk result (λ absent. OnFalse absent (state_in self.new ≡ state_in self.old)) }
        ensures err { OnErr result (state_in self.new ≡ state_in self.old) }
    {
        tables::ask(alloc, &mut self.tables, object, thread)
    }

    /// The object is resident with this content. The own record of number `changed` is the last one that changed it, where
    /// there is one, unless it was acknowledged before. Wants and notes of open blocks stay.
    ///
    /// It answers `NoMemory` where an allocation was refused, and nothing is changed then.
    pub fn put_object(&mut self, body: &Body, changed: Option<u64>) -> Result<(), NoMemory>
        ensures ok { OnOk result (state_in self.new ≡ put body.now changed (state_in self.old)) }
        ensures err { OnErr result (state_in self.new ≡ state_in self.old) }
    {
        let copy = body.clone()?;
        tables::put(&mut self.tables, copy, changed)
    }

    /// Writes a field of a resident object. False, with nothing changed, exactly where it isn't resident or has no such
    /// field. The own record of number `changed` is the last one that changed it, where there is one, unless it was
    /// acknowledged before. It takes no memory.
    pub fn set(&mut self, alloc: Global, change: Set, changed: Option<u64>) -> bool
        ensures found { result ≡ has_field change.field (body_of ((state_in self.old).standing change.object)) }
        ensures written { OnTrue result (state_in self.new ≡ set change changed (state_in self.old)) }
        ensures unchanged { OnFalse result (state_in self.new ≡ state_in self.old) }
    {
        tables::set(alloc, &mut self.tables, change, changed)
    }

    /// The thread acted: it wants no object. It takes no memory.
    pub fn acted(&mut self, thread: ThreadId)
        ensures { state_in self.new ≡ acted thread (state_in self.old) }
    {
        notes::drop_thread(&mut self.tables.wanted, thread);
    }

    /// The own records up to this number are acknowledged: their changes keep no object. It takes no memory.
    pub fn acked(&mut self, seq: u64)
        ensures { state_in self.new ≡ acknowledged seq (state_in self.old) }
    {
        self.tables.acked = self.tables.acked.max(seq);
    }

    /// The thread's open block puts to the object.
    ///
    /// It answers `NoMemory` where an allocation was refused, and nothing is changed then.
    pub fn opened(&mut self, alloc: Global, object: u64, thread: ThreadId) -> Result<(), NoMemory>
        ensures ok { OnOk result (state_in self.new ≡ opened object thread (state_in self.old)) }
        ensures err { OnErr result (state_in self.new ≡ state_in self.old) }
    {
        notes::add(alloc, &mut self.tables.opened, thread, object)
    }

    /// The thread's block was closed: it puts to no object. It takes no memory.
    pub fn closed(&mut self, thread: ThreadId)
        ensures { state_in self.new ≡ closed thread (state_in self.old) }
    {
        notes::drop_thread(&mut self.tables.opened, thread);
    }

    /// A look, get or put used a resident object: it is the first of those used last, of which no more than `resident` of
    /// [`Table::new`] are kept. Nothing changes where it isn't resident.
    ///
    /// It answers `NoMemory` where an allocation was refused, and nothing is changed then.
    pub fn used(&mut self, object: u64) -> Result<(), NoMemory>
        ensures ok { OnOk result (state_in self.new ≡ used object (state_in self.old)) }
        ensures err { OnErr result (state_in self.new ≡ state_in self.old) }
    {
        tables::touch(&mut self.tables, object)
    }

    /// Makes an object absent that may be flushed. It is none of those used last then.
    ///
    /// Else nothing is changed, and the first reason is told: `Absent` exactly where it isn't resident; else `Changed`
    /// exactly where an own record that isn't acknowledged changed it, with the last one's number; else `InBlock` exactly
    /// where an open block puts to it, with the least such thread; else `Wanted` exactly where a thread wants it, with the
    /// least such thread. It takes no memory.
    pub fn flush(&mut self, object: u64) -> Result<(), NotFlushable>
        ensures flushable { OnOk result (IsFlushable (state_in self.old) object) }
        ensures flushed { OnOk result (state_in self.new ≡ flushed object (state_in self.old)) }
        ensures reason { IfErr result (IsReason (state_in self.old) object) }
        ensures unchanged { OnErr result (state_in self.new ≡ state_in self.old) }
    {
        flush::flush(&mut self.tables, object)
    }

    /// The object that is to be flushed next, None exactly where no more objects are resident than the client is to keep,
    /// or none of them may be flushed. It is the flushable one of least id that isn't among those used last, else the
    /// flushable one that was used longest ago.
    ///
    /// It looks only at objects that may not be flushed and at the one that it answers, and takes no memory.
    pub fn victim(&self) -> Option<u64>
        ensures none { IfNone result (NoVictim (state_in self.now)) }
        ensures victim { IfSome result (IsVictim (state_in self.now)) }
    {
        victim::victim(&self.tables)
    }
}
