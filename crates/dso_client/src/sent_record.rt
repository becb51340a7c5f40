//! A record that is sent (`specs/SentRecords.antt`).
ghost use Rattle.std.specs.Prelude.{ℕ, ◌≡◌, ◌+◌, ◌<◌, ◌^◌, [], ◌∷◌, IfOk, OnOk, Option, Some, false, true};
ghost use Rattle.dso_base.specs.declared.lock.ThreadId.{ThreadId};
ghost use Rattle.dso_base.specs.declared.message.Up.TheVariants.{Commit};
ghost use Rattle.dso_base.specs.declared.record.Body as body;
ghost use Rattle.dso_base.specs.declared.record.Txn as txn;
ghost use Rattle.dso_base.specs.declared.request.Request.{Request};
ghost use Rattle.dso_change.specs.Hands.{has_field};
ghost use Rattle.dso_table.specs.States.{body_of, put, set};
ghost use Rattle.dso_table.specs.ObjectTables.{state_in};
ghost use Rattle.dso_client.specs.SentRecords.{MaySend, changed_context, with_record};
ghost use Rattle.dso_client.specs.StateStands.{ClientPartsStand};
ghost use Rattle.dso_client.specs.SequencesStand.{SequencesStand};
ghost use Rattle.dso_client.specs.ActEffects.{acting};
ghost use Rattle.dso_client.specs.Openings.{thread_at};
ghost use Rattle.dso_client.specs.RunPoints.{RunPoint};
ghost use Rattle.dso_client.specs.TableStands.{TableStands};
ghost use Rattle.dso_client.specs.declared.answered.Answered.{Answered};

use crate::client_state::ClientState;
use crate::sequences::Sequences;
use crate::thread_context::ThreadContext;
use dso_base::{Body, NoMemory, Set, Txn};
use dso_table::Table;
use std::alloc::Global;

/// A copy of the client's copy of an object, None where the object isn't resident.
///
/// It answers `NoMemory` where an allocation was refused.
fn copy_of(table: &Table, object: u64) -> Result<Option<Body>, NoMemory>
    ensures { IfOk result (λ copy. copy ≡ body_of ((state_in table.now).standing object)) }
{
    match table.get(object) {
        Some(body) => {
            let copy = body.clone()?;
            Ok(Some(copy))
        }
        None => Ok(None),
    }
}

/// A set of the own record of this number: the copy of its object has the value, and the number is the object's mark.
///
/// It answers `NoMemory` where an allocation was refused.
fn send_set(alloc: Global, table: &mut Table, change: Set, seq: u64) -> Result<(), NoMemory>
    ensures written { OnOk result (has_field change.field (body_of ((state_in table.old).standing change.object)) ≡ true
        → state_in table.new ≡ set change (Some seq) (state_in table.old)) }
    ensures marked { OnOk result ((copy : body.Body) → body_of ((state_in table.old).standing change.object) ≡ Some copy
        → has_field change.field (Some copy) ≡ false → state_in table.new ≡ put copy (Some seq) (state_in table.old)) }
{
    if table.set(alloc, change, Some(seq)) {
        return Ok(());
    }
    match copy_of(table, change.object)? {
        Some(copy) => table.put_object(&copy, Some(seq)),
        None => Ok(()),
    }
}

/// The objects that a record publishes are resident, and the copies of others have the values that it sets; the number
/// of the record is the mark of each.
///
/// It answers `NoMemory` where an allocation was refused.
fn send_objects(alloc: Global, table: &mut Table, txn: &Txn) -> Result<(), NoMemory>
    ensures { OnOk result ((clock : ℕ) (act : Answered) (next : ThreadId → Option Request) (at : RunPoint) → TableStands (acting clock act [] next at) table.old
        → MaySend at txn.now → TableStands (acting clock act (Commit txn.now ∷ []) next at) table.new) }
{
    for body in txn.news.as_slice() {
        table.put_object(body, Some(txn.seq))?;
    }
    for set in txn.sets.as_slice() {
        send_set(alloc, table, *set, txn.seq)?;
    }
    Ok(())
}

/// One more record was sent, of this number, and isn't acknowledged.
///
/// It answers `NoMemory` where an allocation was refused.
fn count_record(sequences: &mut Sequences, seq: u64) -> Result<(), NoMemory>
    requires few { sequences.old.records < 2 ^ 62 }
    ensures stands { OnOk result ((clock : ℕ) (act : Answered) (next : ThreadId → Option Request) (at : RunPoint) (txn : txn.Txn) → txn.seq ≡ seq
        → SequencesStand (acting clock act [] next at) sequences.old → SequencesStand (acting clock act (Commit txn ∷ []) next at) sequences.new) }
    ensures one_more { OnOk result (sequences.new.records ≡ sequences.old.records + 1) }
{
    sequences.unacked.add(seq)?;
    sequences.records += 1;
    Ok(())
}

/// The last record of the thread of this index has this number, where there is such a thread. It takes no memory.
fn note_record(contexts: &mut [ThreadContext], index: u8, seq: u64)
    ensures { contexts.new ≡ changed_context index (with_record seq) contexts.old }
{
    if index == 0 {
        return;
    }
    let at = index as usize - 1;
    if at < contexts.len() {
        contexts[at].last_record = Some(seq);
    }
}

/// A record of the thread of this index is sent.
///
/// It answers `NoMemory` where an allocation was refused.
pub(crate) fn send_record(
    alloc: Global,
    kept: &mut ClientState,
    index: u8,
    txn: &Txn,
) -> Result<(), NoMemory>
    requires few { kept.old.sequences.records < 2 ^ 62 }
    ensures parts { OnOk result ((clock : ℕ) (act : Answered) (next : ThreadId → Option Request) (at : RunPoint) → ClientPartsStand (acting clock act [] next at) kept.old
        → MaySend at txn.now → txn.now.thread ≡ thread_at at.client index → ClientPartsStand (acting clock act (Commit txn.now ∷ []) next at) kept.new) }
    ensures contexts { OnOk result (kept.new.contexts.items ≡ changed_context index (with_record txn.now.seq) kept.old.contexts.items) }
    ensures number { kept.new.number ≡ kept.old.number }
    ensures lock_state { kept.new.lock_state ≡ kept.old.lock_state }
    ensures records { OnOk result (kept.new.sequences.records ≡ kept.old.sequences.records + 1) }
    ensures spent { kept.new.spent ≡ kept.old.spent }
{
    send_objects(alloc, &mut kept.table, txn)?;
    count_record(&mut kept.sequences, txn.seq)?;
    note_record(kept.contexts.as_mut_slice(), index, txn.seq);
    Ok(())
}
