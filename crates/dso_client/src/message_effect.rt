//! What a message that fits makes of what a client keeps (`specs/MessageEffects.antt`).
ghost use Rattle.std.specs.Prelude.{ℕ, ◌≡◌, ◌≤◌, [], ◌∷◌, OnOk, map, true};
ghost use Rattle.dso_base.specs.declared.message.Down.TheVariants as down;
ghost use Rattle.dso_law.specs.FitsDown.{FitsAck, FitsDown, FitsIds};
ghost use Rattle.dso_law.specs.Leases.{is_asked_for};
ghost use Rattle.dso_law.specs.Records.{records, unacked};
ghost use Rattle.dso_law.specs.RunLaws.{IdsAreTaken};
ghost use Rattle.dso_client.specs.ThreadActs.{KeepsCounts};
ghost use Rattle.dso_client.specs.MessageEffects.{heard};
ghost use Rattle.dso_client.specs.StateStands.{StateStands, ClientPartsStand};
ghost use Rattle.dso_client.specs.SequencesStand.{SequencesStand};
ghost use Rattle.dso_client.specs.LockStateStands.{LockStateStands};
ghost use Rattle.dso_client.specs.RunPoints.{RunPoint};
ghost use Rattle.dso_client.specs.RunFacts.{RunFacts};
ghost use Rattle.dso_client.specs.ContextPlaces.{running, with_mark};
ghost use Rattle.dso_client.specs.TouchedLocks.{resumed_lock, touched};
ghost use Rattle.dso_client.specs.TableStands.{TableStands};

use crate::client_state::ClientState;
use crate::lock_state::LockState;
use crate::message_fit::LAST_FIRST;
use crate::sequences::Sequences;
use crate::thread_context::{ThreadContext, context_at};
use dso_base::{Body, Down, Level, LockName, NoMemory, Request, Set};
use dso_lookup::take;
use dso_table::Table;
use std::alloc::Global;

/// A batch of ids that fits. It takes no memory.
pub(crate) fn hear_ids(sequences: &mut Sequences, first: u64)
    ensures heard { (clock : ℕ) (at : RunPoint) → SequencesStand at sequences.old → FitsIds first at.entries → IdsAreTaken at.entries
        → SequencesStand (heard clock (down.Ids first) at) sequences.new }
    ensures records { sequences.new.records ≡ sequences.old.records }
{
    sequences.is_asking = false;
    if LAST_FIRST < first {
        return;
    }
    if sequences.pool.next() == sequences.pool.end() {
        sequences.pool.refill(first);
    }
}

/// An object that was asked for.
pub(crate) fn hear_object(table: &mut Table, body: &Body) -> Result<(), NoMemory>
    ensures { OnOk result ((clock : ℕ) (at : RunPoint) → TableStands at table.old → TableStands (heard clock (down.Object body.now) at) table.new) }
{
    table.put_object(body, None)
}

/// A grant of a lock that was asked for: its lease begins, and its list is empty. It takes no memory.
pub(crate) fn hear_grant(lock_state: &mut LockState, lock: LockName, level: Level)
    ensures heard { (clock : ℕ) (at : RunPoint) → LockStateStands at lock_state.old → RunFacts at → is_asked_for lock at.entries ≡ true
        → LockStateStands (heard clock (down.Grant lock level) at) lock_state.new }
    ensures holds { lock_state.new.holds ≡ lock_state.old.holds }
{
    lock_state.leases.granted(lock, level);
    let _ = take(&mut lock_state.lists, &lock);
}

/// A recall of a lock: its lease, where there is one, is closing. It takes no memory.
pub(crate) fn hear_recall(lock_state: &mut LockState, lock: LockName)
    ensures heard { (clock : ℕ) (at : RunPoint) → LockStateStands at lock_state.old → LockStateStands (heard clock (down.Recall lock) at) lock_state.new }
    ensures holds { lock_state.new.holds ≡ lock_state.old.holds }
{
    lock_state.leases.recalled(lock);
}

/// An acknowledgement of the first record that isn't acknowledged, by the numbers that are kept. It takes no memory.
pub(crate) fn hear_ack(sequences: &mut Sequences, seq: u64)
    ensures heard { (clock : ℕ) (at : RunPoint) → SequencesStand at sequences.old → RunFacts at → FitsAck seq (unacked at.entries)
        → SequencesStand (heard clock (down.Ack seq) at) sequences.new }
    ensures records { sequences.new.records ≡ sequences.old.records }
{
    sequences.unacked.ack(seq);
}

/// An acknowledgement: the records up to this one keep no object. It takes no memory.
pub(crate) fn hear_acked(table: &mut Table, seq: u64)
    ensures { (clock : ℕ) (at : RunPoint) → TableStands at table.old → seq ≤ records at.entries → TableStands (heard clock (down.Ack seq) at) table.new }
{
    table.acked(seq);
}

/// A change of a field, where its object is resident. It takes no memory.
fn hear_change(alloc: Global, table: &mut Table, set: Set)
    ensures { (clock : ℕ) (at : RunPoint) → TableStands at table.old → TableStands (heard clock (down.Changes (set ∷ [])) at) table.new }
{
    table.set(alloc, set, None);
}

/// The changes of another client's record, in their order. It takes no memory.
pub(crate) fn hear_changes(alloc: Global, table: &mut Table, sets: &[Set])
    ensures { (clock : ℕ) (at : RunPoint) → TableStands at table.old → TableStands (heard clock (down.Changes sets.now) at) table.new }
{
    for set in sets {
        hear_change(alloc, table, *set);
    }
}

/// The thread of this index is marked, where there is one. It takes no memory.
pub(crate) fn mark(contexts: &mut [ThreadContext], index: u8)
    ensures { contexts.new ≡ with_mark index contexts.old }
{
    if index == 0 {
        return;
    }
    let at = index as usize - 1;
    if at < contexts.len() {
        contexts[at].is_marked = true;
    }
}

/// What a message that fits makes of what the client keeps, before it sends anything.
///
/// It answers `NoMemory` where an allocation was refused.
pub(crate) fn hear(alloc: Global, kept: &mut ClientState, message: &Down) -> Result<(), NoMemory>
    ensures parts { OnOk result ((clock : ℕ) (at : RunPoint) → StateStands at kept.old → FitsDown at.settings at.client message.now at.entries → IdsAreTaken at.entries
        → ClientPartsStand (heard clock message.now at) kept.new) }
    ensures runs { map running kept.new.contexts.items ≡ map running kept.old.contexts.items }
    ensures counts { KeepsCounts kept.old kept.new }
    ensures spent { kept.new.spent ≡ kept.old.spent }
{
    match message {
        Down::Ids(first) => {
            hear_ids(&mut kept.sequences, *first);
            Ok(())
        }
        Down::Object(body) => hear_object(&mut kept.table, body.get()),
        Down::Grant(lock, level) => {
            hear_grant(&mut kept.lock_state, *lock, *level);
            Ok(())
        }
        Down::Recall(lock) => {
            hear_recall(&mut kept.lock_state, *lock);
            Ok(())
        }
        Down::Ack(seq) => {
            hear_ack(&mut kept.sequences, *seq);
            hear_acked(&mut kept.table, *seq);
            Ok(())
        }
        Down::Changes(sets) => {
            hear_changes(alloc, &mut kept.table, sets.as_slice());
            Ok(())
        }
        Down::Wake(_, thread) => {
            mark(kept.contexts.as_mut_slice(), thread.index);
            Ok(())
        }
    }
}

/// The lock whose lease a message that fits may make due. It takes no memory.
pub(crate) fn touched(kept: &ClientState, message: &Down) -> Option<LockName>
    ensures { (at : RunPoint) → StateStands at kept.now → FitsDown at.settings at.client message.now at.entries → result ≡ touched at message.now }
{
    match message {
        Down::Recall(lock) => Some(*lock),
        Down::Wake(_, thread) => match context_at(kept, thread.index) {
            Some(context) => resumed_lock(context.next),
            None => None,
        },
        _ => None,
    }
}

/// The lock that a thread wants that goes on after a wait.
fn resumed_lock(next: Option<Request>) -> Option<LockName>
    ensures { result ≡ resumed_lock next }
{
    match next {
        Some(Request::Resume(lock)) => Some(lock),
        _ => None,
    }
}
