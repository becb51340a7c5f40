//! Which messages of the server fit (`dso_law/specs/FitsDown.antt`).
ghost use Rattle.std.specs.Prelude.{◌≡◌, ◌↔◌, IsTrue, Some};
ghost use Rattle.std.specs.List.{AllByRecursion, list_any};
ghost use Rattle.dso_base.specs.declared.value.ClassId.TheVariants.{Roots};
ghost use Rattle.dso_base.specs.Following.{is_thread};
ghost use Rattle.dso_law.specs.ClientWaiters.{client_list};
ghost use Rattle.dso_law.specs.FitsDown.{FitsIds, FitsObject, FitsAck, FitsClass, FitsChange, FitsWake, FitsDown};
ghost use Rattle.dso_law.specs.Records.{unacked};
ghost use Rattle.dso_client.specs.MessageFits.{MayWake};
ghost use Rattle.dso_client.specs.StateStands.{StateStands};
ghost use Rattle.dso_client.specs.SequencesStand.{SequencesStand};
ghost use Rattle.dso_client.specs.LockStateStands.{LockStateStands};
ghost use Rattle.dso_client.specs.Openings.{thread_at};
ghost use Rattle.dso_client.specs.RunPoints.{RunPoint};
ghost use Rattle.dso_client.specs.RunFacts.{RunFacts};
ghost use Rattle.dso_client.specs.ContextStands.{ContextStands};
ghost use Rattle.dso_client.specs.TableStands.{TableStands};

use crate::client_state::ClientState;
use crate::lock_state::LockState;
use crate::sequences::Sequences;
use crate::thread_context::{ThreadContext, context_at};
use dso_base::{Body, ClassId, Down, LockName, Set, Shape, ThreadId, fits};
use dso_law::{fits_shape, kind_at};
use dso_table::Table;

/// The greatest id with which a batch of 256 can begin.
pub(crate) const LAST_FIRST: u64 = u64::MAX - 256;

/// Whether a batch of ids fits: one is asked for, and the batch is behind all those before and ends within 64 bits.
fn fits_ids(sequences: &Sequences, first: u64) -> bool
    ensures { (at : RunPoint) → SequencesStand at sequences.now → IsTrue result ↔ FitsIds first at.entries }
{
    if !sequences.is_asking {
        return false;
    }
    if first < sequences.pool.end() {
        return false;
    }
    first <= LAST_FIRST
}

/// Whether the class is that of the object of the roots.
fn is_roots(class: ClassId) -> bool
    ensures { IsTrue result ↔ (class ≡ Roots) }
{
    match class {
        ClassId::Roots => true,
        _ => false,
    }
}

/// Whether an object fits: it is asked for, and of class Roots exactly where it is object 0, and fits the shape.
fn fits_object(table: &Table, shape: &Shape, body: &Body) -> bool
    ensures { (at : RunPoint) → TableStands at table.now → IsTrue result ↔ FitsObject shape.now body.now at.entries }
{
    table.is_asked(body.object)
        && is_roots(body.class) == (body.object == 0)
        && fits_shape(shape, body)
}

/// Whether the set names a field of an object of this class and size, and a value that fits it.
fn fits_field(shape: &Shape, class: ClassId, size: usize, set: Set) -> bool
    ensures { IsTrue result ↔ FitsClass shape.now set (Some (class, size)) }
{
    let field = set.field as usize;
    field < size && fits(kind_at(shape, class, field), set.value)
}

/// Whether the change of a field fits: of a resident object it names a field and a value that fits.
fn fits_change(table: &Table, shape: &Shape, set: Set) -> bool
    ensures { (at : RunPoint) → TableStands at table.now → IsTrue result ↔ FitsChange shape.now at.entries set }
{
    match table.get(set.object) {
        Some(body) => fits_field(shape, body.class, body.values.len(), set),
        None => true,
    }
}

/// Whether each change fits.
fn fit_changes(table: &Table, shape: &Shape, sets: &[Set]) -> bool
    ensures { (at : RunPoint) → TableStands at table.now → IsTrue result ↔ AllByRecursion (FitsChange shape.now at.entries) sets.now }
{
    for set in sets {
        if !fits_change(table, shape, *set) {
            return false;
        }
    }
    true
}

/// Whether the acknowledgement is of the first record that isn't acknowledged.
fn fits_ack(sequences: &Sequences, seq: u64) -> bool
    ensures { (at : RunPoint) → SequencesStand at sequences.now → RunFacts at → IsTrue result ↔ FitsAck seq (unacked at.entries) }
{
    match sequences.unacked.least() {
        Some(least) => least == seq,
        None => false,
    }
}

/// Whether the thread of the context waits on the lock, isn't marked and isn't in the client's list.
fn awaits_wake(lock_state: &LockState, context: &ThreadContext, lock: LockName) -> bool
    ensures { (at : RunPoint) → LockStateStands at lock_state.now → ContextStands at context.now → IsTrue result ↔ MayWake lock context.now.id at.entries }
{
    !context.is_marked && context.is_waiting_on(lock) && !is_listed(lock_state, lock, context.id)
}

/// Whether the thread is in the client's list of the lock.
pub(crate) fn is_listed(lock_state: &LockState, lock: LockName, thread: ThreadId) -> bool
    ensures { (at : RunPoint) → LockStateStands at lock_state.now → result ≡ list_any (is_thread thread) (client_list lock at.entries) }
{
    match lock_state.lists.get(&lock) {
        Some(list) => list.all().contains(&thread),
        None => false,
    }
}

/// Whether the client's thread of this index waits on the lock, isn't marked and isn't in the client's list.
fn may_wake(kept: &ClientState, lock: LockName, index: u8) -> bool
    ensures { (at : RunPoint) → StateStands at kept.now → IsTrue result ↔ MayWake lock (thread_at at.client index) at.entries }
{
    match context_at(kept, index) {
        Some(context) => awaits_wake(&kept.lock_state, context, lock),
        None => false,
    }
}

/// Whether a waking fits: the thread is one of the client's, waits on the lock, isn't marked and isn't in the client's
/// list.
fn fits_wake(kept: &ClientState, lock: LockName, thread: ThreadId) -> bool
    ensures { (at : RunPoint) → StateStands at kept.now → IsTrue result ↔ FitsWake at.client lock thread at.entries }
{
    thread.client == kept.number && may_wake(kept, lock, thread.index)
}

/// Whether a message of the server fits. It takes no memory.
pub(crate) fn fits_down(kept: &ClientState, shape: &Shape, message: &Down) -> bool
    ensures { (at : RunPoint) → StateStands at kept.now → at.settings.shape ≡ shape.now → IsTrue result ↔ FitsDown at.settings at.client message.now at.entries }
{
    match message {
        Down::Ids(first) => fits_ids(&kept.sequences, *first),
        Down::Object(body) => fits_object(&kept.table, shape, body.get()),
        Down::Grant(lock, _) => kept.lock_state.leases.is_asked(*lock),
        Down::Recall(_) => true,
        Down::Ack(seq) => fits_ack(&kept.sequences, *seq),
        Down::Changes(sets) => fit_changes(&kept.table, shape, sets.as_slice()),
        Down::Wake(lock, thread) => fits_wake(kept, *lock, *thread),
    }
}
