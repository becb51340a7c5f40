//! What the tables tell of threads, locks and objects (`specs/HeapTables.antt`). Nothing here takes memory.
ghost use Rattle.std.specs.Prelude.{◌≡◌, ◌≢◌, ◌↔◌, true, false, None, Some, IsTrue, MatchOption, length, reverse, slice_get};
ghost use Rattle.std.specs.Option.{option_map, option_copied};
ghost use Rattle.std.specs.Ordering.{nat_cmp};
ghost use Rattle.dso_base.specs.declared.lock.LockName.{LockName};
ghost use Rattle.dso_base.specs.declared.lock.ThreadId.{ThreadId};
ghost use Rattle.dso_base.specs.Following.{is_thread};
ghost use Rattle.dso_lookup.specs.Maps.{look};
ghost use Rattle.dso_plain.specs.TableInvariants.{IndexesAgree};
ghost use Rattle.dso_plain.specs.State.{HoldsNothing, level_of};
ghost use Rattle.dso_plain.specs.Possible.{StandsFrom, IsUnmarkedWaiter};
ghost use Rattle.dso_plain.specs.HeapTables.{state_of, field_order};

use crate::tables::{HeapTables, Object};
use dso_base::{Items, Level, LockName, Same, ThreadId, Value};
use dso_lookup::{find_in, first_in, is_row_empty, is_row_taken};

/// Whether the client is lost.
pub(crate) fn is_lost(tables: &HeapTables, client: u8) -> bool
    ensures { result ≡ (state_of tables.now).lost client }
{
    match tables.lost.get(&client) {
        Some(lost) => *lost,
        None => false,
    }
}

/// Whether the thread has not ended.
pub(crate) fn is_going(tables: &HeapTables, thread: ThreadId) -> bool
    ensures { IsTrue result ↔ ((state_of tables.now).ended thread ≡ None) }
{
    tables.ended.get(&thread).is_none()
}

/// Whether the thread waits on no lock.
pub(crate) fn is_awake(tables: &HeapTables, thread: ThreadId) -> bool
    requires { IndexesAgree tables.now }
    ensures { IsTrue result ↔ ((l : LockName) → (state_of tables.now).asleep (l, thread) ≡ None) }
{
    is_row_empty(&tables.waiting, &thread)
}

/// Whether the thread holds no lock.
pub(crate) fn holds_nothing(tables: &HeapTables, thread: ThreadId) -> bool
    requires { IndexesAgree tables.now }
    ensures { IsTrue result ↔ HoldsNothing thread (state_of tables.now) }
{
    is_row_empty(&tables.held, &thread)
}

/// Whether the thread holds some lock.
pub(crate) fn holds_something(tables: &HeapTables, thread: ThreadId) -> bool
    requires { IndexesAgree tables.now }
    ensures { IsTrue result ↔ ((l : LockName) × ((state_of tables.now).monitors (l, thread) ≢ None)) }
{
    is_row_taken(&tables.held, &thread)
}

/// The level at which somebody holds the lock, None where nobody does.
pub(crate) fn first_level(tables: &HeapTables, lock: LockName) -> Option<Level>
    ensures { MatchOption result ((w : ThreadId) → (state_of tables.now).monitors (lock, w) ≡ None) (λ level. (w : ThreadId) × (level_of ((state_of tables.now).monitors (lock, w)) ≡ Some level)) }
{
    match first_in(&tables.holds, &lock) {
        Some(hold) => Some(hold.level),
        None => None,
    }
}

/// The level at which the thread holds the lock, None where it does not.
pub(crate) fn level(tables: &HeapTables, lock: LockName, thread: ThreadId) -> Option<Level>
    ensures { result ≡ level_of ((state_of tables.now).monitors (lock, thread)) }
{
    match find_in(&tables.holds, &lock, &thread) {
        Some(hold) => Some(hold.level),
        None => None,
    }
}

/// Whether nobody holds the lock.
pub(crate) fn is_free(tables: &HeapTables, lock: LockName) -> bool
    ensures { IsTrue result ↔ ((other : ThreadId) → (state_of tables.now).monitors (lock, other) ≡ None) }
{
    is_row_empty(&tables.holds, &lock)
}

/// Whether the thread waits on the lock.
pub(crate) fn is_waiting(tables: &HeapTables, lock: LockName, thread: ThreadId) -> bool
    requires { IndexesAgree tables.now }
    ensures { IsTrue result ↔ ((state_of tables.now).asleep (lock, thread) ≢ None) }
{
    find_in(&tables.waiting, &thread, &lock).is_some()
}

/// Whether the thread waits on the lock and is not marked there.
pub(crate) fn is_unmarked(tables: &HeapTables, lock: LockName, thread: ThreadId) -> bool
    requires { IndexesAgree tables.now }
    ensures { IsTrue result ↔ IsUnmarkedWaiter lock thread (state_of tables.now) }
{
    find_in(&tables.waits, &lock, &thread).is_some()
}

/// Whether the thread waits on the lock and is marked there: it was notified or has timed out.
pub(crate) fn is_marked(tables: &HeapTables, lock: LockName, thread: ThreadId) -> bool
    ensures { result ≡ (state_of tables.now).marked (lock, thread) }
{
    find_in(&tables.marked, &lock, &thread).is_some()
}

/// Whether no thread waits on the lock that is not marked there.
pub(crate) fn has_no_unmarked(tables: &HeapTables, lock: LockName) -> bool
    requires { IndexesAgree tables.now }
    ensures { IsTrue result ↔ ((w : ThreadId) → IsUnmarkedWaiter lock w (state_of tables.now) → ⊥) }
{
    is_row_empty(&tables.waits, &lock)
}

/// The object of an id.
pub(crate) fn object(tables: &HeapTables, id: u64) -> Option<Object>
    ensures { result ≡ look nat_cmp tables.now.objects id }
{
    tables.objects.get(&id).copied()
}

/// The value of a field.
pub(crate) fn value(tables: &HeapTables, object: u64, field: u32) -> Option<Value>
    ensures { result ≡ (state_of tables.now).heap (object, field) }
{
    tables.heap.get(&(object, field)).copied()
}

/// The place in a field's past that the thread has seen.
pub(crate) fn seen(tables: &HeapTables, thread: ThreadId, object: u64, field: u32) -> usize
    ensures { result ≡ (state_of tables.now).seen (thread, object, field) }
{
    match tables.seen.get(&(thread, object, field)) {
        Some(place) => *place,
        None => 0,
    }
}

/// Whether the value stands in a list that has the newest last, at or after a place. It looks from the newest
/// backwards.
fn stands_in(items: &[Value], place: usize, value: Value) -> bool
    ensures { IsTrue result ↔ StandsFrom place value (reverse items.now) }
{
    let mut at = items.len();
    while at > place {
        at -= 1;
        if items[at].same(&value) {
            return true;
        }
    }
    false
}

/// Whether the value stands in a field's past at or after a place.
pub(crate) fn stands_from(
    tables: &HeapTables,
    object: u64,
    field: u32,
    place: usize,
    value: Value,
) -> bool
    ensures { IsTrue result ↔ StandsFrom place value ((state_of tables.now).past (object, field)) }
{
    match tables.past.get(&(object, field)) {
        Some(past) => stands_in(past.as_slice(), place, value),
        None => false,
    }
}

/// How many values the thread printed.
pub(crate) fn printed(tables: &HeapTables, thread: ThreadId) -> usize
    ensures { result ≡ length ((state_of tables.now).output thread) }
{
    match tables.output.get(&thread) {
        Some(values) => values.len(),
        None => 0,
    }
}

/// What the thread printed at a place, counted from its first value.
pub(crate) fn output(tables: &HeapTables, thread: ThreadId, at: usize) -> Option<Value>
    ensures { result ≡ slice_get (reverse ((state_of tables.now).output thread)) at }
{
    match tables.output.get(&thread) {
        Some(values) => values.get(at).copied(),
        None => None,
    }
}
