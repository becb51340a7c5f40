//! Which of a client's leases let a thread in, and which are to be given back (`dso_law/specs/Closing.antt`).
ghost use Rattle.std.specs.Prelude.{◌≡◌, ◌&&◌, ◌||◌, Some, is_some, map};
ghost use Rattle.std.specs.List.{AllByRecursion, list_any};
ghost use Rattle.dso_lease.specs.Leases.{lease_of, standing_in};
ghost use Rattle.dso_law.specs.Closing.{admits, awaits_write, is_closing, is_lease_due, is_free, is_read, wants_write};
ghost use Rattle.dso_law.specs.Leases.{leased};
ghost use Rattle.dso_law.specs.RequestNeeds.{is_enough, hold_level};
ghost use Rattle.dso_law.specs.Settings.{threads_of};
ghost use Rattle.dso_law.specs.Threads.{hold_of};
ghost use Rattle.dso_client.specs.RunPoints.{RunPoint};
ghost use Rattle.dso_client.specs.StateStands.{ClientPartsStand};
ghost use Rattle.dso_client.specs.LockStateStands.{LockStateStands};
ghost use Rattle.dso_client.specs.RunFacts.{AreOwnHolds};
ghost use Rattle.dso_client.specs.ContextStands.{ContextStands};

use crate::client_state::ClientState;
use crate::lock_state::LockState;
use crate::thread_context::ThreadContext;
use dso_base::{Level, LockName, Request, ThreadId};
use dso_lease::Lease;

/// A thread that wants to enter a lock at a level.
#[derive(Clone, Copy, Debug, PartialEq, Eq)]
pub(crate) struct WantedEntry {
    pub thread: ThreadId,
    pub lock: LockName,
    pub level: Level,
}

/// Whether the request is for the lock at `Write`: an entry, or a resume of a thread that is marked.
fn wants_write(lock: LockName, is_marked: bool, request: Option<Request>) -> bool
    ensures { result ≡ wants_write lock is_marked request }
{
    match request {
        Some(Request::Enter(wanted, Level::Write)) => wanted == lock,
        Some(Request::Resume(wanted)) => wanted == lock && is_marked,
        _ => false,
    }
}

/// The level at which the thread holds the lock, None where it doesn't.
pub(crate) fn level_held(lock_state: &LockState, thread: ThreadId, lock: LockName) -> Option<Level>
    ensures { (at : RunPoint) → LockStateStands at lock_state.now → result ≡ hold_level (hold_of thread lock at.entries) }
{
    lock_state.holds.level_of(thread, lock)
}

/// Whether the thread of the context doesn't hold the lock and wants it at `Write`.
fn awaits_write(lock_state: &LockState, context: &ThreadContext, lock: LockName) -> bool
    ensures { (at : RunPoint) → LockStateStands at lock_state.now → ContextStands at context.now
        → result ≡ awaits_write at.settings at.client at.next lock at.entries context.now.id }
{
    level_held(lock_state, context.id, lock).is_none()
        && wants_write(lock, context.is_marked, context.next)
}

/// Whether a thread that doesn't hold the lock wants it at `Write`.
fn is_awaited(lock_state: &LockState, contexts: &[ThreadContext], lock: LockName) -> bool
    ensures { (at : RunPoint) → LockStateStands at lock_state.now → AllByRecursion (ContextStands at) contexts.now
        → result ≡ list_any (awaits_write at.settings at.client at.next lock at.entries) (map (λ context. context.id) contexts.now) }
{
    match contexts {
        [] => false,
        [context, ..] if awaits_write(lock_state, context, lock) => true,
        [_, rest @ ..] => is_awaited(lock_state, rest, lock),
    }
}

/// Whether there is a lease, of level `Read`.
fn is_read(lease: Option<Level>) -> bool
    ensures { result ≡ is_read lease }
{
    match lease {
        Some(Level::Read) => true,
        _ => false,
    }
}

/// Whether the level is `Read`, and a thread that doesn't hold the lock wants it at `Write`.
fn is_outgrown(kept: &ClientState, lock: LockName, level: Level) -> bool
    ensures { (at : RunPoint) → ClientPartsStand at kept.now
        → result ≡ (is_read (Some level) && list_any (awaits_write at.settings at.client at.next lock at.entries) (threads_of at.settings at.client)) }
{
    is_read(Some(level)) && is_awaited(&kept.lock_state, kept.contexts.as_slice(), lock)
}

/// Whether the lease of the lock, which is this one, is closing: it was recalled, or a thread wants more than it gives.
fn closes(kept: &ClientState, lock: LockName, lease: Lease) -> bool
    ensures { (at : RunPoint) → ClientPartsStand at kept.now → lease_of (standing_in kept.now.lock_state.leases lock) ≡ Some lease
        → result ≡ is_closing at.settings at.client at.next lock at.entries }
{
    lease.is_closing || is_outgrown(kept, lock, lease.level)
}

/// Whether there is a lease of the lock that is closing: it was recalled, or a thread wants more than it gives. It takes
/// no memory.
pub(crate) fn is_closing(kept: &ClientState, lock: LockName) -> bool
    ensures { (at : RunPoint) → ClientPartsStand at kept.now
        → result ≡ (is_some (leased lock at.entries) && is_closing at.settings at.client at.next lock at.entries) }
{
    match kept.lock_state.leases.leased(lock) {
        Some(lease) => closes(kept, lock, lease),
        None => false,
    }
}

/// Whether there is a lease of at least the level that admits an outer entry. It takes no memory.
pub(crate) fn admits(kept: &ClientState, lock: LockName, level: Level) -> bool
    ensures { (at : RunPoint) → ClientPartsStand at kept.now
        → result ≡ (is_enough level (leased lock at.entries) && admits at.settings at.client at.next lock at.entries) }
{
    match kept.lock_state.leases.leased(lock) {
        Some(lease) => {
            lease.suffices(level) && (!lease.is_entered || !closes(kept, lock, lease))
        }
        None => false,
    }
}

/// Whether no thread of the client holds the lock.
fn is_free(lock_state: &LockState, lock: LockName) -> bool
    ensures { (at : RunPoint) → LockStateStands at lock_state.now → AreOwnHolds at → result ≡ is_free at.settings at.client at.next lock at.entries }
{
    lock_state.holds.free(lock)
}

/// Whether the lease was entered, and is such as may be closing: it was recalled, or its level is `Read`.
fn may_be_due(lease: Lease) -> bool
    ensures { result ≡ (lease.is_entered && (lease.is_closing || is_read (Some lease.level))) }
{
    lease.is_entered && (lease.is_closing || is_read(Some(lease.level)))
}

/// Whether there is a lease of the lock that is to be given back: it is closing and was entered, and no thread of the
/// client holds the lock. It takes no memory. What the threads want is asked last, and only of a lease of level `Read`.
pub(crate) fn is_lease_due(kept: &ClientState, lock: LockName) -> bool
    ensures { (at : RunPoint) → ClientPartsStand at kept.now → AreOwnHolds at
        → result ≡ (is_some (leased lock at.entries) && is_lease_due at.settings at.client at.next lock at.entries) }
{
    match kept.lock_state.leases.leased(lock) {
        Some(lease) => {
            may_be_due(lease) && is_free(&kept.lock_state, lock) && closes(kept, lock, lease)
        }
        None => false,
    }
}
