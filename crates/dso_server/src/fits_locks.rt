//! Whether a request or a return fits (`dso_law/specs/FitsUp.antt`).
ghost use Rattle.std.specs.Prelude.{◌≡◌, ◌≤◌, ◌↔◌, IsTrue, true, false, [], length, take};
ghost use Rattle.std.specs.Bool.{OnTrue};
ghost use Rattle.std.specs.List.{AllByRecursion, list_any};
ghost use Rattle.dso_base.specs.Following.{is_thread};
ghost use Rattle.dso_law.specs.FitsUp.{AreDistinct, FitsRequest, FitsReturn, IsLock, IsNewWaiter};
ghost use Rattle.dso_law.specs.ServerReadings.{is_given};
ghost use Rattle.dso_locks.specs.Locks.{waits};
ghost use Rattle.dso_locks.specs.LockRows.{locks_in};
ghost use Rattle.dso_server.specs.Fitting.{Tells, TellsIn};

use crate::reads::{is_given, is_thread_of, is_waiter, lease, waits};
use crate::server::Server;
use dso_base::{Level, LockName, Shape, ThreadId};

/// Whether the object has a monitor: its id, from 1 on, was given out.
fn is_monitor(server: &Server, object: u64) -> bool
    ensures { Tells server.now result (λ p es. (1 ≤ object) × (is_given object es ≡ true)) }
{
    if object == 0 {
        return false;
    }
    is_given(server, object)
}

/// Whether there is such a lock.
fn is_lock(server: &Server, shape: &Shape, lock: LockName) -> bool
    ensures { TellsIn shape.now server.now result (λ p es. IsLock p lock es) }
{
    match lock {
        LockName::Name(name) => name < shape.names,
        LockName::Mon(object) => is_monitor(server, object),
    }
}

/// Whether a request of the client fits.
pub(crate) fn fits_request(server: &Server, shape: &Shape, client: u8, lock: LockName) -> bool
    ensures tells { TellsIn shape.now server.now result (λ p es. FitsRequest p client lock es) }
    ensures free { OnTrue result (waits client (locks_in server.now.locks lock) ≡ false) }
{
    if let Some(_) = lease(server, client, lock) {
        return false;
    }
    if waits(server, client, lock) {
        return false;
    }
    is_lock(server, shape, lock)
}

/// Whether the thread is one of the first of the list, so many of them.
fn is_before(threads: &[ThreadId], at: usize, thread: ThreadId) -> bool
    requires { at ≤ length threads.now }
    ensures { result ≡ list_any (is_thread thread) (take at threads.now) }
{
    threads[..at].contains(&thread)
}

/// Whether the thread is one of the client's and isn't in the server's list of the lock.
fn is_new_waiter(server: &Server, client: u8, lock: LockName, thread: ThreadId) -> bool
    ensures { Tells server.now result (λ p es. IsNewWaiter p client lock es thread) }
{
    if !is_thread_of(server, client, thread) {
        return false;
    }
    !is_waiter(server, lock, thread)
}

/// Whether the threads are the client's, each once, and none is in the server's list of the lock. It looks at no more
/// than one more than the client has, each of which is new and differs from those before it.
fn are_new_waiters(server: &Server, client: u8, lock: LockName, threads: &[ThreadId]) -> bool
    ensures { Tells server.now result (λ p es. AllByRecursion (IsNewWaiter p client lock es) threads.now × AreDistinct threads.now) }
{
    for (at, thread) in threads.iter().enumerate() {
        if is_before(threads, at, *thread) {
            return false;
        }
        if !is_new_waiter(server, client, lock, *thread) {
            return false;
        }
    }
    true
}

/// Whether there are no threads.
fn are_none(threads: &[ThreadId]) -> bool
    ensures { IsTrue result ↔ (threads.now ≡ []) }
{
    threads.is_empty()
}

/// Whether a return of the client fits.
pub(crate) fn fits_return(server: &Server, client: u8, lock: LockName, threads: &[ThreadId]) -> bool
    ensures { Tells server.now result (λ p es. FitsReturn p client lock threads.now es) }
{
    match lease(server, client, lock) {
        Some(Level::Write) => are_new_waiters(server, client, lock, threads),
        Some(Level::Read) => are_none(threads),
        None => false,
    }
}
