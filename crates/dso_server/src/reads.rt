//! What the server knows, of whatever entries it stands for (`dso_law/specs/ServerReadings.antt`). These reads take no
//! memory.
ghost use Rattle.std.specs.Prelude.{◌≡◌, ◌↔◌, IsTrue, eqb, is_some, Some};
ghost use Rattle.std.specs.List.{list_any};
ghost use Rattle.std.specs.Option.{option_copied};
ghost use Rattle.dso_base.specs.declared.lock.Level.TheVariants.{Write};
ghost use Rattle.dso_base.specs.Following.{is_thread};
ghost use Rattle.dso_law.specs.Granting.{leased_to, queue_of};
ghost use Rattle.dso_law.specs.ServerReadings.{is_given, is_given_to, is_ended, last_ending, last_number};
ghost use Rattle.dso_law.specs.ServerWaiters.{waiters_of};
ghost use Rattle.dso_law.specs.Settings.{threads_of};
ghost use Rattle.dso_law.specs.Store.{holds_object};
ghost use Rattle.dso_locks.specs.Locks.{waits};
ghost use Rattle.dso_locks.specs.LockRows.{locks_in};
ghost use Rattle.dso_server.specs.Fitting.{Knows, Tells, graph_in};
ghost use Rattle.dso_server.specs.Threads.{ends_there};

use crate::server::Server;
use crate::{threads, waiters};
use dso_base::{Body, Ending, Level, LockName, ThreadId};

/// The level of the client's lease of the lock, None where it has none.
pub(crate) fn lease(server: &Server, client: u8, lock: LockName) -> Option<Level>
    ensures { Knows server.now result (λ p es. leased_to client lock es) }
{
    server.locks.lease(client, lock)
}

/// Whether the client has a lease of the lock at Write.
pub(crate) fn may_write(server: &Server, client: u8, lock: LockName) -> bool
    ensures { Tells server.now result (λ p es. leased_to client lock es ≡ Some Write) }
{
    is_write(lease(server, client, lock))
}

/// Whether it is a lease at Write.
fn is_write(lease: Option<Level>) -> bool
    ensures { IsTrue result ↔ (lease ≡ Some Write) }
{
    match lease {
        Some(Level::Write) => true,
        _ => false,
    }
}

/// Whether the client has a request of the lock.
pub(crate) fn waits(server: &Server, client: u8, lock: LockName) -> bool
    ensures known { Knows server.now result (λ p es. list_any (λ waiter. eqb waiter.client client) (queue_of lock es)) }
    ensures table { result ≡ waits client (locks_in server.now.locks lock) }
{
    server.locks.waits(client, lock)
}

/// Whether the thread is in the server's list of the lock.
pub(crate) fn is_waiter(server: &Server, lock: LockName, thread: ThreadId) -> bool
    ensures { Knows server.now result (λ p es. list_any (is_thread thread) (waiters_of lock es)) }
{
    waiters::has(&server.waiters, lock, thread)
}

/// Whether the id was given out.
pub(crate) fn is_given(server: &Server, object: u64) -> bool
    ensures { Knows server.now result (λ p es. is_given object es) }
{
    server.ids.is_given(object)
}

/// Whether the id was given to the client.
pub(crate) fn is_given_to(server: &Server, client: u8, object: u64) -> bool
    ensures { Knows server.now result (λ p es. is_given_to client object es) }
{
    server.ids.is_given_to(client, object)
}

/// The body of the object, None where it isn't in the server's graph.
pub(crate) fn stored(server: &Server, object: u64) -> Option<&Body>
    ensures { option_copied result ≡ graph_in server.now object }
{
    server.store.object(object)
}

/// Whether the object is in the server's graph.
pub(crate) fn is_stored(server: &Server, object: u64) -> bool
    ensures { result ≡ is_some (graph_in server.now object) }
{
    match stored(server, object) {
        Some(_) => true,
        None => false,
    }
}

/// Whether the client holds the object.
pub(crate) fn holds(server: &Server, client: u8, object: u64) -> bool
    ensures { Knows server.now result (λ p es. holds_object client object es) }
{
    server.store.holds(client, object)
}

/// The number of the client's last record.
pub(crate) fn last_number(server: &Server, client: u8) -> u64
    ensures { Knows server.now result (λ p es. last_number client es) }
{
    server.store.last(client)
}

/// Whether the thread is one of the client's.
pub(crate) fn is_thread_of(server: &Server, client: u8, thread: ThreadId) -> bool
    ensures { Knows server.now result (λ p es. list_any (is_thread thread) (threads_of p client)) }
{
    threads::is_of(&server.threads, client, thread)
}

/// How the thread's last record ended, None before its first.
pub(crate) fn last_ending(server: &Server, thread: ThreadId) -> Option<Ending>
    ensures { Knows server.now result (λ p es. last_ending thread es) }
{
    threads::last(&server.threads, thread)
}

/// Whether the thread has ended.
pub(crate) fn is_ended(server: &Server, thread: ThreadId) -> bool
    ensures { Knows server.now result (λ p es. is_ended thread es) }
{
    is_end(last_ending(server, thread))
}

/// Whether it is a thread's end.
fn is_end(last: Option<Ending>) -> bool
    ensures { result ≡ ends_there last }
{
    match last {
        Some(Ending::End(_)) => true,
        _ => false,
    }
}
