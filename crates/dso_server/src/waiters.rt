//! The server's lists of waiters (`specs/Waiters.antt`).
ghost use Rattle.std.specs.Prelude.{◌≡◌, [], ◌∷◌, ◌++◌, drop, slice_get, OnOk, IfOk};
ghost use Rattle.std.specs.List.{list_any};
ghost use Rattle.dso_base.specs.Following.{is_thread};
ghost use Rattle.dso_law.specs.ClientWaiters.{without};
ghost use Rattle.dso_law.specs.ServerWaiters.{without_client};
ghost use Rattle.dso_server.specs.Waiters.{lists_in, at_list, lists_returned, lists_without};

use dso_base::{LockName, NoMemory, ThreadId};
use dso_wait::WaitList;
use std::alloc::Global;
use std::collections::BTreeMap;

/// The lists of the locks that threads wait for.
pub type Waiters = BTreeMap<LockName, WaitList>;

/// Whether the thread is in the list of the lock. It takes no memory.
pub(crate) fn has(waiters: &Waiters, lock: LockName, thread: ThreadId) -> bool
    ensures { result ≡ list_any (is_thread thread) (lists_in waiters.now lock) }
{
    match waiters.get(&lock) {
        Some(list) => list.all().contains(&thread),
        None => false,
    }
}

/// Takes out the first of the list of the lock, None exactly where nobody is in it. It takes no memory.
pub(crate) fn pick(waiters: &mut Waiters, lock: LockName) -> Option<ThreadId>
    ensures first { result ≡ slice_get (lists_in waiters.old lock) 0 }
    ensures rest { lists_in waiters.new ≡ at_list lock (drop 1) (lists_in waiters.old) }
{
    waiters.get_mut(&lock)?.pick()
}

/// Takes out the thread from the list of the lock, false exactly where it isn't in it. It takes no memory.
pub(crate) fn remove(waiters: &mut Waiters, lock: LockName, thread: ThreadId) -> bool
    ensures found { result ≡ list_any (is_thread thread) (lists_in waiters.old lock) }
    ensures rest { lists_in waiters.new ≡ at_list lock (without thread) (lists_in waiters.old) }
{
    match waiters.get_mut(&lock) {
        Some(list) => list.remove(thread),
        None => false,
    }
}

/// Takes out the whole list of the lock. It takes no memory.
pub(crate) fn move_out(alloc: Global, waiters: &mut Waiters, lock: LockName) -> Vec<ThreadId>
    ensures all { result.items ≡ lists_in waiters.old lock }
    ensures rest { lists_in waiters.new ≡ at_list lock (λ _. []) (lists_in waiters.old) }
{
    match waiters.remove(&lock) {
        Some(mut list) => list.move_out(),
        None => Vec::new(alloc),
    }
}

/// The threads of a return stand at the end of the list of the lock.
pub(crate) fn add_all(
    alloc: Global,
    waiters: &mut Waiters,
    lock: LockName,
    threads: &[ThreadId],
) -> Result<(), NoMemory>
    ensures { OnOk result (lists_in waiters.new ≡ lists_returned lock threads.now (lists_in waiters.old)) }
{
    for thread in threads {
        add(alloc, waiters, lock, *thread)?;
    }
    Ok(())
}

/// Puts the thread at the end of the list of the lock.
fn add(
    alloc: Global,
    waiters: &mut Waiters,
    lock: LockName,
    thread: ThreadId,
) -> Result<(), NoMemory>
    ensures { OnOk result (lists_in waiters.new ≡ lists_returned lock (thread ∷ []) (lists_in waiters.old)) }
{
    match waiters.get_mut(&lock) {
        Some(list) => list.add(thread),
        None => {
            let mut list = WaitList::new(alloc);
            list.add(thread)?;
            waiters.insert(lock, list)?;
            Ok(())
        }
    }
}

/// The client's threads leave all lists. It takes no memory.
pub(crate) fn drop_client(waiters: &mut Waiters, client: u8)
    ensures { lists_in waiters.new ≡ lists_without client (lists_in waiters.old) }
{
    waiters.retain(|_, list| {
        list.drop_client(client);
        true
    });
}
