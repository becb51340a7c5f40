//! The threads of the cluster, each with how its last record ended (`specs/Threads.antt`).
ghost use Rattle.std.specs.Prelude.{◌≡◌, true, false, None, Some, cond, is_some, eqb, map, ◌&&◌, IfOk, OnOk};
ghost use Rattle.std.specs.List.{list_any};
ghost use Rattle.dso_base.specs.Following.{is_thread};
ghost use Rattle.dso_server.specs.Threads.{known_in, last_in};

use dso_base::{Ending, NoMemory, ThreadId};
use dso_lookup::put;
use dso_machine::ThreadBody;
use std::alloc::Global;
use std::collections::BTreeMap;

/// Each thread with how its last record ended, None before its first.
pub type Threads = BTreeMap<ThreadId, Option<Ending>>;

/// The threads of these bodies, in their order.
pub(crate) fn threads_of(alloc: Global, bodies: &[ThreadBody]) -> Result<Vec<ThreadId>, NoMemory>
    ensures { IfOk result (λ threads. threads.items ≡ map (λ body. body.thread) bodies.now) }
{
    let mut threads = Vec::with_capacity(alloc, bodies.len())?;
    for body in bodies {
        threads.push(body.thread)?;
    }
    Ok(threads)
}

/// These threads, before their first records.
pub(crate) fn opening(alloc: Global, threads: &[ThreadId]) -> Result<Threads, NoMemory>
    ensures known { IfOk result (λ all. known_in all ≡ (λ t. list_any (is_thread t) threads.now)) }
    ensures last { IfOk result (λ all. last_in all ≡ (λ _. None)) }
{
    let mut all = BTreeMap::new(alloc);
    for thread in threads {
        put(&mut all, *thread, None)?;
    }
    Ok(all)
}

/// Whether the thread is one of the client's. It takes no memory.
pub(crate) fn is_of(threads: &Threads, client: u8, thread: ThreadId) -> bool
    ensures { result ≡ (eqb thread.client client && known_in threads.now thread) }
{
    thread.client == client && threads.contains_key(&thread)
}

/// How the thread's last record ended, None where it has none. It takes no memory.
pub(crate) fn last(threads: &Threads, thread: ThreadId) -> Option<Ending>
    ensures { result ≡ last_in threads.now thread }
{
    match threads.get(&thread) {
        Some(last) => *last,
        None => None,
    }
}

/// The last record of the thread ended so.
pub(crate) fn end(threads: &mut Threads, thread: ThreadId, ending: Ending) -> Result<(), NoMemory>
    ensures known { OnOk result (known_in threads.new ≡ (λ t. cond (is_thread t thread) true (known_in threads.old t))) }
    ensures last { OnOk result (last_in threads.new ≡ (λ t. cond (is_thread t thread) (Some ending) (last_in threads.old t))) }
{
    put(threads, thread, Some(ending))
}
