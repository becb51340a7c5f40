//! Whom the server woke for the notifications of a block (`specs/Committed.antt`).
ghost use Rattle.std.specs.Prelude.{◌≡◌, ◌++◌, OnOk, IfOk};
ghost use Rattle.dso_base.specs.declared.record.Choice.TheVariants.{There, All};
ghost use Rattle.dso_law.specs.Replies.{first_of_list};
ghost use Rattle.dso_law.specs.ServerWaiters as waking;
ghost use Rattle.dso_legal.specs.Committed.{resolved, resolved_event, lists_after_event};
ghost use Rattle.dso_legal.specs.JournalPassTables.{server_state_in, woken_count, lists_left};

use crate::waiters::ServerState;
use dso_base::{Event, LockName, NoMemory, Reply, Request, Shared, ThreadId};
use dso_lookup::put;
use std::alloc::Global;
use std::collections::BTreeMap;

/// How many of a lock's list the notifications of the block woke already.
fn gone_of(gone: &BTreeMap<LockName, usize>, lock: LockName) -> usize
    ensures { result ≡ woken_count gone.now lock }
{
    gone.get(&lock).copied().unwrap_or(0)
}

/// The first that is left of the lock's list, which leaves it.
fn wake_first(
    lists: &ServerState,
    gone: &mut BTreeMap<LockName, usize>,
    lock: LockName,
) -> Result<Option<ThreadId>, NoMemory>
    ensures woken { IfOk result (λ woken. woken ≡ first_of_list (lists_left (server_state_in lists.now).waiters gone.old lock)) }
    ensures left { OnOk result (lists_left (server_state_in lists.now).waiters gone.new ≡ waking.lists_after lock There (lists_left (server_state_in lists.now).waiters gone.old)) }
{
    let at = gone_of(gone, lock);
    match lists.waiters(lock).get(at) {
        Some(thread) => {
            put(gone, lock, at + 1)?;
            Ok(Some(*thread))
        }
        None => Ok(None),
    }
}

/// All that are left of the lock's list leave it.
fn wake_all(
    lists: &ServerState,
    gone: &mut BTreeMap<LockName, usize>,
    lock: LockName,
) -> Result<(), NoMemory>
    ensures { OnOk result (lists_left (server_state_in lists.now).waiters gone.new ≡ waking.lists_after lock All (lists_left (server_state_in lists.now).waiters gone.old)) }
{
    put(gone, lock, lists.waiters(lock).len())?;
    Ok(())
}

/// The event with whom the server woke for it: a new one for a notification that the server was asked for, else the one
/// that its entry holds.
fn resolve_event(
    alloc: Global,
    lists: &ServerState,
    gone: &mut BTreeMap<LockName, usize>,
    event: &Shared<Event>,
) -> Result<Shared<Event>, NoMemory>
    ensures event { IfOk result (λ with_woken. with_woken ≡ resolved_event event.now (lists_left (server_state_in lists.now).waiters gone.old)) }
    ensures left { OnOk result (lists_left (server_state_in lists.now).waiters gone.new ≡ lists_after_event event.now (lists_left (server_state_in lists.now).waiters gone.old)) }
{
    match *event.get() {
        Event::Act {
            thread,
            request: Request::Notify(lock),
            reply: Reply::Done,
            woken: None,
        } => {
            let woken = wake_first(lists, gone, lock)?;
            let told = Event::Act {
                thread,
                request: Request::Notify(lock),
                reply: Reply::Done,
                woken,
            };
            Ok(Shared::new(alloc, told)?)
        }
        Event::Act {
            request: Request::NotifyAll(lock),
            reply: Reply::Done,
            ..
        } => {
            wake_all(lists, gone, lock)?;
            Ok(event.clone()?)
        }
        _ => Ok(event.clone()?),
    }
}

/// Adds the events of a block to the history, each with whom the server woke for it, by its lists.
pub(crate) fn add_resolved(
    alloc: Global,
    lists: &ServerState,
    block: &[Shared<Event>],
    history: &mut Vec<Shared<Event>>,
) -> Result<(), NoMemory>
    ensures { OnOk result (history.new.items ≡ history.old.items ++ resolved block.now (server_state_in lists.now).waiters) }
{
    history.reserve(block.len())?;
    let mut gone = BTreeMap::new(alloc);
    for event in block {
        history.push(resolve_event(alloc, lists, &mut gone, event)?)?;
    }
    Ok(())
}
