//! What an answered request makes of what a client keeps, before anything is sent (`specs/ActEffects.antt`).
ghost use Rattle.std.specs.Prelude.{ℕ, ◌≡◌, List, None, OnOk, is_some, [], ◌∷◌, ◌++◌};
ghost use Rattle.std.specs.BTreeMap.{is_at};
ghost use Rattle.dso_lookup.specs.Maps.{look, writes, written};
ghost use Rattle.dso_lookup.specs.Orders.{lock_order};
ghost use Rattle.dso_base.specs.declared.request.Reply.TheVariants.{Done};
ghost use Rattle.dso_law.specs.Threads.{ending_by, locks_of};
ghost use Rattle.dso_client.specs.SequencesStand.{SequencesStand};
ghost use Rattle.dso_client.specs.ActEffects.{HasList, LeasesStand, ListsStand, applied};
ghost use Rattle.dso_client.specs.LockStateStands.{list_at};
ghost use Rattle.dso_wait.specs.Waiters.{without};
ghost use Rattle.dso_client.specs.RunPoints.{RunPoint};
ghost use Rattle.dso_client.specs.TableStands.{TableTells};

use crate::answered::{Answered, entered_lock, put_to};
use crate::sequences::Sequences;
use dso_base::{LockName, NoMemory, Reply, Request, ThreadId};
use dso_lease::Leases;
use dso_lookup::{put, take};
use dso_table::Table;
use dso_wait::WaitList;
use std::alloc::Global;
use std::collections::BTreeMap;

/// The id of a new object is taken. It takes no memory.
pub(crate) fn apply_to_sequences(sequences: &mut Sequences, act: Answered)
    ensures stands { (clock : ℕ) (at : RunPoint) → SequencesStand at sequences.old → SequencesStand (applied clock act at) sequences.new }
    ensures records { sequences.new.records ≡ sequences.old.records }
{
    if let Reply::Made(_) = act.reply {
        sequences.pool.take();
    }
}

/// The thread acted, so it wants no object; its open block is closed where the act is an ending, and else puts to the
/// object of a done put.
///
/// It answers `NoMemory` where an allocation was refused.
pub(crate) fn apply_to_table(
    alloc: Global,
    table: &mut Table,
    act: Answered,
    is_ending: bool,
) -> Result<(), NoMemory>
    ensures { OnOk result ((clock : ℕ) (at : RunPoint) (used : List ℕ) → TableTells at used table.old → act.thread.client ≡ at.client
        → is_ending ≡ is_some (ending_by act.request act.reply (locks_of act.thread at.entries)) → TableTells (applied clock act at) used table.new) }
{
    table.acted(act.thread);
    if is_ending {
        table.closed(act.thread);
        return Ok(());
    }
    match put_to(act) {
        Some(object) => table.opened(alloc, object, act.thread),
        None => Ok(()),
    }
}

/// The lease of the lock that the act enters was entered since its grant. It takes no memory.
pub(crate) fn apply_to_leases(leases: &mut Leases, act: Answered)
    ensures { (clock : ℕ) (at : RunPoint) → LeasesStand at leases.old → LeasesStand (applied clock act at) leases.new }
{
    if let Some(lock) = entered_lock(act) {
        leases.entered(lock);
    }
}

/// Takes out the list of the lock, an empty one where there is none.
fn take_list(alloc: Global, lists: &mut BTreeMap<LockName, WaitList>, lock: LockName) -> WaitList
    ensures list { result ≡ list_at lists.old lock }
    ensures gone { look lock_order lists.new ≡ written (writes (is_at (lock_order lock)) (λ _. None)) (look lock_order lists.old) }
{
    match take(lists, &lock) {
        Some(list) => list,
        None => WaitList::new(alloc),
    }
}

/// The thread stands at the end of the list of the lock.
fn add_waiter(
    alloc: Global,
    lists: &mut BTreeMap<LockName, WaitList>,
    lock: LockName,
    thread: ThreadId,
) -> Result<(), NoMemory>
    ensures { OnOk result (HasList lock (list_at lists.old lock ++ thread ∷ []) lists.old lists.new) }
{
    let mut list = take_list(alloc, lists, lock);
    list.add(thread)?;
    put(lists, lock, list)
}

/// The thread stands no longer in the list of the lock. It takes no memory.
fn remove_waiter(lists: &mut BTreeMap<LockName, WaitList>, lock: LockName, thread: ThreadId)
    ensures { HasList lock (without thread (list_at lists.old lock)) lists.old lists.new }
{
    if let Some(list) = lists.get_mut(&lock) {
        list.remove(thread);
    }
}

/// The list of the lock is empty. It takes no memory.
fn empty_list(lists: &mut BTreeMap<LockName, WaitList>, lock: LockName)
    ensures { HasList lock [] lists.old lists.new }
{
    let _ = take(lists, &lock);
}

/// What a done act makes of the lists.
fn done_lists(
    alloc: Global,
    lists: &mut BTreeMap<LockName, WaitList>,
    act: Answered,
) -> Result<(), NoMemory>
    ensures { OnOk result ((clock : ℕ) (at : RunPoint) → ListsStand at lists.old → act.reply ≡ Done → ListsStand (applied clock act at) lists.new) }
{
    match act.request {
        Request::Wait(lock) => add_waiter(alloc, lists, lock, act.thread)?,
        Request::Timeout(lock) => remove_waiter(lists, lock, act.thread),
        Request::Notify(lock) => {
            if let Some(woken) = act.woken {
                remove_waiter(lists, lock, woken);
            }
        }
        Request::NotifyAll(lock) => empty_list(lists, lock),
        _ => {}
    }
    Ok(())
}

/// A thread that waits stands at the end of the client's list of its lock; one that gives up or is woken stands in it
/// no longer; and a notification of all empties it.
///
/// It answers `NoMemory` where an allocation was refused.
pub(crate) fn apply_to_lists(
    alloc: Global,
    lists: &mut BTreeMap<LockName, WaitList>,
    act: Answered,
) -> Result<(), NoMemory>
    ensures { OnOk result ((clock : ℕ) (at : RunPoint) → ListsStand at lists.old → ListsStand (applied clock act at) lists.new) }
{
    match act.reply {
        Reply::Done => done_lists(alloc, lists, act),
        _ => Ok(()),
    }
}
