//! The leases that an act gives back, and the lock that it asks for again (`dso_law/specs/Closing.antt`).
ghost use Rattle.std.specs.Prelude.{ℕ, ◌≡◌, ◌≤◌, ◌&&◌, [], ◌∷◌, ◌++◌, IfOk, None, OnOk, Option, Some, false, insert, is_some, length, map, true};
ghost use Rattle.std.specs.List.{AllByRecursion, list_any};
ghost use Rattle.dso_base.specs.declared.lock.Level.TheVariants.{Write};
ghost use Rattle.dso_base.specs.declared.lock.LockName.{LockName};
ghost use Rattle.dso_base.specs.declared.lock.ThreadId.{ThreadId};
ghost use Rattle.dso_base.specs.declared.message.Up.TheVariants as up;
ghost use Rattle.dso_base.specs.declared.record.Txn.{Txn};
ghost use Rattle.dso_base.specs.declared.request.Request.{Request};
ghost use Rattle.dso_base.specs.declared.request.Request.TheVariants.{Enter};
ghost use Rattle.dso_base.specs.Following.{is_thread};
ghost use Rattle.dso_lease.specs.Leases.{standing_in, was_entered};
ghost use Rattle.dso_plain.specs.KeyTests.{is_lock};
ghost use Rattle.dso_law.specs.ClientStep.{returns};
ghost use Rattle.dso_law.specs.Closing.{due, is_closing};
ghost use Rattle.dso_law.specs.Leases.{insert_lock, is_lock_before, leased};
ghost use Rattle.dso_law.specs.Settings.{threads_of};
ghost use Rattle.dso_client.specs.StateStands.{ClientPartsStand};
ghost use Rattle.dso_client.specs.ActEffects.{acting, applied};
ghost use Rattle.dso_client.specs.LockStateStands.{list_at};
ghost use Rattle.dso_client.specs.RunPoints.{RunPoint};
ghost use Rattle.dso_client.specs.LeaseReturns.{ActSettles, AddsDue, AddsMarked, AreGivenBack, AreNextOfOthers, AsksAgain, Distinct, OnlyThese, asked_again, given_back, is_of, is_wanted_by, left_lock, record_sent, returns_lock, wanted_lock};
ghost use Rattle.dso_client.specs.RunFacts.{AreOwnHolds, RunFacts};
ghost use Rattle.dso_client.specs.ContextStands.{ContextStands};
ghost use Rattle.dso_client.specs.ThreadProgress.{next_at, wanted_by};
ghost use Rattle.dso_client.specs.TakenMessages.{IsQuiet};

use crate::answered::{Answered, marks_all};
use crate::asked_act::ask_lock;
use crate::client_state::ClientState;
use crate::due_lease::give_back;
use crate::lock_state::LockState;
use crate::locks::is_lease_due;
use crate::thread_context::{ThreadContext, context_at};
use dso_base::{Items, Level, LockName, NoMemory, Request, ThreadId, Up};
use std::alloc::Global;

/// The lock that a request leaves, or goes on with after a wait: its lease may be to be given back once it is answered.
fn left_lock(request: Request) -> Option<LockName>
    ensures { result ≡ left_lock request }
{
    match request {
        Request::Exit(lock) | Request::Wait(lock) | Request::Resume(lock) => Some(lock),
        _ => None,
    }
}

/// The lock that a thread's next request is for at `Write`.
fn wanted_lock(next: Option<Request>) -> Option<LockName>
    ensures { result ≡ wanted_lock next }
{
    match next {
        Some(Request::Enter(lock, Level::Write)) | Some(Request::Resume(lock)) => Some(lock),
        _ => None,
    }
}

/// The lock that the thread of this index next wants at `Write`, None where there is no such thread.
fn wanted_at(kept: &ClientState, index: u8) -> Option<LockName>
    ensures { result ≡ wanted_lock (next_at kept.now.contexts.items index) }
{
    match context_at(kept, index) {
        Some(context) => wanted_lock(context.next),
        None => None,
    }
}

/// So for the thread that an act woke, if it woke one.
fn wanted_by(kept: &ClientState, woken: Option<ThreadId>) -> Option<LockName>
    ensures { result ≡ wanted_by kept.now.contexts.items woken }
{
    match woken {
        Some(thread) => wanted_at(kept, thread.index),
        None => None,
    }
}

/// Whether the lock stands before the other: monitors before names, each by rising number.
fn is_before(lock: LockName, other: LockName) -> bool
    ensures { result ≡ is_lock_before lock other }
{
    match (lock, other) {
        (LockName::Mon(object), LockName::Mon(other)) => object < other,
        (LockName::Mon(_), LockName::Name(_)) => true,
        (LockName::Name(_), LockName::Mon(_)) => false,
        (LockName::Name(name), LockName::Name(other)) => name < other,
    }
}

/// Whether the lock is one of these.
fn is_among(locks: &[LockName], lock: LockName) -> bool
    ensures { result ≡ list_any (is_lock lock) locks.now }
{
    match locks {
        [] => false,
        [first, ..] if *first == lock => true,
        [_, rest @ ..] => is_among(rest, lock),
    }
}

/// Where a lock belongs that isn't among these, which rise: before the first that it stands before.
fn place(locks: &[LockName], lock: LockName) -> usize
    ensures within { result ≤ length locks.now }
    ensures placed { list_any (is_lock lock) locks.now ≡ false → insert locks.now result lock ≡ insert_lock lock locks.now }
{
    match locks {
        [] => 0,
        [first, ..] if is_before(lock, *first) => 0,
        [_, rest @ ..] => place(rest, lock) + 1,
    }
}

/// Adds the lock to these, which rise, where its lease is to be given back.
fn add_due(kept: &ClientState, due: &mut Vec<LockName>, lock: LockName) -> Result<(), NoMemory>
    ensures { OnOk result ((at : RunPoint) → ClientPartsStand at kept.now → AreOwnHolds at → AddsDue at (λ k. is_lock k lock) due.old.items due.new.items) }
{
    if is_among(due.as_slice(), lock) || !is_lease_due(kept, lock) {
        return Ok(());
    }
    let at = place(due.as_slice(), lock);
    due.insert(at, lock)?;
    Ok(())
}

/// So for a lock that may be there.
fn add_if_due(
    kept: &ClientState,
    due: &mut Vec<LockName>,
    lock: Option<LockName>,
) -> Result<(), NoMemory>
    ensures { OnOk result ((at : RunPoint) → ClientPartsStand at kept.now → AreOwnHolds at → AddsDue at (λ k. is_of k lock) due.old.items due.new.items) }
{
    match lock {
        Some(lock) => add_due(kept, due, lock),
        None => Ok(()),
    }
}

/// So for each lock that one of the threads next wants at `Write`.
fn add_wanted(
    kept: &ClientState,
    contexts: &[ThreadContext],
    due: &mut Vec<LockName>,
) -> Result<(), NoMemory>
    ensures { OnOk result ((at : RunPoint) → ClientPartsStand at kept.now → AreOwnHolds at → AllByRecursion (ContextStands at) contexts.now
        → AddsDue at (λ k. list_any (is_wanted_by at k) (map (λ context. context.id) contexts.now)) due.old.items due.new.items) }
{
    match contexts {
        [] => Ok(()),
        [context, rest @ ..] => {
            add_if_due(kept, due, wanted_lock(context.next))?;
            add_wanted(kept, rest, due)
        }
    }
}

/// So for each lock that one of the threads next wants at `Write` that the act may have marked, besides its own: the
/// thread that it woke, or any.
fn add_marked(kept: &ClientState, due: &mut Vec<LockName>, act: Answered) -> Result<(), NoMemory>
    ensures { OnOk result ((at : RunPoint) → ClientPartsStand at kept.now → AreOwnHolds at → AddsMarked at act due.old.items due.new.items) }
{
    if marks_all(act.request) {
        add_wanted(kept, kept.contexts.as_slice(), due)
    } else {
        add_if_due(kept, due, wanted_by(kept, act.woken))
    }
}

/// The locks whose leases are to be given back once the act was made, rising. Only these can be: the lock that it left,
/// the one that its thread next wants at `Write`, and those that threads want so that it may have marked. No other
/// thread is asked.
fn due_locks(
    alloc: Global,
    kept: &ClientState,
    act: Answered,
    next: Option<Request>,
) -> Result<Vec<LockName>, NoMemory>
    ensures { IfOk result (λ locks. (at : RunPoint) → ClientPartsStand at kept.now → AreOwnHolds at → next ≡ at.next act.thread → OnlyThese at act
        → locks.items ≡ due at.settings at.client at.next at.entries) }
{
    let mut locks = Vec::new(alloc);
    add_if_due(kept, &mut locks, left_lock(act.request))?;
    add_if_due(kept, &mut locks, wanted_lock(next))?;
    add_marked(kept, &mut locks, act)?;
    Ok(locks)
}

/// Gives the leases of the locks back, each with its list, in their order.
fn return_all(
    alloc: Global,
    lock_state: &mut LockState,
    locks: &[LockName],
    sent: &mut Vec<Up>,
) -> Result<(), NoMemory>
    ensures given { OnOk result (Distinct locks.now → AllByRecursion (λ l. was_entered (standing_in lock_state.old.leases l) ≡ true) locks.now
        → (sent.new.items ≡ sent.old.items ++ given_back lock_state.old locks.now) × AreGivenBack locks.now lock_state.old lock_state.new) }
    ensures holds { lock_state.new.holds ≡ lock_state.old.holds }
{
    match locks {
        [] => Ok(()),
        [lock, rest @ ..] => {
            sent.push(give_back(alloc, lock_state, *lock))?;
            return_all(alloc, lock_state, rest, sent)
        }
    }
}

/// Gives back the leases that an act made due, rising: those of the lock that it left, of the one that its thread next
/// wants at `Write`, and of those that threads want so that it marked. The next requests of the contexts are those after
/// the act, of which the acting thread's is this one; those of the others are as they were.
///
/// It answers `NoMemory` where an allocation was refused.
pub(crate) fn settle_act(
    alloc: Global,
    kept: &mut ClientState,
    act: Answered,
    next: Option<Request>,
) -> Result<Vec<Up>, NoMemory>
    ensures settles { IfOk result (λ sent. (clock : ℕ) (txn : Option Txn) (later : ThreadId → Option Request) (at : RunPoint)
        → ClientPartsStand (acting clock act (record_sent txn) later at) kept.old → IsQuiet at → RunFacts at
        → list_any (is_thread act.thread) (threads_of at.settings at.client) ≡ true → next ≡ later act.thread → AreNextOfOthers act.thread at.next later
        → ActSettles clock act txn later at sent.items kept.new) }
    ensures others { kept.new ≡ record kept.old { lock_state = kept.new.lock_state } }
    ensures holds { kept.new.lock_state.holds ≡ kept.old.lock_state.holds }
{
    let locks = due_locks(alloc, kept, act, next)?;
    let mut sent = Vec::new(alloc);
    return_all(alloc, &mut kept.lock_state, locks.as_slice(), &mut sent)?;
    Ok(sent)
}

/// Whether the message gives the lease of the lock back.
fn returns_lock(message: &Up, lock: LockName) -> bool
    ensures { result ≡ returns_lock lock message.now }
{
    match message {
        Up::Return(returned, _) => *returned == lock,
        _ => false,
    }
}

/// Whether one of the messages does.
fn is_returned(sent: &[Up], lock: LockName) -> bool
    ensures { result ≡ list_any (returns_lock lock) sent.now }
{
    match sent {
        [] => false,
        [message, ..] if returns_lock(message, lock) => true,
        [_, rest @ ..] => is_returned(rest, lock),
    }
}

/// The lock that is to be asked for again: a thread next enters it at `Write`, its lease wasn't closing before the act,
/// and the act gives it back.
fn asked_again(next: Option<Request>, was_closing: bool, sent: &[Up]) -> Option<LockName>
    ensures { result ≡ asked_again next was_closing sent.now }
{
    match next {
        Some(Request::Enter(lock, Level::Write)) => {
            if !was_closing && is_returned(sent, lock) {
                Some(lock)
            } else {
                None
            }
        }
        _ => None,
    }
}

/// The next request of a thread after its act, None where it has ended; and whether the lease of the lock that it then
/// enters at `Write` was closing before the act.
#[derive(Clone, Copy, Debug, PartialEq, Eq)]
pub(crate) struct Onward {
    pub next: Option<Request>,
    pub was_closing: bool,
}

/// Asks again for the lock that the acting thread next enters, by its next request after the act, where the act gave
/// its lease back for this thread alone: the lease wasn't closing before the act. What the act gave back is told.
///
/// It answers `NoMemory` where an allocation was refused.
pub(crate) fn ask_again(
    kept: &mut ClientState,
    onward: Onward,
    returned: &[Up],
) -> Result<Option<Up>, NoMemory>
    ensures asks { IfOk result (λ message. (clock : ℕ) (act : Answered) (txn : Option Txn) (later : ThreadId → Option Request) (at : RunPoint)
        → ClientPartsStand (acting clock act (record_sent txn ++ returned.now) later at) kept.old → RunFacts at
        → returned.now ≡ returns at.settings at.client later (applied clock act at).entries → onward.next ≡ later act.thread
        → ((l : LockName) → onward.next ≡ Some (Enter l Write) → is_some (leased l at.entries) ≡ true → onward.was_closing ≡ is_closing at.settings at.client at.next l at.entries)
        → AsksAgain clock act (record_sent txn ++ returned.now) later at message kept.new) }
    ensures others { kept.new ≡ record kept.old { lock_state = kept.new.lock_state } }
    ensures holds { kept.new.lock_state.holds ≡ kept.old.lock_state.holds }
{
    match asked_again(onward.next, onward.was_closing, returned) {
        Some(lock) => {
            ask_lock(&mut kept.lock_state, lock, Level::Write)?;
            Ok(Some(Up::Request(lock, Level::Write)))
        }
        None => Ok(None),
    }
}
