//! What an answered request makes of what is kept of a thread, before anything is sent (`specs/ContextEffects.antt`).
ghost use Rattle.std.specs.Prelude.{ℕ, ◌≡◌, ◌≤◌};
ghost use Rattle.dso_law.specs.ClientWaiters.{is_marked};
ghost use Rattle.dso_law.specs.Threads.{last_seen, locks_by, locks_of, seen_by};
ghost use Rattle.dso_client.specs.LockEntries.{count_owed};
ghost use Rattle.dso_client.specs.ActEffects.{CountsAtMost, applied};
ghost use Rattle.dso_client.specs.LockStateStands.{LockStateStands};
ghost use Rattle.dso_client.specs.RunPoints.{RunPoint};
ghost use Rattle.dso_client.specs.ContextEffects.{ApplyTo, ApplyToAll, AppliesToAny, AppliesToOne, RestStands, woken_index};

use crate::answered::{Answered, marks_all};
use crate::lock_state::LockState;
use crate::message_fit::is_listed;
use crate::thread_context::{ThreadContext, Waiting};
use dso_base::{ClassId, Reply, Request};

/// What the latest look of the acting thread saw, once it acted.
pub(crate) fn seen_after(act: Answered, before: Option<(ClassId, u32)>) -> Option<(ClassId, u32)>
    ensures { result ≡ seen_by act.request act.reply before }
{
    match (act.request, act.reply) {
        (Request::Look(_), Reply::Seen(class, size)) => Some((class, size)),
        _ => before,
    }
}

/// Whether a thread is marked once the request was answered: its own wait unmarks it; its own timeout marks it where
/// the client's list of the lock has it, and so does a notification of all; and a notification marks whom it wakes.
pub(crate) fn marked_after(lock_state: &LockState, context: &ThreadContext, act: Answered) -> bool
    ensures { (clock : ℕ) (at : RunPoint) → LockStateStands at lock_state.now → context.now.is_marked ≡ is_marked context.now.id at.entries
        → result ≡ is_marked context.now.id (applied clock act at).entries }
{
    match (act.request, act.reply) {
        (Request::Wait(_), Reply::Done) => context.id != act.thread && context.is_marked,
        (Request::Timeout(lock), Reply::Done) => {
            (context.id == act.thread && is_listed(lock_state, lock, context.id))
                || context.is_marked
        }
        (Request::Notify(_), Reply::Done) => act.woken == Some(context.id) || context.is_marked,
        (Request::NotifyAll(lock), Reply::Done) => {
            is_listed(lock_state, lock, context.id) || context.is_marked
        }
        _ => context.is_marked,
    }
}

/// The lock that the acting thread waits on, once it acted: its wait, with the count of its hold before; none once it
/// goes on.
pub(crate) fn waiting_after(
    lock_state: &LockState,
    act: Answered,
    before: Option<Waiting>,
) -> Option<Waiting>
    ensures told { (at : RunPoint) → LockStateStands at lock_state.now → before ≡ (locks_of act.thread at.entries).waiting
        → result ≡ (locks_by act.request act.reply (locks_of act.thread at.entries)).waiting }
    ensures most { (most : ℕ) → CountsAtMost most lock_state.now.holds → count_owed before ≤ most → count_owed result ≤ most }
{
    match (act.request, act.reply) {
        (Request::Wait(lock), Reply::Done) => {
            Some(Waiting::new(lock, lock_state.holds.count(act.thread, lock)))
        }
        (Request::Resume(_), Reply::Done) => None,
        _ => before,
    }
}

/// What the acting thread saw, and the lock that it waits on, once it acted. It takes no memory.
fn apply_to_own(lock_state: &LockState, context: &mut ThreadContext, act: Answered)
    ensures seen { (clock : ℕ) (at : RunPoint) → RestStands at context.old → context.new.seen ≡ last_seen context.old.id (applied clock act at).entries }
    ensures waiting { (clock : ℕ) (at : RunPoint) → LockStateStands at lock_state.now → RestStands at context.old
        → context.new.waiting ≡ (locks_of context.old.id (applied clock act at).entries).waiting }
    ensures most { (most : ℕ) → CountsAtMost most lock_state.now.holds → count_owed context.old.waiting ≤ most → count_owed context.new.waiting ≤ most }
    ensures rest { context.new ≡ record context.old { seen = context.new.seen; waiting = context.new.waiting } }
{
    if context.id == act.thread {
        context.seen = seen_after(act, context.seen);
        context.waiting = waiting_after(lock_state, act, context.waiting);
    }
}

/// What is kept of a thread but its work, once the request was answered. It takes no memory.
fn apply_to_context(lock_state: &LockState, context: &mut ThreadContext, act: Answered)
    ensures { AppliesToAny lock_state.now act context.old context.new }
{
    let is_marked = marked_after(lock_state, context, act);
    apply_to_own(lock_state, context, act);
    context.is_marked = is_marked;
}

/// So of each thread of the client. It takes no memory.
fn apply_to_all(lock_state: &LockState, contexts: &mut [ThreadContext], act: Answered)
    ensures { ApplyToAll lock_state.now act contexts.old contexts.new }
{
    for at in 0..contexts.len() {
        apply_to_context(lock_state, &mut contexts[at], act);
    }
}

/// So of the thread of this index, where there is one. It takes no memory.
fn apply_to_one(lock_state: &LockState, contexts: &mut [ThreadContext], index: u8, act: Answered)
    ensures { AppliesToOne lock_state.now act index contexts.old contexts.new }
{
    if index == 0 {
        return;
    }
    let at = index as usize - 1;
    if at < contexts.len() {
        apply_to_context(lock_state, &mut contexts[at], act);
    }
}

/// The index of the thread that the act woke, where that is another than its own; else 0, which no thread has.
fn woken_index(act: Answered) -> u8
    ensures { result ≡ woken_index act }
{
    match act.woken {
        Some(woken) if woken.index != act.thread.index => woken.index,
        _ => 0,
    }
}

/// So of the client's threads: the acting one, and the one that it woke, or all where it may have marked any. No other
/// is asked. It takes no memory.
pub(crate) fn apply_to_contexts(
    lock_state: &LockState,
    contexts: &mut [ThreadContext],
    act: Answered,
)
    ensures { ApplyTo lock_state.now act contexts.old contexts.new }
{
    if marks_all(act.request) {
        apply_to_all(lock_state, contexts, act);
    } else {
        apply_to_one(lock_state, contexts, act.thread.index, act);
        apply_to_one(lock_state, contexts, woken_index(act), act);
    }
}
