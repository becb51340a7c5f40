//! A thread at its client (`dso_law/specs/Threads.antt`).
ghost use Rattle.std.specs.Prelude.{◌≡◌, ◌≤◌, ◌↔◌, IsTrue, count_by, is_some, length};
ghost use Rattle.std.specs.List.{list_any};
ghost use Rattle.std.specs.Option.{option_copied};
ghost use Rattle.dso_law.specs.Threads.{own, is_private, is_local, locks_of};
ghost use Rattle.dso_law.specs.FitsDown.{IsWaitingOn};
ghost use Rattle.dso_client.specs.RunPoints.{RunPoint};
ghost use Rattle.dso_client.specs.ContextPlaces.{context_in};
ghost use Rattle.dso_client.specs.ContextStands.{ContextStands};

use crate::client_state::ClientState;
use dso_base::{Body, ClassId, LockName, Request, ThreadId};
use dso_machine::Thread;
use dso_txn::{OpenBlock, Privates};
use std::marker::Model;

/// A lock that a thread waits on, and the count of the hold that it is to have again.
#[derive(Clone, Copy, Debug, PartialEq, Eq)]
pub struct Waiting {
    lock: LockName,
    count: u32,
}

impl Model for Waiting {
    ghost use Rattle.dso_law.specs.Threads as Threads;

    ghost Value = { Threads.Waiting };

    ghost view = { λ waiting. record { lock = waiting.lock; count = waiting.count } };

    ghost inverse = { λ waiting. record { lock = waiting.lock; count = waiting.count } };
}

impl Waiting {
    /// The lock, and the count of the hold that the thread is to have of it again.
    pub(crate) fn new(lock: LockName, count: u32) -> Waiting
        ensures { result ≡ record { lock = lock; count = count } }
    {
        Waiting { lock, count }
    }

    /// The count of the hold that the thread is to have again.
    pub(crate) fn count(self) -> u32
        ensures { result ≡ self.count }
    {
        self.count
    }
}

/// A thread with what its client keeps of it: its next request, None where it has ended; the work that it has in hand;
/// the class and size that its latest look saw; the lock that it waits on; whether it is marked; the number of its last
/// record.
#[derive(Drop)]
pub struct ThreadContext {
    pub id: ThreadId,
    pub thread: Thread,
    pub next: Option<Request>,
    pub privates: Privates,
    pub block: OpenBlock,
    pub seen: Option<(ClassId, u32)>,
    pub waiting: Option<Waiting>,
    pub is_marked: bool,
    pub last_record: Option<u64>,
}

impl ThreadContext {
    /// The body of the thread's own object: a private one, or one that its open block published.
    pub(crate) fn own(&self, object: u64) -> Option<&Body>
        ensures { (at : RunPoint) → ContextStands at self.now → option_copied result ≡ own at.settings.shape self.now.id object at.entries }
    {
        match self.privates.get(object) {
            Some(body) => Some(body),
            None => self.block.body(object),
        }
    }

    /// Whether the object is the thread's own.
    pub(crate) fn owns(&self, object: u64) -> bool
        ensures { (at : RunPoint) → ContextStands at self.now → result ≡ is_some (own at.settings.shape self.now.id object at.entries) }
    {
        self.own(object).is_some()
    }

    /// Whether the object is private to the thread.
    pub(crate) fn is_private(&self, object: u64) -> bool
        ensures { (at : RunPoint) → ContextStands at self.now → result ≡ is_private at.settings.shape self.now.id object at.entries }
    {
        self.privates.get(object).is_some()
    }

    /// Whether the thread waits on the lock.
    pub(crate) fn is_waiting_on(&self, lock: LockName) -> bool
        ensures { (at : RunPoint) → ContextStands at self.now → IsTrue result ↔ IsWaitingOn lock (locks_of self.now.id at.entries).waiting }
    {
        match self.waiting {
            Some(waiting) => waiting.lock == lock,
            None => false,
        }
    }

    /// Whether the lock is the monitor of an object that is private to the thread.
    pub(crate) fn is_local(&self, lock: LockName) -> bool
        ensures { (at : RunPoint) → ContextStands at self.now → result ≡ is_local at.settings.shape self.now.id lock at.entries }
    {
        match lock {
            LockName::Mon(object) => self.is_private(object),
            LockName::Name(_) => false,
        }
    }
}

/// The context of the thread of this index, None exactly where there is no such thread.
pub(crate) fn context_at(kept: &ClientState, index: u8) -> Option<&ThreadContext>
    ensures { option_copied result ≡ context_in kept.now.contexts.items index }
{
    match index {
        0 => None,
        _ => kept.contexts.as_slice().get(index as usize - 1),
    }
}

/// How many of the threads have a next request.
pub(crate) fn alive(contexts: &[ThreadContext]) -> usize
    ensures count { result ≡ count_by (λ context. is_some context.next) contexts.now }
    ensures most { result ≤ length contexts.now }
{
    match contexts {
        [] => 0,
        [context, rest @ ..] if context.next.is_some() => alive(rest) + 1,
        [_, rest @ ..] => alive(rest),
    }
}

/// Whether one of the threads has a next request. It looks at no thread behind the first that has one.
pub(crate) fn is_any_alive(contexts: &[ThreadContext]) -> bool
    ensures { result ≡ list_any (λ context. is_some context.next) contexts.now }
{
    match contexts {
        [] => false,
        [context, ..] if context.next.is_some() => true,
        [_, rest @ ..] => is_any_alive(rest),
    }
}
