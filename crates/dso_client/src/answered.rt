//! A request that is answered (`dso_law/specs/Threads.antt`).
ghost use Rattle.std.specs.Prelude.{ℕ, ◌≡◌, IfSome};
ghost use Rattle.dso_law.specs.Threads.{ending_by, exit_ending, hold_of, locks_of};
ghost use Rattle.dso_plain.specs.After.{exited};
ghost use Rattle.dso_client.specs.SentRecords.{ending_in};
ghost use Rattle.dso_client.specs.ActEffects.{entered_lock, put_to};
ghost use Rattle.dso_client.specs.LeaseReturns.{marks_all};
ghost use Rattle.dso_client.specs.LockStateStands.{LockStateStands};
ghost use Rattle.dso_client.specs.RunPoints.{RunPoint};

use crate::lock_state::LockState;
use dso_base::{Ending, LockName, Reply, Request, ThreadId};

/// A thread, its request, the reply, and the thread that the act wakes.
#[derive(Clone, Copy, Debug, PartialEq, Eq)]
pub struct Answered {
    pub thread: ThreadId,
    pub request: Request,
    pub reply: Reply,
    pub woken: Option<ThreadId>,
}

/// Whether the request may mark any thread of its client.
pub(crate) fn marks_all(request: Request) -> bool
    ensures { result ≡ marks_all request }
{
    match request {
        Request::NotifyAll(_) => true,
        _ => false,
    }
}

/// The object that a done put is to.
pub(crate) fn put_to(act: Answered) -> Option<u64>
    ensures { result ≡ put_to act.request act.reply }
{
    match (act.request, act.reply) {
        (Request::Put(object, ..), Reply::Done) => Some(object),
        _ => None,
    }
}

/// The ending that an exit is: none where the thread still holds the lock behind it.
fn exit_ending(lock_state: &LockState, thread: ThreadId, lock: LockName) -> Option<Ending>
    ensures { (at : RunPoint) → LockStateStands at lock_state.now → result ≡ exit_ending lock (exited (hold_of thread lock at.entries)) }
{
    match lock_state.holds.level_of(thread, lock) {
        Some(_) if lock_state.holds.count(thread, lock) != 1 => None,
        _ => Some(Ending::Exit(lock)),
    }
}

/// The ending that the act is, where it is one.
pub(crate) fn ending_of(lock_state: &LockState, act: Answered) -> Option<Ending>
    ensures { (at : RunPoint) → LockStateStands at lock_state.now → result ≡ ending_by act.request act.reply (locks_of act.thread at.entries) }
{
    match (act.request, act.reply) {
        (Request::Exit(lock), Reply::Done) => exit_ending(lock_state, act.thread, lock),
        (Request::Wait(lock), Reply::Done) => Some(Ending::Wait(lock)),
        (Request::Timeout(lock), Reply::Done) => Some(Ending::Timeout(lock)),
        (Request::End(fault), Reply::Done) => Some(Ending::End(fault)),
        _ => None,
    }
}

/// The lock that the act enters.
pub(crate) fn entered_lock(act: Answered) -> Option<LockName>
    ensures { result ≡ entered_lock act.request act.reply }
{
    match (act.request, act.reply) {
        (Request::Enter(lock, _), Reply::Done) | (Request::Resume(lock), Reply::Done) => Some(lock),
        _ => None,
    }
}

/// How an act ends the block of its thread: the number of the record that it sends, and the ending.
#[derive(Clone, Copy, Debug, PartialEq, Eq)]
pub(crate) struct BlockEnd {
    pub seq: u64,
    pub ending: Ending,
}

/// The end of a block by the act, where it is an ending, with the number of the next record.
pub(crate) fn block_end(seq: u64, ending: Option<Ending>) -> Option<BlockEnd>
    ensures ending { ending_in result ≡ ending }
    ensures number { (n : ℕ) → seq ≡ n → IfSome result (λ end. end.seq ≡ n) }
{
    match ending {
        Some(ending) => Some(BlockEnd { seq, ending }),
        None => None,
    }
}
