//! What a thread does that waits on a lock (`specs/Replies.antt`).

ghost use Rattle.std.specs.Prelude.{◌≡◌};
ghost use Rattle.dso_reply.specs.Replies as replies;

use dso_base::{Reply, Value};

/// What comes next for a thread that waits on a lock.
#[derive(Clone, Copy, Debug, PartialEq, Eq)]
pub enum AfterWait {
    /// It is to have its lock again.
    Resumes,
    /// Its ticks: the next of them, or its timeout where none is left.
    Ticks,
    /// The reply isn't one that is wanted.
    Unwanted,
}

/// What follows the reply to a wait of so many ticks; 0 stands for no limit.
pub fn after_wait(reply: Reply, ticks: u64) -> AfterWait
    ensures { result ≡ replies.after_wait reply ticks }
{
    match reply {
        Reply::Done if ticks == 0 => AfterWait::Resumes,
        Reply::Done => AfterWait::Ticks,
        _ => AfterWait::Unwanted,
    }
}

/// What follows the reply to a tick, which tells whether the thread was woken.
pub fn after_tick(reply: Reply) -> AfterWait
    ensures { result ≡ replies.after_tick reply }
{
    match reply {
        Reply::Val(Value::Bool(true)) => AfterWait::Resumes,
        Reply::Val(Value::Bool(false)) => AfterWait::Ticks,
        _ => AfterWait::Unwanted,
    }
}
