//! What a thread does that left a lock (`specs/Replies.antt`).

ghost use Rattle.std.specs.Prelude.{◌≡◌};
ghost use Rattle.dso_reply.specs.Replies as replies;

use dso_base::{Grade, Reply};

/// What comes next for a thread that left a lock.
#[derive(Clone, Copy, Debug, PartialEq, Eq)]
pub enum AfterExit {
    /// It settles first.
    Settles,
    /// It goes on.
    GoesOn,
    /// The reply isn't one that is wanted.
    Unwanted,
}

/// What follows the reply to the exit of a lock that was entered at this grade.
pub fn after_exit(reply: Reply, grade: Grade) -> AfterExit
    ensures { result ≡ replies.after_exit reply grade }
{
    match (reply, grade) {
        (Reply::Done, Grade::Synchronous) => AfterExit::Settles,
        (Reply::Done, Grade::Read | Grade::Write) => AfterExit::GoesOn,
        _ => AfterExit::Unwanted,
    }
}
