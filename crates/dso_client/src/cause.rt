//! Why a thread can't go on (`specs/Turns.antt`).
ghost use Rattle.std.specs.Prelude.{◌≡◌};
ghost use Rattle.dso_client.specs.Turns.{cause_of};

use crate::unmet_need::UnmetNeed;
use dso_base::{LockName, ThreadId};

/// What keeps a thread from going on, where all was asked for before, or nothing is to be asked.
#[derive(Clone, Copy, Debug, PartialEq, Eq)]
pub enum Cause {
    /// No id is left, and a batch was asked for.
    Ids,
    /// The object was asked for, or is resident with another class or size than the thread saw.
    Object(u64),
    /// The lock was asked for, or has a lease that admits no such entry.
    Lease(LockName),
    /// This other thread of the client holds the lock in conflict: the first that does.
    LocalHolder(ThreadId),
    /// The thread waits on the lock, and isn't marked.
    Wake(LockName),
    /// The thread's last record, of this number, isn't acknowledged.
    Ack(u64),
}

/// The cause that is told of what a thread lacks.
pub(crate) fn cause_of(unmet_need: UnmetNeed) -> Cause
    ensures { result ≡ cause_of unmet_need }
{
    match unmet_need {
        UnmetNeed::Id => Cause::Ids,
        UnmetNeed::Object(object) | UnmetNeed::Class(object) => Cause::Object(object),
        UnmetNeed::Mark(lock) => Cause::Wake(lock),
        UnmetNeed::Lease(lock, _) => Cause::Lease(lock),
        UnmetNeed::OthersOut(_, _, other) => Cause::LocalHolder(other),
        UnmetNeed::Ack(seq) => Cause::Ack(seq),
    }
}
