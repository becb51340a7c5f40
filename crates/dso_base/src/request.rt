//! Requests and replies, faults and events.
use crate::{ClassId, Data, Level, LockName, Same, ThreadId, Value};

/// The fault of a thread.
#[derive(Clone, Copy, Debug, PartialEq, Eq)]
pub enum Fault {
    NullPointer,
    NoSuchField,
    BadValue,
    BadIndex,
    BadSize,
    ZeroDivide,
    StackOverflow,
    UnlockedSharedObject,
    WrongLock,
    ReadOnly,
    LockUpgrade,
    IllegalMonitor,
}

/// What a thread asks of its client.
#[derive(Clone, Copy, Debug, PartialEq, Eq)]
pub enum Request {
    /// An object of this class with so many fields or elements.
    New(ClassId, u32),
    /// The class and the size of an object.
    Look(u64),
    /// The value of an object's field.
    Get(u64, u32),
    /// A new value for an object's field.
    Put(u64, u32, Value),
    Enter(LockName, Level),
    Exit(LockName),
    Wait(LockName),
    /// While it waits: whether it was woken. One turn of a timed wait.
    Tick(LockName),
    /// While it waits: to wait no longer, after the last turn of a timed wait.
    Timeout(LockName),
    /// To go on after a wait.
    Resume(LockName),
    Notify(LockName),
    NotifyAll(LockName),
    Print(Value),
    /// The thread's end, with its fault where it has one.
    End(Option<Fault>),
    /// A turn for others, after many moves without a request.
    Pause,
    /// To go on once the record of what it did last is acknowledged, after an exit at synchronous write.
    Settle,
}

/// The answer to a request.
#[derive(Clone, Copy, Debug, PartialEq, Eq)]
pub enum Reply {
    Done,
    /// The id of the object that was made.
    Made(u64),
    /// The class of the object, and how many fields or elements it has.
    Seen(ClassId, u32),
    Val(Value),
    /// The monitor is that of a private object: no lock of the cluster was taken.
    Local,
    Refused(Fault),
}

/// One request of a thread with its reply, or the loss of a client.
///
/// `woken` of a notification in a journal is the thread that its client woke, None where it woke none; in the
/// committed history it is also the thread that the server woke for it.
#[derive(Clone, Copy, Debug, PartialEq, Eq)]
pub enum Event {
    Act {
        thread: ThreadId,
        request: Request,
        reply: Reply,
        woken: Option<ThreadId>,
    },
    Lost(u8),
}

impl Data for Fault {
    ghost use Rattle.std.proofs.Common.{rules};

    ghost faithful = { Prim.search rules };
}

impl Same for Fault {
    fn same(&self, other: &Self) -> bool {
        self == other
    }
}

impl Data for Request {
    ghost use Rattle.std.proofs.Common.{rules};

    ghost faithful = { Prim.search rules };
}

impl Same for Request {
    fn same(&self, other: &Self) -> bool {
        self == other
    }
}

impl Data for Reply {
    ghost use Rattle.std.proofs.Common.{rules};

    ghost faithful = { Prim.search rules };
}

impl Same for Reply {
    fn same(&self, other: &Self) -> bool {
        self == other
    }
}

impl Data for Event {
    ghost use Rattle.std.proofs.Common.{rules};

    ghost faithful = { Prim.search rules };
}

impl Same for Event {
    fn same(&self, other: &Self) -> bool {
        match (self, other) {
            (
                Event::Act {
                    thread,
                    request,
                    reply,
                    woken,
                },
                Event::Act {
                    thread: that,
                    request: asked,
                    reply: answer,
                    woken: other,
                },
            ) => thread.same(that)
                && request.same(asked)
                && reply.same(answer)
                && woken.same(other),
            (Event::Lost(client), Event::Lost(that)) => client == that,
            _ => false,
        }
    }
}
