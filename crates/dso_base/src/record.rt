//! Records of blocks: bodies, sets, notifications, endings.
use crate::{ClassId, Data, Fault, Items, LockName, Same, ThreadId, Value};

/// An object with its class and the values of all its fields or elements.
#[derive(Clone, Debug, Drop)]
pub struct Body {
    pub object: u64,
    pub class: ClassId,
    pub values: Items<Value>,
}

/// The last value that a field of an object was given.
#[derive(Clone, Copy, Debug, PartialEq, Eq)]
pub struct Set {
    pub object: u64,
    pub field: u32,
    pub value: Value,
}

/// Whom a notification woke.
#[derive(Clone, Copy, Debug, PartialEq, Eq)]
pub enum Choice {
    /// A waiter of the same client, which the client chose.
    Here(ThreadId),
    /// The server is to choose among its waiters.
    There,
    /// All waiters.
    All,
}

/// A notification in a record.
#[derive(Clone, Copy, Debug, PartialEq, Eq)]
pub struct Note {
    pub lock: LockName,
    pub choice: Choice,
}

/// How a block of a thread's events ends: a full release of a lock, a wait, the thread's end, or a timeout.
#[derive(Clone, Copy, Debug, PartialEq, Eq)]
pub enum Ending {
    Exit(LockName),
    Wait(LockName),
    End(Option<Fault>),
    Timeout(LockName),
}

/// The record of all that a thread did since its previous ending.
///
/// Its parts: the client's number for it, counted from 1 over all threads; the thread; the whole contents of each
/// object published, by rising id; the last value of each field put in an object that was shared before, by rising
/// object and field; the printed values in order; the notifications in order; the ending.
#[derive(Clone, Debug, Drop)]
pub struct Txn {
    pub seq: u64,
    pub thread: ThreadId,
    pub news: Items<Body>,
    pub sets: Items<Set>,
    pub outs: Items<Value>,
    pub notes: Items<Note>,
    pub ending: Ending,
}

impl Data for Set {
    ghost use Rattle.std.proofs.Common.{rules};

    ghost faithful = { Prim.search rules };
}

impl Same for Set {
    fn same(&self, other: &Self) -> bool {
        self == other
    }
}

impl Data for Choice {
    ghost use Rattle.std.proofs.Common.{rules};

    ghost faithful = { Prim.search rules };
}

impl Same for Choice {
    fn same(&self, other: &Self) -> bool {
        self == other
    }
}

impl Data for Note {
    ghost use Rattle.std.proofs.Common.{rules};

    ghost faithful = { Prim.search rules };
}

impl Same for Note {
    fn same(&self, other: &Self) -> bool {
        self == other
    }
}

impl Data for Ending {
    ghost use Rattle.std.proofs.Common.{rules};

    ghost faithful = { Prim.search rules };
}

impl Same for Ending {
    fn same(&self, other: &Self) -> bool {
        self == other
    }
}

impl Data for Body {
    ghost use Rattle.std.proofs.Common.{rules};

    ghost faithful = { Prim.search rules };
}

impl Data for Txn {
    ghost use Rattle.std.proofs.Common.{rules};

    ghost faithful = { Prim.search rules };
}

impl Same for Body {
    fn same(&self, other: &Self) -> bool {
        self.object == other.object && self.class == other.class && self.values.same(&other.values)
    }
}

impl Same for Txn {
    fn same(&self, other: &Self) -> bool {
        self.seq == other.seq
            && self.thread == other.thread
            && self.news.same(&other.news)
            && self.sets.same(&other.sets)
            && self.outs.same(&other.outs)
            && self.notes.same(&other.notes)
            && self.ending == other.ending
    }
}
