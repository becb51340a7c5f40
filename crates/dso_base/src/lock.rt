//! Threads, locks, levels and grades.
use crate::{Data, Same};

/// A lock of the cluster: the monitor of a shared object by its id, or a named lock by its number.
///
/// The numbers below the number of roots are the roots' own locks.
#[derive(Clone, Copy, Debug, PartialEq, Eq, PartialOrd, Ord)]
pub enum LockName {
    Mon(u64),
    Name(u32),
}

/// The level of a hold or a lease. Several may hold at `Read`; `Write` excludes every other.
#[derive(Clone, Copy, Debug, PartialEq, Eq)]
pub enum Level {
    Read,
    Write,
}

/// How a method's or a block's lock is taken: the level of the hold, and at `Synchronous` a write that the server
/// has before the lock is left.
#[derive(Clone, Copy, Debug, PartialEq, Eq)]
pub enum Grade {
    Read,
    Write,
    Synchronous,
}

/// A thread by its client and its index there. Both are counted from 1.
#[derive(Clone, Copy, Debug, PartialEq, Eq, PartialOrd, Ord)]
pub struct ThreadId {
    pub client: u8,
    pub index: u8,
}

impl Data for LockName {
    ghost use Rattle.std.proofs.Common.{rules};

    ghost faithful = { Prim.search rules };
}

impl Same for LockName {
    fn same(&self, other: &Self) -> bool {
        self == other
    }
}

impl Data for Level {
    ghost use Rattle.std.proofs.Common.{rules};

    ghost faithful = { Prim.search rules };
}

impl Same for Level {
    fn same(&self, other: &Self) -> bool {
        self == other
    }
}

impl Data for Grade {
    ghost use Rattle.std.proofs.Common.{rules};

    ghost faithful = { Prim.search rules };
}

impl Same for Grade {
    fn same(&self, other: &Self) -> bool {
        self == other
    }
}

impl Data for ThreadId {
    ghost use Rattle.std.proofs.Common.{rules};

    ghost faithful = { Prim.search rules };
}

impl Same for ThreadId {
    fn same(&self, other: &Self) -> bool {
        self == other
    }
}
