//! What the server tells clients about locks.

use dso_base::{Level, LockName};

/// A grant or a recall, with the number of the client that it is for.
#[derive(Clone, Copy, Debug, PartialEq, Eq)]
pub enum Told {
    /// The client is given a lease of the lock at the level.
    Grant(u8, LockName, Level),
    /// The client is asked to give its lease of the lock back.
    Recall(u8, LockName),
}
