//! Why an object may not be flushed.

use dso_base::ThreadId;
use std::alloc::AllocError;
use thiserror::Error;

/// Why an object may not be flushed. Where several reasons hold, the first one is told.
#[derive(Clone, Copy, Debug, PartialEq, Eq, Error)]
pub enum NotFlushable {
    /// There is no copy of it: it is absent, or was asked for.
    #[error("not resident")]
    Absent,
    /// The own record of this number changed it, and is not acknowledged.
    #[error("changed by record {0}, which is not acknowledged")]
    Changed(u64),
    /// The open block of this thread puts to it. Of several threads the least one is told.
    #[error("in the open block of thread {}.{}", .0.client, .0.index)]
    InBlock(ThreadId),
    /// This thread wants it. Of several threads the least one is told.
    #[error("wanted by thread {}.{}", .0.client, .0.index)]
    Wanted(ThreadId),
}
