//! The steps of a cluster.
use dso_base::ThreadId;

/// A step of the cluster: a thread acts, a client takes a message or flushes an object, the server takes a message of a
/// client, loses it or breaks its connection.
#[derive(Clone, Copy, Debug, PartialEq, Eq)]
pub enum Step {
    Act(ThreadId),
    TakeDown(u8),
    Flush(u8),
    TakeUp(u8),
    Lose(u8),
    Break(u8),
}
