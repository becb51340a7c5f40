//! What came of a look into a ring.

/// What came of a look into a ring.
#[derive(Debug, Drop)]
pub enum Arrival<M> {
    /// No frame is known to be in it.
    Nothing,
    /// A frame that makes no entry: of an old connection, or of one that isn't ready, or a message that came before.
    Dropped,
    /// A message whose clock is at the limit: it is kept, and no entry is made any more.
    Late,
    /// A message, with its sender's clock.
    Message(M, u64),
    /// The connection begins anew.
    Rejoined,
}
