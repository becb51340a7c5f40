//! What bounds a cell's turns, beside the limit of clocks.

/// How many messages an end sends at most.
pub(crate) const MOST_SENT: u64 = 1 << 62;

/// So many records of a client behind one that isn't acknowledged let its threads wait for the server.
pub(crate) const MOST_AHEAD: u64 = 16;
