//! What goes through a channel, and what an end makes of it.

/// A frame of a connection. Numbers begin at 1 in each direction.
#[derive(Debug, Drop)]
pub enum Frame<M> {
    /// A message of this number with its sender's clock, from an end of this epoch that has seen so many messages.
    Carry {
        epoch: u32,
        number: u64,
        seen: u64,
        clock: u64,
        message: M,
    },
    /// The connection begins anew in this epoch, from an end that has seen so many messages. The clock is that of the
    /// last message that it sent, 0 where it sent none; no rule reads it.
    Hello {
        epoch: u32,
        seen: u64,
        clock: u64,
    },
}

/// What an end answers a frame.
#[derive(Debug, Drop)]
pub enum Accepted<M> {
    /// The message is given up, with its sender's clock.
    Up(M, u64),
    /// The message of this number was given up before.
    Again(u64),
    /// A message is missing before this number, or the other end has seen what was never sent.
    Gap(u64),
    /// The frame is of this epoch, and the connection isn't.
    OldConnection(u32),
    /// The connection begins anew behind this number.
    Rejoined(u64),
}
