//! A message of either direction.
use crate::{Data, Down, Up};

/// A message of either way: up to the server, or down to a client.
///
/// It is what the connection of a client carries, whose two ends number what they send alike.
#[derive(Clone, Debug, Drop)]
pub enum Both {
    Up(Up),
    Down(Down),
}

impl Data for Both {
    ghost use Rattle.std.proofs.Common.{rules};

    ghost faithful = { Prim.search rules };
}
