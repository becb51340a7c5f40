//! What a thread has in hand at its client: its private objects and its open block; and a client's records that are not
//! acknowledged yet.
#![tactic(auto)]

mod named;
mod open_block;
mod privates;
mod unacked;

pub use named::{add_monitor, add_notes, add_values, add_with_values};
pub use open_block::OpenBlock;
pub use privates::Privates;
pub use unacked::Unacked;
