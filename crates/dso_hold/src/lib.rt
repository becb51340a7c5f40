//! The locks that the threads of one client hold.
#![tactic(auto)]

mod entries;
mod held;
mod hold;
mod tables;

pub use held::{Enter, Held};
pub use hold::Hold;
