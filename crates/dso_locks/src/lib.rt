//! The server's locks: which client has a lease of which, who asks for one, and what they are told.
#![tactic(auto)]

pub mod laws;
mod lock;
mod lock_table;
mod news;
mod queue;
mod tables;
mod told;

pub use lock_table::LockTable;
pub use told::Told;
