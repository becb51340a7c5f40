//! The server's core: it takes the messages of the clients, one after the other, and answers each by the server rule.
#![tactic(auto)]

mod answers;
mod batches;
mod fits;
mod fits_lists;
mod fits_locks;
mod fits_parts;
mod fits_record;
pub mod laws;
mod messages;
mod reads;
mod server;
mod taken;
mod threads;
mod triggers;
mod waiters;
mod wakes;

pub use server::Server;
pub use taken::Taken;
pub use triggers::Triggers;
