//! The server's graph: the body of each object, which client holds which object, and the last record of each client.
#![tactic(auto)]

mod bodies;
mod changes;
mod collecting;
mod holders;
mod store;

pub use store::Store;
