//! The objects that a client knows: its copies, what keeps each of them from being flushed, and the order of their use.
#![tactic(auto)]

mod edges;
mod flush;
mod not_flushable;
mod notes;
mod order;
mod places;
mod slot;
mod table;
mod tables;
mod victim;

pub use not_flushable::NotFlushable;
pub use slot::ObjectStanding;
pub use table::Table;
