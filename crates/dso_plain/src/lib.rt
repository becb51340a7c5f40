//! One heap with plain monitors: the machine against which the cluster is judged.
//!
//! Its definition stands in `specs/`, its laws are the contracts of the functions in [`laws`].
#![tactic(auto)]

mod changes;
mod clears;
mod count;
mod fields;
mod grants;
mod holds;
pub mod laws;
mod marks;
mod plain;
mod possible;
mod publish;
mod reads;
mod steps;
mod tables;
mod threads;
mod writes;

pub use count::Count;
pub use plain::Plain;
pub use possible::can_be_made;
pub use tables::{HeapTables, Hold, Object};
pub use threads::is_thread;
