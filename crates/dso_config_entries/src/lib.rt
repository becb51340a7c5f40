//! The entries of a configuration: which are for a method or a field, and the names of the locks, each with its number.
#![tactic(auto)]

mod entries;
mod interner;
mod locks;
mod words;

pub use entries::{autolock, guards_field, is_root, last_guard, last_named, matches_method};
pub use interner::Interner;
pub use locks::{lock_names, lock_number};
pub use words::{add, number_of};
