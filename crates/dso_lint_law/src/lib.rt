//! What the lock checker's Yes promises of a program's histories.
#![tactic(auto)]

mod law;

pub use law::yes_is_guarded;
