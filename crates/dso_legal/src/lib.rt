//! Which journals are lawful, and the history that a journal commits.
//!
//! The definitions stand in `specs/`; [`examples`] shows them at journals of finished runs, and [`laws`] has what
//! holds of every lawful journal, [`run_laws`] of one client's entries. [`committed`] computes the history that a
//! journal commits, and [`Committing`] gives it entry by entry.
#![tactic(auto)]

mod committing;
pub mod examples;
pub mod laws;
mod resolving;
pub mod run_laws;
mod threads;
mod waiters;

pub use committing::{Committing, committed};
