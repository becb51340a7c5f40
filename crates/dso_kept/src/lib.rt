//! A cluster's steps over a store: what a step applies is in the store before anybody learns of it.
//!
//! The definitions in `specs/` say which records a server has applied, and what a crash leaves of them.
#![tactic(auto)]

pub mod keep_laws;
mod kept_steps;

pub use kept_steps::kept_step;
