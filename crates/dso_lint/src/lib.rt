//! The lock checker: whether a program takes its locks as its configuration asks.
#![tactic(auto)]

mod access;
mod answer;
mod callers;
mod checker;
mod fields;
mod holds;
mod laws;
mod leads;
mod listed;
mod lists;
mod marks;
mod narrow;
mod quiet;
mod row;
mod rows;
mod sites;
mod tables;
mod upgrades;

pub use answer::{Lint, Place, Why};
pub use checker::lint;
pub use laws::lint_answers_once;
