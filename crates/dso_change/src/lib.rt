//! The record of a block: what a thread does between two endings, gathered as it goes or folded from its events, and
//! the changes of it that are another client's.
#![tactic(auto)]

mod apply;
mod bodies;
mod changes;
mod draft;
mod folding;
pub mod laws;
mod opening;
mod publish;
mod sets;

pub use apply::choice_of;
pub use bodies::{copy, set_in, write_field};
pub use changes::changes_for;
pub use draft::{Draft, put};
pub use folding::fold;
pub use opening::opening_body;
