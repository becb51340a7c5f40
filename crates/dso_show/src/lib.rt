//! What a permanent store shows: the lines of the graph that its records leave (`specs/Shown.antt`).
#![tactic(auto)]

mod shown;

pub use shown::store_text;
