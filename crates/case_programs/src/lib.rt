//! What the programs over rows of runs share: the program that the two texts of a row are.
#![tactic(auto)]

mod case;

pub use case::Case;
