//! The generated load: a configuration and a program for each number, and the line that its run writes.
#![tactic(auto)]

mod load;
mod load_line;

pub use load::generate;
pub use load_line::big_line;
