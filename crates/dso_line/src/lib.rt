//! What the end of a connection says of the log of its node: it gives what the log sends, and what it took is what
//! the log takes.
//!
//! The definitions in `specs/` say it of one end (`LineStands`), whatever the log is, and of both ends of a ring once
//! they are together (`WaysMeet`); [`laws`] has what follows.
#![tactic(auto)]

pub mod laws;
