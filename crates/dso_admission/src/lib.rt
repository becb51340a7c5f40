//! What becomes of the bytes that a client sends, lawful or not: [`admit`] and [`admit_frame`].
//!
//! Bytes that are no frame, a frame before which a message is missing and a message that doesn't fit lose their client
//! and change nothing else; the others go on.
#![tactic(auto)]

mod admission;
mod admitted;
pub mod laws;

pub use admission::{admit, admit_frame};
pub use admitted::Admitted;
