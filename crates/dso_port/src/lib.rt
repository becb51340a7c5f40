//! One end of a client's connection, where frames go as bytes through two rings.
//!
//! A [`Port`] gives the frames of its session to one ring and takes those of the other end from another. Contracts
//! say what it gave and took, whatever was sent.
#![tactic(auto)]

mod arrival;
mod carried;
mod fault;
mod gift;
mod heard;
pub mod laws;
mod pair;
mod port;

pub use arrival::Arrival;
pub use carried::{Carried, FramesOf};
pub use fault::PortFault;
pub use heard::LIMIT;
pub use pair::{PLACES, both_ends};
pub use port::Port;
