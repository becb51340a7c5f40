//! Garbage: the objects of a graph that no path of edges reaches from a start (`specs/Garbage.antt`).
#![tactic(auto)]

mod edges;
mod sweep;

pub use sweep::garbage;
