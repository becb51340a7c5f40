//! What all workers of an epoch go by.
use dso_class::Program;
use std::alloc::Global;
use std::sync::atomic::AtomicUsize;

/// The runtime that gives the threads, the program, the gate that each worker passes, and how many work.
#[derive(Drop)]
pub struct Setting<'a, R, G> {
    pub rt: &'a R,
    pub alloc: Global,
    pub program: &'a Program,
    pub gate: &'a G,
    /// How many workers of the epoch aren't at rest.
    pub busy: &'a AtomicUsize,
}
