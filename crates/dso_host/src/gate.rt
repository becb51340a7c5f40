//! What may hold a worker back.

/// Is called before each turn of a worker, outside its node's lock. Node 0 is the server, worker 0 a node's pump.
///
/// Nothing that it does changes what a run promises; a gate that never returns holds the epoch for ever.
pub trait Gate: Sync {
    fn turn(&self, node: u8, worker: u8);
}
