//! The ids of new objects: the server's source gives them in batches of 256, and a client's pool hands them out one by
//! one.
#![tactic(auto)]

pub mod laws;
mod pool;
mod source;

pub use pool::IdPool;
pub use source::IdSource;
