//! The entries of each node of a cluster, what they weigh, and the journal that they make together.
#![tactic(auto)]

mod entry_weight;
mod merging;
mod node_log;

pub use entry_weight::with_weight;
pub use merging::merge;
pub use node_log::NodeLog;
