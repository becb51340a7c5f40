//! The journal that the nodes' entries make together (`specs/Merged.antt`).
ghost use Rattle.std.specs.Prelude.{◌≡◌, ◌++◌, IfOk};
ghost use Rattle.std.specs.List.Sorted.{IsPermutation};
ghost use Rattle.dso_log.specs.Merged.{AllKeep, AreInOrder, AreOfDifferentNodes, IsTheMerged, entries_of_all, node_number};

use crate::NodeLog;
use dso_base::{Entry, Items, Journal, NoMemory, Node};
use std::alloc::Global;

/// All entries of the logs, by clock, and where clocks are one by node, the server first. Where no two logs are of one node,
/// there is one such list. It answers `NoMemory` where an allocation was refused.
pub fn merge(alloc: Global, logs: Vec<NodeLog>) -> Result<Journal, NoMemory>
    ensures all { IfOk result (λ journal. IsPermutation (entries_of_all logs.items) journal.entries) }
    ensures order { IfOk result (λ journal. AreInOrder journal.entries) }
    ensures keep { IfOk result (λ _. AllKeep logs.items) }
    ensures only { IfOk result (λ journal. AreOfDifferentNodes logs.items → IsTheMerged logs.items journal.entries) }
{
    let mut entries = joined(alloc, logs)?;
    entries.sort_by_key(|entry: &Entry| number_of(entry.node))?;
    entries.sort_by_key(|entry: &Entry| entry.clock)?;
    Ok(Journal {
        entries: Items::from_vec(entries),
    })
}

/// The number of a node, the server first.
fn number_of(node: Node) -> u16
    ensures { result ≡ node_number node }
{
    match node {
        Node::Server => 0,
        Node::Client(client) => 1 + client as u16,
    }
}

/// All entries, log by log.
#[tactic(auto, using(std::proofs::lemmas::List::flat_map_more))]
fn joined(alloc: Global, logs: Vec<NodeLog>) -> Result<Vec<Entry>, NoMemory>
    ensures entries { IfOk result (λ entries. entries.items ≡ entries_of_all logs.items) }
    ensures keep { IfOk result (λ _. AllKeep logs.items) }
{
    let mut entries = Vec::new(alloc);
    for log in logs {
        entries.append(&mut log.into_entries())?;
    }
    Ok(entries)
}
