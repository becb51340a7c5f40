//! What is printed of a cluster.
use dso_base::{Entry, NoMemory, Node};
use dso_world::World;
use std::alloc::Global;

/// How many entries the journal has, what it weighs, and its last entry.
pub fn shown_world(alloc: Global, world: &World) -> Result<String, NoMemory> {
    let entries = world.journal().entries.len();
    let weight = world.weight();
    let last = shown_last(alloc, world.last())?;
    let text = format!(in alloc; "{entries} entries, weight {weight}, last {last}")?;
    Ok(text)
}

/// The clock and the node of an entry.
fn shown_last(alloc: Global, last: Option<&Entry>) -> Result<String, NoMemory> {
    let text = match last {
        Some(entry) => shown_entry(alloc, entry.clock, entry.node)?,
        None => String::from_str(alloc, "none")?,
    };
    Ok(text)
}

/// A clock and a node.
fn shown_entry(alloc: Global, clock: u64, node: Node) -> Result<String, NoMemory> {
    let text = match node {
        Node::Server => format!(in alloc; "{clock} of the server")?,
        Node::Client(number) => format!(in alloc; "{clock} of client {number}")?,
    };
    Ok(text)
}

/// The row of texts that are refused.
pub fn shown_refusal(alloc: Global, name: &str) -> Result<String, NoMemory> {
    let row = format!(in alloc; "{name}: refused\n")?;
    Ok(row)
}
