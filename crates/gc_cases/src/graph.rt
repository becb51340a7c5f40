//! The graphs of the rows.

use case_words::{debugged, first_of, number, number_list};
use dso_base::NoMemory;
use dso_gc::garbage;
use std::alloc::Global;

/// The answer to a command.
pub fn told(alloc: Global, command: &str) -> Result<String, NoMemory> {
    let (word, rest) = first_of(command);
    match word {
        "chain" => chain(alloc, number(rest).unwrap_or(0)),
        _ => listed(alloc, command),
    }
}

/// The garbage of a graph by its words.
fn listed(alloc: Global, words: &str) -> Result<String, NoMemory> {
    let (graph, rest) = words.split_once('/').unwrap_or((words, ""));
    let (starts, edges) = rest.split_once('/').unwrap_or((rest, ""));
    let graph = number_list(alloc, graph)?;
    let starts = number_list(alloc, starts)?;
    let edges = edge_list(alloc, edges)?;
    let found = garbage(alloc, graph.as_slice(), starts.as_slice(), edges.as_slice())?;
    debugged(alloc, found)
}

/// The edges among the words, each as `1-2`.
fn edge_list(alloc: Global, words: &str) -> Result<Vec<(u64, u64)>, NoMemory> {
    let mut edges = Vec::new(alloc);
    for word in words.split(' ') {
        if let Some(edge) = edge(word) {
            edges.push(edge)?;
        }
    }
    Ok(edges)
}

/// An edge, as `1-2`.
fn edge(word: &str) -> Option<(u64, u64)> {
    let (from, to) = word.split_once('-')?;
    Some((number(from)?, number(to)?))
}

/// The garbage of a chain: of how many objects, the first of them and the last.
fn chain(alloc: Global, length: u64) -> Result<String, NoMemory> {
    let mut graph = Vec::new(alloc);
    let mut edges = Vec::new(alloc);
    for object in 0..length {
        graph.push(object)?;
        edges.push((object, after(object)))?;
    }
    let found = garbage(alloc, graph.as_slice(), &[0], edges.as_slice())?;
    let first = found.first().copied();
    let last = found.last().copied();
    debugged(alloc, (found.len(), first, last))
}

/// The next object of a chain, which leaves out each tenth.
fn after(object: u64) -> u64 {
    if object % 10 == 8 {
        return object.saturating_add(2);
    }
    object.saturating_add(1)
}
