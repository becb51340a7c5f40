//! Collections: the words `5 5>6` are those of one that begins at objects 0 and 5, with an edge from 5 to 6 besides those
//! of the server.
ghost use Rattle.std.specs.Prelude.{◌≡◌, true, IfOk};
ghost use Rattle.dso_lookup.specs.Search.{is_listed};

use case_words::number;
use dso_base::NoMemory;
use dso_server::Server;
use std::alloc::Global;

/// The objects of the words that are numbers, and object 0.
fn starts(alloc: Global, text: &str) -> Result<Vec<u64>, NoMemory>
    ensures { IfOk result (λ starts. is_listed 0 starts.items ≡ true) }
{
    let mut starts = Vec::new(alloc);
    for word in text.split(' ') {
        if let Some(object) = number(word) {
            starts.push(object)?;
        }
    }
    starts.push(0)?;
    Ok(starts)
}

/// The edge of a word, None where it tells none.
fn edge(word: &str) -> Option<(u64, u64)> {
    let (from, to) = word.split_once('>')?;
    Some((number(from)?, number(to)?))
}

/// The edges of the words that tell one.
fn edges(alloc: Global, text: &str) -> Result<Vec<(u64, u64)>, NoMemory> {
    let mut edges = Vec::new(alloc);
    for word in text.split(' ') {
        if let Some(edge) = edge(word) {
            edges.push(edge)?;
        }
    }
    Ok(edges)
}

/// What the server sweeps in the collection of the words.
pub fn collect(alloc: Global, server: &mut Server, text: &str) -> Result<Vec<u64>, NoMemory> {
    let starts = starts(alloc, text)?;
    let edges = edges(alloc, text)?;
    server.collect(alloc, starts.as_slice(), edges.as_slice())
}
