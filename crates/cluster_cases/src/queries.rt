//! The calls that only tell of a client.
ghost use Rattle.dso_client.specs.CodeRuns.{RunsSomeCode};

use crate::driven::Driven;
use case_words::{shown, small, with_edges, with_numbers};
use dso_base::NoMemory;
use std::alloc::Global;

/// The line of what a call answers.
pub fn answered(alloc: Global, driven: &Driven, word: &str, rest: &str) -> Result<String, NoMemory>
    requires { RunsSomeCode driven.now.client }
{
    match small(rest) {
        Some(index) => of_thread(alloc, driven, word, index),
        None => of_client(alloc, driven, word),
    }
}

/// The line of what is told of the thread of this index.
fn of_thread(alloc: Global, driven: &Driven, word: &str, index: u8) -> Result<String, NoMemory> {
    let text = match word {
        "enabled" => format!(in alloc; "enabled {index}: {}\n", driven.client.enabled(index))?,
        _ => shown(alloc, "no step\n")?,
    };
    Ok(text)
}

/// The line of what is told of the client.
fn of_client(alloc: Global, driven: &Driven, word: &str) -> Result<String, NoMemory>
    requires { RunsSomeCode driven.now.client }
{
    let text = match word {
        "may_flush" => format!(in alloc; "may_flush: {}\n", driven.client.may_flush())?,
        "alive" => format!(in alloc; "alive: {}\n", driven.client.alive())?,
        "named" => named(alloc, driven)?,
        "edges" => edges(alloc, driven)?,
        _ => shown(alloc, "no step\n")?,
    };
    Ok(text)
}

/// The line of the objects that the client's threads name.
fn named(alloc: Global, driven: &Driven) -> Result<String, NoMemory>
    requires { RunsSomeCode driven.now.client }
{
    let named = driven.client.named(alloc)?;
    let text = with_numbers(alloc, shown(alloc, "named:")?, named.as_slice())?;
    let line = format!(in alloc; "{text}\n")?;
    Ok(line)
}

/// The line of the edges of the client's copies.
fn edges(alloc: Global, driven: &Driven) -> Result<String, NoMemory> {
    let edges = driven.client.edges(alloc)?;
    let text = with_edges(alloc, shown(alloc, "edges:")?, edges.as_slice())?;
    let line = format!(in alloc; "{text}\n")?;
    Ok(line)
}
