//! Rows of graphs, with the objects of each that no path reaches from a start.
//!
//! A row of the input is a sentence, `: `, and a command; it is printed as the sentence, `: `, and the answer. Any other
//! line is printed as it stands.
//!
//! | Command | What it does |
//! |---|---|
//! | `0 1 2 / 0 / 0-1 1-0` | the garbage of the graph of these objects, by these starts and edges |
//! | `chain 1000` | so many objects from 0 on, each with an edge to the next that is no tenth: how many are garbage from 0, the first and the last |
#![tactic(auto)]

mod graph;

use case_words::row_answer;
use graph::told;
use std::io;

fn main(rt: HostRuntime) -> io::Result<()> {
    for line in rt.lines(rt.alloc()) {
        let line = line?;
        let Some((name, command)) = line.split_once(": ") else {
            println!(rt; "{line}")?;
            continue;
        };
        let row = row_answer(rt.alloc(), name, told(rt.alloc(), command))?;
        println!(rt; "{row}")?;
    }
    Ok(())
}
