//! Rows of events with their answers on one heap, of the base types, and of what a journal tells.
//!
//! A row of the input is a sentence, `: `, and a command; it is printed as the sentence, `: `, and the answer. Any
//! other line is printed as it stands. The commands (`case.rt`) keep one heap and one journal from row to row.
//!
//! Behind the line `== histories` stand journals made by hand, each with the history that it commits. A case is a
//! sentence, then a line for each entry (`journal_words.rt`), then `commits`. The sentence is printed as it stands, and
//! for `commits` the history, event by event, and how much of it one heap with plain monitors takes (`history.rt`).
#![tactic(auto)]

mod case;
mod counts;
mod entries;
mod events;
mod heap;
mod history;
mod journal;
mod journal_words;
mod parts;
mod shape;

use case::Case;
use history::HistoryCase;
use std::alloc::AllocError;
use std::io;

fn main(rt: HostRuntime) -> io::Result<()> {
    let text = io::read_to_string(rt.alloc(), rt.reader())?;
    let text = text.as_str();
    let (of_heap, of_histories) = text.split_once("== histories\n").unwrap_or((text, ""));
    show_heap(&rt, of_heap)?;
    show_histories(&rt, of_histories)
}

/// Prints what the rows of one heap are answered.
fn show_heap(rt: &HostRuntime, text: &str) -> io::Result<()> {
    let mut case = match Case::new(rt.alloc()) {
        Ok(case) => case,
        Err(_) => return Err(AllocError.into()),
    };
    for line in text.lines() {
        let answer = case.answered(rt.alloc(), line)?;
        println!(rt; "{answer}")?;
    }
    Ok(())
}

/// Prints the histories that journals commit.
fn show_histories(rt: &HostRuntime, text: &str) -> io::Result<()> {
    let mut case = HistoryCase::new(rt.alloc());
    for line in text.lines() {
        let answer = case.answered(rt.alloc(), line)?;
        print!(rt; "{answer}")?;
    }
    Ok(())
}
