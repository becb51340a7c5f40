//! The cases of the top call: reads settings and trials from standard input, and prints what each trial comes to.
//!
//! A line is a word, a space and the rest. `try NAME` calls the program with what the lines before it set, and prints
//! the name, the status, the exit number and the bytes that the sink took; `journal NAME` prints the journal too,
//! `file FILE NAME` what that file holds then, `reason NAME` only why nothing was run. `seeds NAME` calls it by round
//! robin and by seeds 0 to 9, `hundred NAME` by seeds 0 to 99, and prints what differs from the call before; `afters
//! NAME` does so with the numbers 0 to 60 in the place of `K` in the configuration; `sends NAME` prints for each schedule how many leases are granted
//! and recalled, and how many objects are flushed; `settles NAME` takes the same numbers as `afters`, and prints how
//! often thread 2.1 settles and how many of its values are in the report. `keeps NAME` takes four of them, and prints
//! whether the count at the end is that of the values that are shown; `meeting NAME` calls the program through a
//! gate, and prints how many of five workers saw all of them come to their first turns. Then all but the program is
//! set back. `words LINE` tells what becomes of a command line. `example NAME` runs the program of a folder of the
//! gallery, and prints whether its report is the stored one; `traced NAME` does so for its journal too, and `threaded
//! NAME` for a run in threads; `collected NAME` compares runs with collections to the one without, and `linted NAME`
//! prints what the lock checker answers of it; `store ROW` does what `store_rows` says of the row. The other words are
//! those of `Trial::set`. In texts `\n`, `\t`, `\r` and `\1` stand for bytes.
#![tactic(auto)]

mod crashed;
mod examples;
mod folder;
mod keeping;
mod meeting;
mod settling;
mod stopped;
mod store_answers;
mod store_rows;
mod store_trial;
mod surroundings;
mod trial;
mod variants;

use examples::{show_collected, show_example, show_linted, show_threaded, show_traced};
use keeping::show_keeps;
use meeting::show_meeting;
use settling::show_settles;
use std::io;
use store_rows::after_row;
use store_trial::StoreTrial;
use trial::{System, Trial, show_file, show_journal, show_reason, show_trial, show_words};
use variants::{MANY_SEEDS, SEEDS, show_afters, show_seeds, show_sends};

fn main(rt: HostRuntime) -> io::Result<()> {
    let text = io::read_to_string(rt.alloc(), rt.reader())?;
    let mut trial = Trial::of_program("");
    let mut store_trial = StoreTrial::of_program("");
    for line in text.as_str().lines() {
        let (word, rest) = line.split_once(' ').unwrap_or((line, ""));
        if word == "store" {
            store_trial = after_row(&rt, store_trial, rest)?;
        } else if tries(&rt, word, rest, &trial)? {
            trial = Trial::of_program(trial.program);
        } else if !shows(&rt, word, rest)? {
            trial = trial.set(word, rest);
        }
    }
    Ok(())
}

/// Tries the call as the word asks: whether it asks for that.
fn tries<R: System>(rt: &R, word: &str, rest: &str, trial: &Trial<'_>) -> io::Result<bool> {
    match word {
        "try" => show_trial(rt, rest, trial)?,
        "journal" => show_journal(rt, rest, trial)?,
        "file" => show_file(rt, rest, trial)?,
        "reason" => show_reason(rt, rest, trial)?,
        "seeds" => show_seeds(rt, rest, trial, SEEDS)?,
        "hundred" => show_seeds(rt, rest, trial, MANY_SEEDS)?,
        "afters" => show_afters(rt, rest, trial)?,
        "sends" => show_sends(rt, rest, trial)?,
        "settles" => show_settles(rt, rest, trial)?,
        "keeps" => show_keeps(rt, rest, trial)?,
        "meeting" => show_meeting(rt, rest, trial)?,
        _ => return Ok(false),
    }
    Ok(true)
}

/// Shows what the word asks for, whatever trial is set: whether it asks for that.
fn shows<R: System>(rt: &R, word: &str, rest: &str) -> io::Result<bool> {
    match word {
        "example" => show_example(rt, rest)?,
        "traced" => show_traced(rt, rest)?,
        "threaded" => show_threaded(rt, rest)?,
        "collected" => show_collected(rt, rest)?,
        "linted" => show_linted(rt, rest)?,
        "words" => show_words(rt, rest)?,
        _ => return Ok(false),
    }
    Ok(true)
}
