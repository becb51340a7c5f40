//! Rows of the cluster in one program: what is to be run, and how it goes.
//!
//! A line is a word, a space and the rest. `program TEXT` sets the program, with an empty configuration; `config TEXT`
//! sets the configuration. In texts `~0a` stands for the end of a line.
//!
//! | Line | What is run |
//! |---|---|
//! | `run NAME` | the program by round robin |
//! | `runs NAME` | the program by round robin, and by each of the seeds 0 to 99 |
//! | `afters NAME` | the program with each number from 0 to 60 in the place of `K` in the configuration, by round robin and by that number as its seed |
//! | `walk SEED COUNT NAME` | so many steps that are drawn from the seed, those that aren't open too |
//!
//! Of each run it prints how it ended, how many entries the journal has, what it weighs, and the clock and the node of
//! the last entry; of a walk how many steps made an entry, and at how many of them `enabled` said before what `step`
//! then did.

use crate::{runs, walks};
use case_programs::Case;
use dso_base::NoMemory;
use std::alloc::{AllocError, Global};
use std::io;

/// Prints how each run of these lines goes.
pub fn show(rt: &HostRuntime, text: &str) -> io::Result<()> {
    let mut case = Case::of_program("");
    for line in text.lines() {
        match line.split_once(' ') {
            Some(("program", text)) => case = Case::of_program(text),
            Some(("config", text)) => case = case.under(text),
            Some((word, rest)) => match told(rt.alloc(), case, word, rest) {
                Ok(rows) => print!(rt; "{rows}")?,
                Err(_) => Err(AllocError)?,
            },
            None => {}
        }
    }
    Ok(())
}

/// What is printed for a line.
fn told(alloc: Global, case: Case<'_>, word: &str, rest: &str) -> Result<String, NoMemory> {
    match word {
        "run" => runs::by_round_robin(alloc, rest, case),
        "runs" => runs::by_seeds(alloc, rest, case),
        "afters" => runs::by_numbers(alloc, rest, case),
        _ => walks::by_draws(alloc, rest, case),
    }
}
