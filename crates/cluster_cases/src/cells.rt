//! Rows of turns of the cells of a cluster, each driven by hand.
//!
//! A line is a word, a space and the rest. `program TEXT` sets the program, with an empty configuration; `config TEXT`
//! sets the configuration. In texts `~0a` stands for the end of a line. `cells NAME` is printed as the name, and new
//! cells begin. Any other line is a row: a sentence, `: `, and a command; it is printed as the sentence, `: `, and the
//! answer.
//!
//! | Command | What it does |
//! |---|---|
//! | `client 1 2` | client 1's thread of index 2 makes a turn; with 0 its pump: whether it added an entry |
//! | `server` | the server makes a turn |
//! | `many 1 2 100` | so many turns of client 1's thread of index 2, or with 0 of its pump: how many added an entry |
//! | `served 100` | so many turns of the server: how many added an entry |
//! | `turns 1 4` | client 1's pump and the server make turns one after the other, so many each: how many of each added an entry |
//! | `rounds 1000` | the pump and the threads of each client and then the server make a turn each, until a hundred rounds one after the other added no entry, so many rounds at most: how many entries were added, whether the rounds ended so, and how many cells are spent |
//! | `journal` | the journal that the logs of all cells make, by a line for each entry; the cells are gone then |

use crate::cluster::Cluster;
use crate::commands;
use case_programs::Case;
use case_words::row_answer;
use dso_base::NoMemory;
use std::alloc::{AllocError, Global};
use std::io;

/// Prints what the rows of a text are answered.
pub fn show(rt: &HostRuntime, text: &str) -> io::Result<()> {
    let mut cluster = None;
    show_rows(rt, text, &mut cluster)
}

/// What the lines of a text ask for, one after the other.
fn show_rows(rt: &HostRuntime, text: &str, cluster: &mut Option<Cluster>) -> io::Result<()> {
    let mut case = Case::of_program("");
    for line in text.lines() {
        case = case_after(rt, cluster, case, line)?;
    }
    Ok(())
}

/// Does what a line asks for; the case that is set behind it.
fn case_after<'a>(
    rt: &HostRuntime,
    cluster: &mut Option<Cluster>,
    case: Case<'a>,
    line: &'a str,
) -> io::Result<Case<'a>> {
    match line.split_once(' ') {
        Some(("program", text)) => Ok(Case::of_program(text)),
        Some(("config", text)) => Ok(case.under(text)),
        Some(("cells", name)) => {
            open(rt, cluster, case, name)?;
            Ok(case)
        }
        _ => {
            show_row(rt, cluster, line)?;
            Ok(case)
        }
    }
}

/// New cells of the case begin, none where its texts are refused.
fn open(
    rt: &HostRuntime,
    cluster: &mut Option<Cluster>,
    case: Case<'_>,
    name: &str,
) -> io::Result<()> {
    println!(rt; "{name}")?;
    match Cluster::of_case(rt.alloc(), case) {
        Ok(cells) => *cluster = cells,
        Err(_) => Err(AllocError)?,
    }
    Ok(())
}

/// Prints a row with its answer.
fn show_row(rt: &HostRuntime, cluster: &mut Option<Cluster>, line: &str) -> io::Result<()> {
    let (name, command) = line.split_once(": ").unwrap_or((line, ""));
    let answer = answer_to(rt.alloc(), cluster, command);
    show_answer(rt, name, answer)
}

/// Prints an answer behind its row's name.
fn show_answer(rt: &HostRuntime, name: &str, answer: Result<String, NoMemory>) -> io::Result<()> {
    let row = row_answer(rt.alloc(), name, answer)?;
    println!(rt; "{row}")
}

/// The answer to a command; a journal takes the cells away.
fn answer_to(
    alloc: Global,
    cluster: &mut Option<Cluster>,
    command: &str,
) -> Result<String, NoMemory> {
    if command == "journal" {
        return last_answer(alloc, cluster.take());
    }
    match cluster {
        Some(cells) => commands::told(alloc, cells, command),
        None => none_told(alloc),
    }
}

/// The journal of the cells that are left.
fn last_answer(alloc: Global, cluster: Option<Cluster>) -> Result<String, NoMemory> {
    match cluster {
        Some(cells) => commands::journal(alloc, cells),
        None => none_told(alloc),
    }
}

/// That there are no cells.
fn none_told(alloc: Global) -> Result<String, NoMemory> {
    Ok(String::from_str(alloc, "no cells")?)
}
