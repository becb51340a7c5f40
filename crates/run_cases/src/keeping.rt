//! What stays of a client that is lost in the midst of a run, whatever its threads did before.
use crate::settling::value_count;
use crate::trial::{Answer, System, Trial, number_of, show_answer};
use dso_base::NoMemory;
use dso_run::Status;
use std::io;

/// How many values the thread of the client that is kept prints.
const KEPT: usize = 3;

/// After how many messages the other client is lost.
const AFTERS: [u64; 4] = [0, 10, 20, 60];

/// Tries the call with each of these numbers in the place of `K` in its configuration, and prints whether it finishes and
/// counts the values that it shows, or all that it comes to where it doesn't.
pub fn show_keeps<R: System>(rt: &R, name: &str, trial: &Trial<'_>) -> io::Result<()> {
    for number in AFTERS {
        let label = format!(in rt.alloc(); "{name}, after {number}")?;
        match numbered(rt, trial, number) {
            Ok(answer) => show_kept(rt, label.as_str(), &answer)?,
            Err(_) => println!(rt; "{label}: no memory")?,
        }
    }
    Ok(())
}

/// What the call comes to with this number in the place of `K`.
fn numbered<R: System>(rt: &R, trial: &Trial<'_>, number: u64) -> Result<Answer, NoMemory> {
    let number = format!(in rt.alloc(); "{number}")?;
    let config = trial.config.replace(rt.alloc(), "K", number.as_str())?;
    trial.set("config", config.as_str()).answer(rt)
}

/// Prints that a call counts what it shows, or all that it came to.
fn show_kept<R: System>(rt: &R, label: &str, answer: &Answer) -> io::Result<()> {
    if counts_what_it_shows(rt, answer)? {
        println!(rt; "{label}: finished, and counts the values that it shows")
    } else {
        show_answer(rt, label, answer)
    }
}

/// Whether the call finished, and its count is that of the values of both threads, of which the first shows all.
fn counts_what_it_shows<R: System>(rt: &R, answer: &Answer) -> io::Result<bool> {
    let report = String::from_utf8_lossy(rt.alloc(), answer.taken.as_slice())?;
    let report = report.as_str();
    let shown = report.lines().filter(|line| line.starts_with("| ")).count();
    Ok(
        answer.done.status == Status::Finished
            && shown.checked_sub(value_count(report)) == Some(KEPT)
            && count_of(report) == shown as u64,
    )
}

/// What the counter of a report comes to, 0 where it has none.
fn count_of(report: &str) -> u64 {
    match report.split_once("#1 Counter n=") {
        Some((_, rest)) => number_of(rest.lines().next().unwrap_or("")),
        None => 0,
    }
}
