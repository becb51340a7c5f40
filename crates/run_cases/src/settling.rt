//! How often a thread of a client that is lost settles, beside what the report keeps of it.
use crate::trial::{Answer, System, Trial};
use crate::variants::LAST_NUMBER;
use dso_base::{Entry, Event, Request, ThreadId};
use std::io;

/// How often thread 2.1 settles in a journal, and how many of its values the report has.
#[derive(Clone, Copy, PartialEq)]
struct Settling {
    times: usize,
    values: usize,
}

/// Tries the call with each number in the place of `K` in its configuration, and prints how often thread 2.1 settles,
/// and how many of its values the report has, where that differs from the number before.
pub fn show_settles<R: System>(rt: &R, name: &str, trial: &Trial<'_>) -> io::Result<()> {
    let mut last = None;
    for number in 0..LAST_NUMBER + 1 {
        let settling = settling_after(rt, trial, number)?;
        if settling != last {
            show_settling(rt, name, number, settling)?;
        }
        last = settling;
    }
    Ok(())
}

/// What thread 2.1 does with this number in the place of `K`, None where there was no memory.
fn settling_after<R: System>(
    rt: &R,
    trial: &Trial<'_>,
    number: u64,
) -> io::Result<Option<Settling>> {
    let number = format!(in rt.alloc(); "{number}")?;
    let config = trial.config.replace(rt.alloc(), "K", number.as_str())?;
    match trial.set("config", config.as_str()).answer(rt) {
        Ok(answer) => Ok(Some(settling_of(rt, &answer)?)),
        Err(_) => Ok(None),
    }
}

/// Prints what thread 2.1 does from this number on.
fn show_settling<R: System>(
    rt: &R,
    name: &str,
    number: u64,
    settling: Option<Settling>,
) -> io::Result<()> {
    match settling {
        Some(Settling { times, values }) => {
            println!(rt; "{name}, from after {number} on: settled {times} times, {values} values")
        }
        None => println!(rt; "{name}, after {number}: no memory"),
    }
}

/// What thread 2.1 did in a call.
fn settling_of<R: System>(rt: &R, answer: &Answer) -> io::Result<Settling> {
    let entries = answer.done.journal.entries.as_slice();
    let report = String::from_utf8_lossy(rt.alloc(), answer.taken.as_slice())?;
    Ok(Settling {
        times: entries.iter().filter(|entry| is_settling(entry)).count(),
        values: value_count(report.as_str()),
    })
}

/// Whether thread 2.1 settles in this entry.
fn is_settling(entry: &Entry) -> bool {
    let settling = ThreadId {
        client: 2,
        index: 1,
    };
    let Some(event) = &entry.event else {
        return false;
    };
    match *event.get() {
        Event::Act {
            thread,
            request: Request::Settle,
            ..
        } => thread == settling,
        _ => false,
    }
}

/// How many values a report has of thread 2.1, which is the last of its threads.
pub fn value_count(report: &str) -> usize {
    match report.split_once("thread 2.1 ") {
        Some((_, values)) => values.lines().filter(|line| line.starts_with("| ")).count(),
        None => 0,
    }
}
