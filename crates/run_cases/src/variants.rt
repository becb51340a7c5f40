//! The same call by each schedule, or with each number in its configuration.
use crate::trial::{Answer, System, Trial, show_answer};
use dso_base::{Down, Entry, Input, Sent};
use std::io;

/// How many seeds are mostly tried.
pub const SEEDS: u64 = 10;

/// How many are where the order of calls is what a row is about.
pub const MANY_SEEDS: u64 = 100;

/// The last number that stands in a configuration in the place of `K`.
pub const LAST_NUMBER: u64 = 60;

/// Tries the call by round robin and by each of so many seeds, and prints what it comes to where that differs from the
/// one before.
pub fn show_seeds<R: System>(rt: &R, name: &str, trial: &Trial<'_>, seeds: u64) -> io::Result<()> {
    let mut last = show_next(rt, name, "round robin", trial, None)?;
    for seed in 0..seeds {
        let label = format!(in rt.alloc(); "seed {seed}")?;
        let line = format!(in rt.alloc(); "{} --seed {seed}", trial.line)?;
        let seeded = trial.set("line", line.as_str());
        last = show_next(rt, name, label.as_str(), &seeded, last)?;
    }
    Ok(())
}

/// Tries the call with each number in the place of `K` in its configuration, and prints what it comes to where that
/// differs from the one before.
pub fn show_afters<R: System>(rt: &R, name: &str, trial: &Trial<'_>) -> io::Result<()> {
    let mut last = None;
    for number in 0..LAST_NUMBER + 1 {
        let label = format!(in rt.alloc(); "after {number}")?;
        let number = format!(in rt.alloc(); "{number}")?;
        let config = trial.config.replace(rt.alloc(), "K", number.as_str())?;
        let numbered = trial.set("config", config.as_str());
        last = show_next(rt, name, label.as_str(), &numbered, last)?;
    }
    Ok(())
}

/// Tries the call by round robin and by each seed, and prints how many leases its journal grants and recalls, and how
/// many objects it flushes.
pub fn show_sends<R: System>(rt: &R, name: &str, trial: &Trial<'_>) -> io::Result<()> {
    show_counts(rt, name, "round robin", trial)?;
    for seed in 0..SEEDS {
        let label = format!(in rt.alloc(); "seed {seed}")?;
        let line = format!(in rt.alloc(); "{} --seed {seed}", trial.line)?;
        let seeded = trial.set("line", line.as_str());
        show_counts(rt, name, label.as_str(), &seeded)?;
    }
    Ok(())
}

/// Tries the call, prints what it comes to unless the last one came to the same, and hands it on.
fn show_next<R: System>(
    rt: &R,
    name: &str,
    label: &str,
    trial: &Trial<'_>,
    last: Option<Answer>,
) -> io::Result<Option<Answer>> {
    match trial.answer(rt) {
        Ok(answer) => {
            if !is_same(&answer, &last) {
                let name = format!(in rt.alloc(); "{name}, from {label} on")?;
                show_answer(rt, name.as_str(), &answer)?;
            }
            Ok(Some(answer))
        }
        Err(_) => {
            println!(rt; "{name}, {label}: no memory")?;
            Ok(None)
        }
    }
}

/// Whether the two calls came to the same.
fn is_same(answer: &Answer, last: &Option<Answer>) -> bool {
    match last {
        Some(last) => {
            answer.done.status == last.done.status
                && answer.taken.as_slice() == last.taken.as_slice()
        }
        None => false,
    }
}

/// Tries the call, and prints how much of each kind its journal has.
fn show_counts<R: System>(rt: &R, name: &str, label: &str, trial: &Trial<'_>) -> io::Result<()> {
    match trial.answer(rt) {
        Ok(answer) => {
            let Counts {
                grants,
                recalls,
                flushes,
            } = counts_of(answer.done.journal.entries.as_slice());
            println!(rt; "{name}, {label}: {grants} grants, {recalls} recalls, {flushes} flushes")
        }
        Err(_) => println!(rt; "{name}, {label}: no memory"),
    }
}

/// How many leases entries grant and recall, and how many objects they flush.
struct Counts {
    grants: u64,
    recalls: u64,
    flushes: u64,
}

/// What the entries have of each kind.
fn counts_of(entries: &[Entry]) -> Counts {
    let mut counts = Counts {
        grants: 0,
        recalls: 0,
        flushes: 0,
    };
    for entry in entries {
        if matches!(entry.input, Input::Flush(_)) {
            counts.flushes = counts.flushes.saturating_add(1);
        }
        for sent in entry.sent.as_slice() {
            count_sent(&mut counts, sent);
        }
    }
    counts
}

/// Counts a message that is sent.
fn count_sent(counts: &mut Counts, sent: &Sent) {
    match sent {
        Sent::ToClient(_, Down::Grant(..)) => counts.grants = counts.grants.saturating_add(1),
        Sent::ToClient(_, Down::Recall(..)) => counts.recalls = counts.recalls.saturating_add(1),
        _ => {}
    }
}
