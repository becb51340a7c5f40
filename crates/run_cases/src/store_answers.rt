//! What a call comes to, as text.

use crate::store_trial::StoreTrial;
use crate::surroundings::Surroundings;
use case_words::digits_of;
use dso_base::NoMemory;
use std::alloc::Global;

/// How the call ended, the file of the store, and the bytes that the sink took.
pub fn call(alloc: Global, name: &str, trial: &StoreTrial<'_>) -> Result<String, NoMemory> {
    let left = trial.answer(alloc)?;
    let end = end_of(alloc, &left)?;
    let printed = left.printed(alloc)?;
    let file = file_of(alloc, trial, &left)?;
    let text = format!(in alloc; "{name}: {end}\n{file}\n{printed}")?;
    Ok(text)
}

/// How the call ended, and whether it left a file of the journal.
pub fn end_of(alloc: Global, left: &Surroundings) -> Result<String, NoMemory> {
    let status = left.status(alloc)?;
    let journal = if left.has_journal() {
        ", with a journal's file"
    } else {
        ""
    };
    let text = format!(in alloc; "{status}{journal}")?;
    Ok(text)
}

/// The bytes of the store's file, or that they are as they were.
fn file_of(alloc: Global, trial: &StoreTrial<'_>, left: &Surroundings) -> Result<String, NoMemory> {
    let file = digits_of(alloc, &left.file(alloc)?)?;
    let text = if file.as_str() == trial.store() {
        String::from_str(alloc, "the store as it was")?
    } else {
        format!(in alloc; "store {file}")?
    };
    Ok(text)
}

/// How the call ended, what `show` prints of its store, and whether the report ends with that.
pub fn ending(alloc: Global, name: &str, trial: &StoreTrial<'_>) -> Result<String, NoMemory> {
    let left = trial.answer(alloc)?;
    let end = end_of(alloc, &left)?;
    let shown = trial.shown(alloc, &left.file(alloc)?)?;
    let printed = left.printed(alloc)?;
    let is_end = if graph_in(printed.as_str()) == Some(shown.as_str()) {
        "yes"
    } else {
        "no"
    };
    let text = format!(in alloc; "{name}: {end}\nthe report ends so: {is_end}\n{shown}")?;
    Ok(text)
}

/// The roots and objects of a report, which stand behind its count of unguarded reads.
fn graph_in(report: &str) -> Option<&str> {
    let (_, behind) = report.split_once("\nunguarded ")?;
    let (_, graph) = behind.split_once('\n')?;
    Some(graph)
}

/// What becomes of a command line.
pub fn words(alloc: Global, line: &str, trial: &StoreTrial<'_>) -> Result<String, NoMemory> {
    let left = trial.of_words(line).answer(alloc)?;
    let status = left.status(alloc)?;
    let text = format!(in alloc; "{line}: {status}")?;
    Ok(text)
}
