//! Runs on disks that stop.

use crate::store_answers::end_of;
use crate::store_trial::StoreTrial;
use crate::surroundings::Surroundings;
use dso_base::NoMemory;
use std::alloc::Global;

/// How many calls are tried at most.
pub const MOST_STOPS: u64 = 200;

/// The number of the status of a disk that failed.
const STORE_FAULT: u8 = 10;

/// How the call ends on a disk that stops at call 1, at call 2, and so on until it ends otherwise, and what `show`
/// prints of each image of that disk.
pub fn stops(alloc: Global, name: &str, trial: &StoreTrial<'_>) -> Result<String, NoMemory> {
    let mut text = format!(in alloc; "{name}")?;
    for stop in 1..MOST_STOPS {
        let left = trial.stopped(stop).answer(alloc)?;
        let images = images_of(alloc, trial, &left)?;
        text = format!(in alloc; "{text}\nat call {stop}: {images}")?;
        if !is_stopped(&left) {
            break;
        }
    }
    let text = format!(in alloc; "{text}\n")?;
    Ok(text)
}

/// Whether the disk failed.
pub fn is_stopped(left: &Surroundings) -> bool {
    left.exit_number() == Some(STORE_FAULT)
}

/// How a call ended, and what `show` prints of each image of its disk.
fn images_of(
    alloc: Global,
    trial: &StoreTrial<'_>,
    left: &Surroundings,
) -> Result<String, NoMemory> {
    let mut text = end_of(alloc, left)?;
    let disk = left.disk();
    for kept in 0..disk.pending() {
        let image = disk.image(alloc, kept)?;
        let shown = shown(alloc, trial, &image)?;
        text = format!(in alloc; "{text}; {shown}")?;
    }
    let shown = shown(alloc, trial, &left.file(alloc)?)?;
    let text = format!(in alloc; "{text}; {shown}")?;
    Ok(text)
}

/// What `show` prints of a file with these bytes, in one line.
pub fn shown(alloc: Global, trial: &StoreTrial<'_>, bytes: &[u8]) -> Result<String, NoMemory> {
    let printed = trial.shown(alloc, bytes)?;
    let line = printed.trim_end().replace(alloc, "\n", ", ")?;
    Ok(line)
}
