//! Calls of one end of a connection, with what each answers as text.

use case_words::debugged;
use dso_base::NoMemory;
use dso_port::{Arrival, Carried, Port};
use std::alloc::Global;
use std::fmt::Debug;

/// More than any row counts to: below it no call outgrows its bounds.
const MOST: u64 = 1 << 60;

/// Sends a message at a clock, where its number fits.
pub fn sent<S: Carried, T: Carried>(
    alloc: Global,
    end: &mut Port<S, T>,
    message: S,
    clock: u64,
) -> Result<String, NoMemory> {
    if end.sent() >= MOST {
        return debugged(alloc, "too many");
    }
    debugged(alloc, end.send(message, clock))
}

/// Frames go to the ring.
pub fn give<S: Carried, T: Carried>(
    alloc: Global,
    end: &mut Port<S, T>,
) -> Result<String, NoMemory> {
    debugged(alloc, end.give(alloc))
}

/// Takes a frame from the ring.
pub fn take<S: Carried, T: Carried + Debug>(
    alloc: Global,
    end: &mut Port<S, T>,
) -> Result<String, NoMemory> {
    debugged(alloc, end.take(alloc))
}

/// Takes frames from the ring until there is none, a hundred at most.
pub fn all<S: Carried, T: Carried + Debug>(
    alloc: Global,
    end: &mut Port<S, T>,
) -> Result<String, NoMemory> {
    for frames in 0..100_u64 {
        match end.take(alloc) {
            Ok(Arrival::Nothing) => return debugged(alloc, frames),
            Ok(_) => {}
            Err(fault) => return debugged(alloc, fault),
        }
    }
    debugged(alloc, "more than a hundred")
}

/// What the end tells of itself.
pub fn tells<S: Carried, T: Carried>(alloc: Global, end: &Port<S, T>) -> Result<String, NoMemory> {
    let accepted = end.accepted();
    let sent = end.sent();
    let epoch = end.epoch();
    let ready = end.is_ready();
    let late = end.is_late();
    let text = format!(in alloc;
        "accepted {accepted}, sent {sent}, epoch {epoch}, ready {ready}, late {late}"
    )?;
    Ok(text)
}
