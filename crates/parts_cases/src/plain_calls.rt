//! Calls of a part that are drawn from a number, each compared with what plain lists tell.

use case_words::{count, number, shown};
use dso_base::{Level, LockName, NoMemory};
use std::alloc::Global;

/// A part beside the plain lists that tell what it is to answer.
pub trait Comparison {
    /// Makes the call that is drawn, and tells whether the part answers what the lists tell.
    fn agrees(&mut self, alloc: Global, drawn: u64) -> Result<bool, NoMemory>;
}

/// Makes so many calls, drawn from the first number, and tells whether each answered what the lists tell.
pub fn run<T: Comparison>(
    alloc: Global,
    comparison: &mut T,
    first: &str,
    second: &str,
) -> Result<String, NoMemory> {
    let (Some(seed), Some(calls)) = (number(first), count(second)) else {
        return shown(alloc, "no such numbers");
    };
    if all_agree(alloc, comparison, seed, calls)? {
        shown(alloc, "all calls agree")
    } else {
        shown(alloc, "a call differs")
    }
}

/// Whether so many calls agree, each drawn from the number before it.
fn all_agree<T: Comparison>(
    alloc: Global,
    comparison: &mut T,
    seed: u64,
    calls: u32,
) -> Result<bool, NoMemory> {
    let mut drawn = seed;
    for _ in 0..calls {
        drawn = drawn
            .wrapping_mul(6364136223846793005)
            .wrapping_add(1442695040888963407);
        if !comparison.agrees(alloc, drawn >> 33)? {
            return Ok(false);
        }
    }
    Ok(true)
}

/// One of four locks.
pub fn drawn_lock(drawn: u64) -> LockName {
    match drawn % 4 {
        0 => LockName::Mon(1),
        1 => LockName::Mon(2),
        2 => LockName::Name(0),
        _ => LockName::Name(1),
    }
}

/// One of five clients.
pub fn drawn_client(drawn: u64) -> u8 {
    match drawn % 5 {
        0 => 1,
        1 => 2,
        2 => 3,
        3 => 9,
        _ => 16,
    }
}

/// Write where it is so, else Read.
pub fn drawn_level(is_write: bool) -> Level {
    if is_write { Level::Write } else { Level::Read }
}
