//! To what a file reopens that was changed.

use crate::reopened::brief;
use crate::tally::Tally;
use dso_base::NoMemory;
use std::alloc::Global;

/// With so many of its first bytes, from a number on.
pub fn cut(alloc: Global, file: &[u8], from: usize) -> Result<String, NoMemory> {
    let mut tally = Tally::new(alloc);
    for count in from..file.len() {
        tally.note(brief(alloc, &file[..count])?, count as u64)?;
    }
    tally.note(brief(alloc, file)?, file.len() as u64)?;
    tally.text(alloc)
}

/// With another byte at each place from one on: 0, 1, 255, and the byte with each bit turned.
pub fn spoiled(alloc: Global, file: &[u8], from: usize) -> Result<String, NoMemory> {
    let mut tally = Tally::new(alloc);
    let mut spoiled = Vec::from_slice(alloc, file)?;
    for place in from..file.len() {
        for byte in [0, 1, 255, !file[place]] {
            spoiled[place] = byte;
            tally.count(brief(alloc, &spoiled)?)?;
        }
        spoiled[place] = file[place];
    }
    tally.text(alloc)
}

/// With each byte at one place.
pub fn gates(alloc: Global, file: &[u8], at: usize) -> Result<String, NoMemory> {
    let mut tally = Tally::new(alloc);
    let mut changed = Vec::from_slice(alloc, file)?;
    if at < file.len() {
        for byte in 0..=255 {
            changed[at] = byte;
            tally.count(brief(alloc, &changed)?)?;
        }
    }
    tally.text(alloc)
}
