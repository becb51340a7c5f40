//! Rows of stores through the top call: runs with a store, and stores that are shown, over files, a sink and a disk in
//! memory.
//!
//! A row is a word, a space and the rest. One of these words asks for an answer, and then all but the program is set
//! back:
//!
//! | Word | What it answers |
//! |---|---|
//! | `try NAME` | how the call ended, the file of the store, and the bytes that the sink took |
//! | `show NAME` | the same for `show c p s` |
//! | `ends NAME` | how the call ended, what `show` prints of its store, and whether the report ends with that |
//! | `stops NAME` | the same for a disk that stops at call 1, at call 2, and so on until it stops behind the last: what `show` prints of each image of the disk |
//! | `cuts NAME` | what it prints of each of these images with each length between the old end of the file and the new one |
//! | `spoils NAME` | what it prints of each of them with a byte 0, 1 and 255 at each place that may be torn |
//! | `words LINE` | what becomes of a command line, over a configuration that is no TOML and a disk that allows no call |
//! | `real LINE` | how the call of a command line ended over the files of this folder and the system's disk, and what it printed |
//! | `bytes FILE` | the bytes of a file of this folder |
//!
//! `cuts` and `spoils` leave out what is printed as for the one before.
//!
//! The other words set something: `program TEXT` the program, `config TEXT` its configuration, where `\n` stands for a
//! line feed, `line WORDS` the command line, which is `dsorun sim c p --store s` at first, `store BYTES` what the file
//! of the store has, two digits for a byte, `stop N` from which call on the disk fails, `most_calls N` and `most_bytes
//! N` how much it allows, `failing_call N` and `failing_put N` which call of the files or of the sink fails, `piece N`
//! how many bytes the sink takes at a time.

use crate::crashed::{Damage, crashes};
use crate::store_trial::StoreTrial;
use crate::trial::System;
use crate::{folder, stopped, store_answers};
use dso_base::NoMemory;
use std::alloc::AllocError;
use std::io;

/// Prints what a row asks for; the trial that is set behind it.
pub fn after_row<'a, R: System>(
    rt: &R,
    trial: StoreTrial<'a>,
    row: &'a str,
) -> io::Result<StoreTrial<'a>> {
    let (word, rest) = row.split_once(' ').unwrap_or((row, ""));
    match answer(rt, word, rest, &trial) {
        Ok(Some(answer)) => {
            println!(rt; "{answer}")?;
            Ok(StoreTrial::of_program(trial.program))
        }
        Ok(None) => Ok(trial.set(word, rest)),
        Err(_) => Err(AllocError)?,
    }
}

/// The answer to a word, None where it asks for none.
fn answer<R: System>(
    rt: &R,
    word: &str,
    rest: &str,
    trial: &StoreTrial<'_>,
) -> Result<Option<String>, NoMemory> {
    let alloc = rt.alloc();
    let answer = match word {
        "try" => store_answers::call(alloc, rest, trial)?,
        "show" => store_answers::call(alloc, rest, &trial.showing())?,
        "ends" => store_answers::ending(alloc, rest, trial)?,
        "words" => store_answers::words(alloc, rest, trial)?,
        "real" => folder::call(rt, rest)?,
        "bytes" => folder::bytes(rt, rest)?,
        "stops" => stopped::stops(alloc, rest, trial)?,
        "cuts" => crashes(alloc, rest, trial, Damage::Cut)?,
        "spoils" => crashes(alloc, rest, trial, Damage::Spoilt)?,
        _ => return Ok(None),
    };
    Ok(Some(answer))
}
