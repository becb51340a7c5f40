//! Calls of the program over the files of the folder that this program runs in, and the disk of the system.

use crate::surroundings::status_of;
use crate::trial::{ROOM, System, words_of};
use case_words::digits_of;
use dso_base::NoMemory;
use dso_io::{MemSink, StdFiles};
use dso_keep::StdDisk;
use dso_run::without_threads;
use std::fs;

/// How a call of this command line ended, and the bytes that the sink took.
pub fn call<R: System>(rt: &R, line: &str) -> Result<String, NoMemory> {
    let alloc = rt.alloc();
    let words = words_of(alloc, line)?;
    let mut files = StdFiles::new(alloc, rt);
    let mut out = MemSink::new(alloc, ROOM, ROOM, &[])?;
    let mut disk = StdDisk::new(rt);
    let done = without_threads(alloc, words.as_slice(), &mut files, &mut out, &mut disk);
    let status = status_of(alloc, &done)?;
    let printed = String::from_utf8_lossy(alloc, out.taken())?;
    let text = format!(in alloc; "{line}: {status}\n{printed}")?;
    Ok(text)
}

/// The bytes of a file.
pub fn bytes<R: System>(rt: &R, name: &str) -> Result<String, NoMemory> {
    let alloc = rt.alloc();
    let text = match fs::read(rt, name) {
        Ok(bytes) => digits_of(alloc, &bytes)?,
        Err(_) => String::from_str(alloc, "cannot be read")?,
    };
    let text = format!(in alloc; "{name}: {text}\n")?;
    Ok(text)
}
