//! What a call of the program is made over, and what it leaves.

use dso_base::NoMemory;
use dso_io::{MemFiles, MemSink};
use dso_keep::MemDisk;
use dso_run::{Done, without_threads};
use std::alloc::Global;

/// Files, a sink and a disk in memory, and how the call ended that was made over them, None where none was, or where it
/// would run in threads.
#[derive(Drop)]
pub struct Surroundings {
    files: MemFiles,
    out: MemSink,
    disk: MemDisk,
    done: Option<Done>,
}

impl Surroundings {
    /// Before a call.
    pub fn new(files: MemFiles, out: MemSink, disk: MemDisk) -> Surroundings {
        Surroundings {
            files,
            out,
            disk,
            done: None,
        }
    }

    /// Calls the program with these words.
    pub fn call(&mut self, alloc: Global, words: &[String]) {
        self.done = without_threads(alloc, words, &mut self.files, &mut self.out, &mut self.disk);
    }

    /// How the call ended.
    pub fn status(&self, alloc: Global) -> Result<String, NoMemory> {
        status_of(alloc, &self.done)
    }

    /// The number of the status, None where there is none.
    pub fn exit_number(&self) -> Option<u8> {
        match &self.done {
            Some(done) => Some(done.status.exit_number()),
            None => None,
        }
    }

    /// What the sink took, as text.
    pub fn printed(&self, alloc: Global) -> Result<String, NoMemory> {
        let text = String::from_utf8_lossy(alloc, self.out.taken())?;
        Ok(text)
    }

    /// Whether there is a file `j`, for the journal.
    pub fn has_journal(&self) -> bool {
        self.files.content("j").is_some()
    }

    /// The disk.
    pub fn disk(&self) -> &MemDisk {
        &self.disk
    }

    /// The bytes that a read of the store's file gives.
    pub fn file(&self, alloc: Global) -> Result<Vec<u8>, NoMemory> {
        self.disk.image(alloc, self.disk.pending())
    }
}

/// How a call ended: the status and its number.
pub fn status_of(alloc: Global, done: &Option<Done>) -> Result<String, NoMemory> {
    let text = match done {
        Some(done) => {
            let status = done.status;
            format!(in alloc; "{status:?}, exit {}", status.exit_number())?
        }
        None => String::from_str(alloc, "in threads")?,
    };
    Ok(text)
}
