//! One file of the system as a disk.
ghost use Rattle.std.specs.Prelude.{◌≡◌, ◌≤◌, None, IfOk, IsErrOf, MatchResult, OnErr, OnOk, length};
ghost use Rattle.dso_io.specs.Environment.{Rose, counted, faults_after};
ghost use Rattle.dso_io.specs.declared.environment.FileFault.TheVariants as fault;

use crate::Disk;
use dso_io::{Failed, FileFault};
use std::alloc::Global;
use std::fs::{OpenFile, OpenOptions};
use std::io::{Read, Seek, SeekFrom, Write};
use std::rt;

/// A file of the system, over a runtime. Nothing is told of its bytes; each fault is counted.
///
/// That the system keeps to the model of a disk is trusted: after a sync all that was written is on the disk, and a crash
/// changes nothing but what was written since.
#[derive(Drop)]
pub struct StdDisk<R: rt::Files + Drop> {
    runtime: R,
    file: Option<R::File>,
    failed: u64,
}

impl<R: rt::Files + Drop> StdDisk<R> {
    /// No file is attached, so that each call but `attach` fails, and the count is at 0.
    pub fn new(runtime: R) -> StdDisk<R>
        ensures { result.failed ≡ 0 }
    {
        StdDisk {
            runtime,
            file: None,
            failed: 0,
        }
    }

    /// The answer of a call that did this, None where it failed, which is counted.
    fn counted<T: Drop>(&mut self, done: Option<T>) -> Result<T, Failed>
        ensures faults { self.old.failed ≤ self.new.failed }
        ensures exact { MatchResult result
            (λ answer. self.new.failed ≡ self.old.failed)
            (λ fault. self.new.failed ≡ counted self.old.failed) }
    {
        match done {
            Some(answer) => Ok(answer),
            None => {
                self.failed = self.failed.saturating_add(1);
                Err(Failed)
            }
        }
    }
}

impl<R: rt::Files + Drop> Disk for StdDisk<R> {
    ghost use Rattle.std.specs.Prelude.{[], None};

    ghost faults = { λ disk. disk.failed };

    ghost file = { λ disk. None };

    ghost found = { λ disk name. [] };

    fn attach(&mut self, name: &str) -> Result<(), Failed> {
        self.file = opened(&self.runtime, name);
        let done = match &self.file {
            Some(_) => Some(()),
            None => None,
        };
        self.counted(done)
    }

    fn len(&mut self) -> Result<u64, Failed> {
        let done = match &self.file {
            Some(file) => size(file),
            None => None,
        };
        self.counted(done)
    }

    fn read_at(&mut self, alloc: Global, at: u64, most: u32) -> Result<Vec<u8>, FileFault> {
        let bytes = match &mut self.file {
            Some(file) => read_bytes(alloc, file, at, most),
            None => Err(FileFault::Failed),
        };
        if matches!(bytes, Err(FileFault::Failed)) {
            self.failed = self.failed.saturating_add(1);
        }
        bytes
    }

    fn write_at(&mut self, at: u64, bytes: &[u8]) -> Result<(), Failed> {
        let done = match &mut self.file {
            Some(file) => write_bytes(file, at, bytes),
            None => None,
        };
        self.counted(done)
    }

    fn sync(&mut self) -> Result<(), Failed> {
        let done = match &self.file {
            Some(file) => file.sync_all().ok(),
            None => None,
        };
        self.counted(done)
    }
}

/// The file of this name, which is made where there is none; None where that fails.
fn opened<R: rt::Files>(runtime: &R, name: &str) -> Option<R::File> {
    let mut options = OpenOptions::new();
    options.read(true).write(true);
    match options.open(runtime, name) {
        Ok(file) => Some(file),
        Err(_) => made(runtime, name),
    }
}

/// A new file of this name, which is on the disk once its folder is.
fn made<R: rt::Files>(runtime: &R, name: &str) -> Option<R::File> {
    let mut options = OpenOptions::new();
    options.read(true).write(true).create_new(true);
    let file = options.open(runtime, name).ok()?;
    let folder = std::fs::File::open(runtime, folder_of(name)).ok()?;
    folder.sync_all().ok()?;
    Some(file)
}

/// The name of the folder in which a file of this name stands.
fn folder_of(name: &str) -> &str {
    match name.rsplit_once('/') {
        Some(("", _)) => "/",
        Some((folder, _)) => folder,
        None => ".",
    }
}

/// How many bytes a file has.
fn size<F: OpenFile>(file: &F) -> Option<u64> {
    Some(file.metadata().ok()?.len())
}

/// Writes all the bytes at a place.
fn write_bytes<F: Write + Seek>(file: &mut F, at: u64, bytes: &[u8]) -> Option<()> {
    file.seek(SeekFrom::Start(at)).ok()?;
    file.write_all(bytes).ok()
}

/// How many bytes are read at a time.
const PIECE: usize = 4096;

/// The bytes of a file from a place on, at most so many, up to its end.
fn read_bytes<F: Read + Seek>(
    alloc: Global,
    file: &mut F,
    at: u64,
    most: u32,
) -> Result<Vec<u8>, FileFault>
    ensures within { IfOk result (λ bytes. length bytes.items ≤ most) }
{
    if file.seek(SeekFrom::Start(at)).is_err() {
        return Err(FileFault::Failed);
    }
    let mut bytes = Vec::new(alloc);
    let mut piece = [0; PIECE];
    while bytes.len() < most as usize {
        let wanted = (most as usize - bytes.len()).min(PIECE);
        let Ok(count) = file.read(&mut piece[..wanted]) else {
            return Err(FileFault::Failed);
        };
        if count == 0 {
            return Ok(bytes);
        }
        let (read, _) = piece.split_at(count);
        bytes.extend_from_slice(read)?;
    }
    Ok(bytes)
}
