//! The files of the system, as far as they tell their bytes: `specs/SystemFile.antt`.
ghost use Rattle.std.specs.Prelude.{◌≡◌, ◌≢◌, ◌≤◌, ℕ, List, length, take, vec_len, [], IfOk, IfErr, IfSome, IsErrOf, OnOk, OnErr};
ghost use Rattle.std.specs.Io.KnownBytes.{Appends};
ghost use Rattle.dso_io.specs.Environment.{Rose, Untold, faults_after, faults_of, noted_after};
ghost use Rattle.dso_io.specs.SystemFile.{ReadsOn};

use crate::environment::one_more;
use crate::failed_reads::FailedReads;
use crate::{FileFault, Files};
use std::alloc::Global;
use std::io::{Read, Write};
use std::{fs, rt};

/// The files of the system, over a runtime. Nothing is told of their bytes; each fault is counted. The name of a file
/// whose read failed is kept, which takes memory: where there is none, that is the answer.
#[derive(Drop)]
pub struct StdFiles<R: Drop> {
    runtime: R,
    pub(crate) failed_reads: FailedReads,
    pub(crate) failed_writes: u64,
}

impl<R: rt::Files + Drop> StdFiles<R> {
    /// All counts are at 0.
    pub fn new(alloc: Global, runtime: R) -> StdFiles<R>
        ensures reads { result.failed_reads ≡ [] }
        ensures writes { result.failed_writes ≡ 0 }
    {
        StdFiles {
            runtime,
            failed_reads: FailedReads::new(alloc),
            failed_writes: 0,
        }
    }
}

impl<R: rt::Files + Drop> Files for StdFiles<R> {
    ghost read_faults = { λ files name. faults_of files.failed_reads name };

    ghost write_faults = { λ files. files.failed_writes };

    ghost content = { λ files name. Untold };

    fn read(&mut self, alloc: Global, name: &str, most: u64) -> Result<Vec<u8>, FileFault>
        ensures bytes { IfOk result (λ bytes. length bytes.items ≤ most) }
        ensures failed { IsErrOf result FileFault.Failed → Rose (faults_of self.old.failed_reads name.now) (faults_of self.new.failed_reads name.now) }
        ensures reads { (name : List ℕ) → faults_of self.old.failed_reads name ≤ faults_of self.new.failed_reads name }
        ensures others { (other : List ℕ) → other ≢ name.now → faults_of self.new.failed_reads other ≡ faults_of self.old.failed_reads other }
        ensures sound { OnOk result ((name : List ℕ) → faults_of self.new.failed_reads name ≡ faults_of self.old.failed_reads name) }
        ensures writes { self.new.failed_writes ≡ self.old.failed_writes }
        ensures unchanged { (name : List ℕ) → Untold ≡ Untold }

        // A fault is noted exactly where it is answered.
        ensures noted { self.new.failed_reads ≡ noted_after self.old.failed_reads name.now result }
    {
        match read_file(&self.runtime, alloc, name, most) {
            Err(FileFault::Failed) => Err(self.failed_reads.fault(alloc, name)),
            answer => answer,
        }
    }

    fn write(&mut self, _alloc: Global, name: &str, bytes: &[u8]) -> Result<(), FileFault>
        ensures written { OnOk result (Untold ≡ Untold) }
        ensures others { (other : List ℕ) → other ≢ name.now → Untold ≡ Untold }
        ensures err { OnErr result (Untold ≡ Untold) }
        ensures failed { IsErrOf result FileFault.Failed → Rose self.old.failed_writes self.new.failed_writes }
        ensures sound { OnOk result (self.new.failed_writes ≡ self.old.failed_writes) }
        ensures reads { (name : List ℕ) → faults_of self.new.failed_reads name ≡ faults_of self.old.failed_reads name }
        ensures writes { self.old.failed_writes ≤ self.new.failed_writes }

        // A fault is counted exactly where it is answered, and a write needs no memory.
        ensures counted { self.new.failed_writes ≡ faults_after self.old.failed_writes result }
        ensures no_memory_needed { IfErr result (λ fault. fault ≡ FileFault.Failed) }
    {
        let written = match fs::File::create(&self.runtime, name) {
            Ok(mut file) => write_whole(&mut file, bytes),
            Err(_) => Err(FileFault::Failed),
        };
        if written.is_err() {
            self.failed_writes = one_more(self.failed_writes);
        }
        written
    }
}

/// The first bytes of a file of the system, at most so many.
fn read_file<R: rt::Files>(
    runtime: &R,
    alloc: Global,
    name: &str,
    most: u64,
) -> Result<Vec<u8>, FileFault>
    ensures { IfOk result (λ bytes. vec_len bytes ≤ most) }
{
    match fs::File::open(runtime, name) {
        Ok(mut file) => first_bytes(alloc, &mut file, most),
        Err(_) => Err(FileFault::Failed),
    }
}

/// How many bytes are read at a time.
const PIECE: usize = 4096;

/// The first bytes that a file gives, at most so many: all of them where it has no more.
fn first_bytes<R: Read>(alloc: Global, file: &mut R, most: u64) -> Result<Vec<u8>, FileFault>
    ensures within { IfOk result (λ bytes. vec_len bytes ≤ most) }
    ensures first { IfOk result (λ bytes. IfSome (R.remaining file.old) (λ left. bytes.items ≡ take most left)) }
{
    let mut bytes = Vec::new(alloc);
    let mut piece = [0; PIECE];
    while (bytes.len() as u64) < most {
        let left = most - bytes.len() as u64;
        let wanted = left.min(PIECE as u64) as usize;
        let count = read_piece(file, &mut piece[..wanted], &mut bytes)?;
        if count == 0 {
            return Ok(bytes);
        }
    }
    Ok(bytes)
}

/// Reads once, and puts what came behind the bytes. None come only at the end of the file, or where there is no room.
fn read_piece<R: Read>(
    file: &mut R,
    piece: &mut [u8],
    bytes: &mut Vec<u8>,
) -> Result<usize, FileFault>
    ensures count { IfOk result (λ count. count ≤ length piece.old) }
    ensures length { length piece.new ≡ length piece.old }
    ensures read { IfOk result (λ count. ReadsOn (R.remaining file.old) (R.remaining file.new) (length piece.old) count bytes.old.items bytes.new.items) }
{
    let Ok(count) = file.read(piece) else {
        return Err(FileFault::Failed);
    };
    let (read, _) = piece.split_at(count);
    bytes.extend_from_slice(read)?;
    Ok(count)
}

/// Writes all the bytes, or fails.
fn write_whole<W: Write>(file: &mut W, bytes: &[u8]) -> Result<(), FileFault>
    ensures written { OnOk result (Appends (W.contents file.old) (W.contents file.new) bytes.now) }
    ensures failed { IfErr result (λ fault. fault ≡ FileFault.Failed) }
{
    match file.write_all(bytes) {
        Ok(()) => Ok(()),
        Err(_) => Err(FileFault::Failed),
    }
}
