//! Files in memory, by `specs/Memory.antt`.
ghost use Rattle.std.specs.Prelude.{◌≡◌, ◌≢◌, ◌↔◌, ℕ, ◌≤◌, List, [], ◌∷◌, IfOk, IfErr, IsErrOf, OnOk, OnErr, MatchOption, Some, None, Err, nat_eq, take, true};
ghost use Rattle.std.specs.List.{list_any};
ghost use Rattle.dso_io.specs.Environment.{Missing, Holds, MayGive, Rose, faults_of, noted_after, replaced};
ghost use Rattle.dso_io.specs.Memory.{file_of, told_by, bytes_read, called, is_next_listed, after_read, after_write};
ghost use Rattle.dso_io.specs.MemoryFile.{named_bytes};

use crate::environment::one_more;
use crate::failed_reads::FailedReads;
use crate::{FileFault, Files};
use dso_base::NoMemory;
use std::alloc::Global;
use std::marker::Model;

/// A file in memory.
#[derive(Drop)]
struct MemFile {
    name: Vec<u8>,
    bytes: Vec<u8>,
}

/// Files in memory, which tell their bytes and fail when they are asked to.
///
/// A read of a name that isn't there fails too. The name of a file whose read failed is kept, which takes memory: where
/// there is none, that is the answer.
#[derive(Drop)]
pub struct MemFiles {
    files: Vec<MemFile>,
    fails: Vec<u64>,
    calls: u64,
    failed_reads: FailedReads,
    failed_writes: u64,
}

impl Model for MemFiles {
    ghost use Rattle.std.specs.Prelude.{map};
    ghost use Rattle.dso_io.specs.Memory.{MemoryFiles};

    ghost Value = { MemoryFiles };

    ghost view = { λ a. record {
      kept = map (λ file. (file.name.items, file.bytes.items)) a.files.items;
      fails = a.fails.items;
      calls = a.calls;
      failed_reads = a.failed_reads;
      failed_writes = a.failed_writes;
    } };
}

impl MemFiles {
    /// No file; the calls of these numbers will fail, reads and writes counted together from 1.
    pub fn new(alloc: Global, fails: &[u64]) -> Result<MemFiles, NoMemory>
        ensures { IfOk result (λ files. files ≡ record {
          kept = [];
          fails = fails.now;
          calls = 0;
          failed_reads = [];
          failed_writes = 0;
        }) }
    {
        Ok(MemFiles {
            files: Vec::new(alloc),
            fails: Vec::from_slice(alloc, fails)?,
            calls: 0,
            failed_reads: FailedReads::new(alloc),
            failed_writes: 0,
        })
    }

    /// Puts a file there, or replaces it. It is no numbered call. Where there is no memory, all is as before.
    pub fn add(&mut self, alloc: Global, name: &str, bytes: &[u8]) -> Result<(), NoMemory>
        ensures ok { OnOk result (self.new ≡ record self.old { kept = (name.now, bytes.now) ∷ self.old.kept }) }
        ensures err { OnErr result (self.new ≡ self.old) }
    {
        let file = MemFile {
            name: Vec::from_slice(alloc, name.as_bytes())?,
            bytes: Vec::from_slice(alloc, bytes)?,
        };
        self.files.insert(0, file)?;
        Ok(())
    }

    /// The bytes of a file, None exactly where there is none of that name.
    pub fn content(&self, name: &str) -> Option<&[u8]>
        ensures { MatchOption result (told_by self.now name.now ≡ Missing) (λ bytes. told_by self.now name.now ≡ Holds bytes.now) }
    {
        find(self.files.as_slice(), name)
    }

    /// Notes that a read of this name failed, and answers that it did; or that there is no memory to note it.
    fn failed_read(&mut self, alloc: Global, name: &str) -> FileFault
        ensures noted { self.new ≡ record self.old { failed_reads = noted_after {A = ℕ} self.old.failed_reads name.now (Err result) } }
        ensures rose { result ≡ FileFault.Failed → Rose (faults_of self.old.failed_reads name.now) (faults_of self.new.failed_reads name.now) }
        ensures reads { (name : List ℕ) → faults_of self.old.failed_reads name ≤ faults_of self.new.failed_reads name }
        ensures others { (other : List ℕ) → other ≢ name.now → faults_of self.new.failed_reads other ≡ faults_of self.old.failed_reads other }
    {
        self.failed_reads.fault(alloc, name)
    }

    /// Counts a call, and tells whether it is to fail.
    fn is_to_fail(&mut self) -> bool
        ensures told { result ≡ is_next_listed self.old.fails self.old.calls }
        ensures counted { self.new ≡ called self.old }
    {
        let call = one_more(self.calls);
        self.calls = call;
        is_listed(self.fails.as_slice(), call)
    }
}

/// Whether the number stands in the list.
fn is_listed(numbers: &[u64], number: u64) -> bool
    ensures { result ≡ list_any (λ listed. nat_eq listed number) numbers.now }
{
    numbers.contains(&number)
}

/// The bytes of the first file of this name.
fn find<'a>(files: &'a [MemFile], name: &str) -> Option<&'a [u8]>
    ensures { MatchOption result (file_of (named_bytes files.now) name.now ≡ Missing)
        (λ bytes. file_of (named_bytes files.now) name.now ≡ Holds bytes.now) }
{
    for file in files {
        if file.name.as_slice() == name.as_bytes() {
            return Some(file.bytes.as_slice());
        }
    }
    None
}

impl Files for MemFiles {
    ghost read_faults = { λ files name. faults_of files.failed_reads name };

    ghost write_faults = { λ files. files.failed_writes };

    ghost content = { λ files name. told_by files name };

    fn read(&mut self, alloc: Global, name: &str, most: u64) -> Result<Vec<u8>, FileFault>
        ensures bytes { IfOk result (λ bytes. MayGive (told_by self.old name.now) most bytes.items) }
        ensures failed { IsErrOf result FileFault.Failed → Rose (faults_of self.old.failed_reads name.now) (faults_of self.new.failed_reads name.now) }
        ensures reads { (name : List ℕ) → faults_of self.old.failed_reads name ≤ faults_of self.new.failed_reads name }
        ensures others { (other : List ℕ) → other ≢ name.now → faults_of self.new.failed_reads other ≡ faults_of self.old.failed_reads other }
        ensures sound { OnOk result ((name : List ℕ) → faults_of self.new.failed_reads name ≡ faults_of self.old.failed_reads name) }
        ensures writes { self.new.failed_writes ≡ self.old.failed_writes }
        ensures unchanged { (name : List ℕ) → told_by self.new name ≡ told_by self.old name }

        // It fails exactly where the call is listed or there is no file of that name, or there is no memory.
        ensures given { IfOk result (λ bytes. bytes_read self.old name.now most ≡ Some bytes.items) }
        ensures cause { IsErrOf result FileFault.Failed → bytes_read self.old name.now most ≡ None }
        ensures after { self.new ≡ after_read self.old name.now result }
    {
        if self.is_to_fail() {
            return Err(self.failed_read(alloc, name));
        }
        match find(self.files.as_slice(), name) {
            Some(bytes) => Ok(first_bytes(alloc, bytes, most)?),
            None => Err(self.failed_read(alloc, name)),
        }
    }

    fn write(&mut self, alloc: Global, name: &str, bytes: &[u8]) -> Result<(), FileFault>
        ensures written { OnOk result (told_by self.new name.now ≡ replaced (told_by self.old name.now) bytes.now) }
        ensures others { (other : List ℕ) → other ≢ name.now → told_by self.new other ≡ told_by self.old other }
        ensures err { OnErr result (told_by self.new name.now ≡ told_by self.old name.now) }
        ensures failed { IsErrOf result FileFault.Failed → Rose self.old.failed_writes self.new.failed_writes }
        ensures sound { OnOk result (self.new.failed_writes ≡ self.old.failed_writes) }
        ensures reads { (name : List ℕ) → faults_of self.new.failed_reads name ≡ faults_of self.old.failed_reads name }
        ensures writes { self.old.failed_writes ≤ self.new.failed_writes }

        // It fails exactly where the call is listed.
        ensures cause { IsErrOf result FileFault.Failed ↔ (is_next_listed self.old.fails self.old.calls ≡ true) }
        ensures after { self.new ≡ after_write self.old name.now bytes.now result }
    {
        if self.is_to_fail() {
            self.failed_writes = one_more(self.failed_writes);
            return Err(FileFault::Failed);
        }
        self.add(alloc, name, bytes)?;
        Ok(())
    }
}

/// The first bytes, at most so many, in a vector of their own.
fn first_bytes(alloc: Global, bytes: &[u8], most: u64) -> Result<Vec<u8>, NoMemory>
    ensures { IfOk result (λ first. first.items ≡ take most bytes.now) }
{
    let count = bytes.len().min(most as usize);
    let (first, _) = bytes.split_at(count);
    Ok(Vec::from_slice(alloc, first)?)
}
