//! A disk in memory (`specs/Memory.antt`).
ghost use Rattle.std.specs.Prelude.{◌≡◌, ◌≤◌, ◌<◌, ◌^◌, ℕ, List, [], ◌∷◌, length, take, drop, Some, true, false, IfOk, OnOk, OnErr, IfSome, IsErrOf};
ghost use Rattle.dso_io.specs.Environment.{Rose, counted};
ghost use Rattle.dso_io.specs.declared.environment.FileFault.TheVariants as fault;
ghost use Rattle.dso_keep.specs.Disk.{Attached, Wrote, Synced, Makes, MayLeave, Writes, bytes_in};
ghost use Rattle.dso_keep.specs.Memory.{IsFailing, IsReadFailing, after_call, count_pending, failed_call, fails_call, fails_next, image_of};

use crate::Disk;
use crate::tape::Tape;
use dso_base::NoMemory;
use dso_io::{Failed, FileFault};
use std::alloc::Global;
use std::marker::Model;

/// A disk in memory, which tells its file and all that was done to it, and fails from a stated call on.
///
/// It has one file under all names. A call that fails changes no byte, and is no pending write.
#[derive(Drop)]
pub struct MemDisk {
    tape: Tape,
    stop: Option<u64>,
    calls: u64,
    failed: u64,
}

impl Model for MemDisk {
    ghost use Rattle.std.specs.Prelude.{◌≤◌, ◌<◌, ◌^◌, length};
    ghost use Rattle.dso_keep.specs.Memory.{MemoryDisk};

    ghost Value = { MemoryDisk };

    ghost view = { λ a. record {
      file = a.tape.file;
      written = a.tape.written;
      stop = a.stop;
      most_calls = a.tape.most_marks;
      most_bytes = a.tape.most_bytes;
      calls = a.calls;
      failed = a.failed;
    } };

    ghost invariant = { λ a. (length a.tape.file.changes ≤ a.calls) × (a.tape.most_marks < 2 ^ 32) };
}

impl MemDisk {
    /// A disk whose file has these bytes, with no write pending. The call of number `stop`, counted from 1, and each
    /// later one fail, and so does a call for which there is no room: one past so many, or a write past so many bytes
    /// written in all.
    ///
    /// It answers `NoMemory` where an allocation was refused.
    pub fn new(
        alloc: Global,
        bytes: &[u8],
        stop: Option<u64>,
        most_calls: u32,
        most_bytes: u32,
    ) -> Result<MemDisk, NoMemory>
        requires { length bytes.now < 2 ^ 62 }
        ensures { IfOk result (λ disk. disk ≡ record {
          file = record { first = bytes.now; changes = [] };
          written = 0;
          stop = stop;
          most_calls = most_calls;
          most_bytes = most_bytes;
          calls = 0;
          failed = 0;
        }) }
    {
        Ok(MemDisk {
            tape: Tape::new(alloc, bytes, most_calls, most_bytes)?,
            stop,
            calls: 0,
            failed: 0,
        })
    }

    /// How many writes there were since the file was last attached or synced.
    pub fn pending(&self) -> u32
        ensures { result ≡ count_pending self.now.file.changes }
    {
        self.tape.pending()
    }

    /// The bytes that the file would have with the first `kept` of the pending writes alone, which a crash may leave.
    ///
    /// It answers `NoMemory` where an allocation was refused.
    pub fn image(&self, alloc: Global, kept: u32) -> Result<Vec<u8>, NoMemory>
        requires { kept ≤ count_pending self.now.file.changes }
        ensures image { IfOk result (λ bytes. bytes.items ≡ image_of kept self.now.file) }
        ensures left { IfOk result (λ bytes. MayLeave self.now.file.first self.now.file.changes bytes.items) }
    {
        self.tape.image(alloc, kept)
    }

    /// Counts a call that is to write so many bytes: one fails exactly where it is to, or there is no room for it.
    fn call(&mut self, count: usize) -> Result<(), Failed>
        ensures ok { OnOk result ((fails_next self.old count ≡ false) × (self.new ≡ record self.old { calls = counted self.old.calls })) }
        ensures err { OnErr result ((fails_next self.old count ≡ true) × (self.new ≡ failed_call self.old)) }
        ensures room { OnOk result ((length self.new.file.changes < self.new.calls) × (self.new.calls ≤ self.new.most_calls)) }
        ensures faults { self.old.failed ≤ self.new.failed }
    {
        self.calls = self.calls.saturating_add(1);
        if self.is_to_fail(count) {
            self.failed = self.failed.saturating_add(1);
            return Err(Failed);
        }
        Ok(())
    }

    /// Whether the call that was counted last, which is to write so many bytes, fails.
    fn is_to_fail(&self, count: usize) -> bool
        ensures { result ≡ fails_call self.now count }
    {
        let is_stopped = match self.stop {
            Some(stop) => stop <= self.calls,
            None => false,
        };
        is_stopped || self.tape.is_full(self.calls, count)
    }
}

impl Disk for MemDisk {
    ghost faults = { λ disk. disk.failed };

    ghost file = { λ disk. Some disk.file };

    ghost found = { λ disk name. bytes_in disk.file };

    fn attach(&mut self, _name: &str) -> Result<(), Failed>
        ensures attached { Makes (Attached (bytes_in self.old.file)) (Some self.old.file) (Some self.new.file) result }
        ensures failed { OnErr result (Rose self.old.failed self.new.failed) }
        ensures sound { OnOk result (self.new.failed ≡ self.old.failed) }
        ensures faults { self.old.failed ≤ self.new.failed }

        // It fails exactly where the call is to fail, and does nothing then.
        ensures exact { IsFailing (fails_next self.old 0) result }
        ensures after { self.new ≡ after_call self.old 0 (Attached (bytes_in self.old.file) ∷ []) }
    {
        self.call(0)?;
        self.tape.attach();
        Ok(())
    }

    fn len(&mut self) -> Result<u64, Failed>
        ensures bytes { IfOk result (λ count. count ≡ length (bytes_in self.old.file)) }
        ensures same { Some self.new.file ≡ Some self.old.file }
        ensures failed { OnErr result (Rose self.old.failed self.new.failed) }
        ensures sound { OnOk result (self.new.failed ≡ self.old.failed) }
        ensures faults { self.old.failed ≤ self.new.failed }

        // It fails exactly where the call is to fail.
        ensures exact { IsFailing (fails_next self.old 0) result }
        ensures after { self.new ≡ after_call self.old 0 [] }
    {
        self.call(0)?;
        Ok(self.tape.bytes().len() as u64)
    }

    fn read_at(&mut self, alloc: Global, at: u64, most: u32) -> Result<Vec<u8>, FileFault>
        ensures within { IfOk result (λ bytes. length bytes.items ≤ most) }
        ensures bytes { IfOk result (λ bytes. bytes.items ≡ take most (drop at (bytes_in self.old.file))) }
        ensures same { Some self.new.file ≡ Some self.old.file }
        ensures failed { IsErrOf result fault.Failed → Rose self.old.failed self.new.failed }
        ensures sound { OnOk result (self.new.failed ≡ self.old.failed) }
        ensures faults { self.old.failed ≤ self.new.failed }

        // It fails exactly where the call is to fail; else it may lack memory for the bytes.
        ensures exact { IsReadFailing (fails_next self.old 0) result }
        ensures after { self.new ≡ after_call self.old 0 [] }
    {
        if self.call(0).is_err() {
            return Err(FileFault::Failed);
        }
        Ok(bytes_from(alloc, self.tape.bytes(), at, most)?)
    }

    fn write_at(&mut self, at: u64, bytes: &[u8]) -> Result<(), Failed>
        requires { at ≤ length (bytes_in self.old.file) }
        ensures wrote { Writes at bytes.now (Some self.old.file) (Some self.new.file) result }
        ensures failed { OnErr result (Rose self.old.failed self.new.failed) }
        ensures sound { OnOk result (self.new.failed ≡ self.old.failed) }
        ensures faults { self.old.failed ≤ self.new.failed }

        // It fails exactly where the call is to fail, and writes nothing then.
        ensures exact { IsFailing (fails_next self.old (length bytes.now)) result }
        ensures after { self.new ≡ after_call self.old (length bytes.now) (Wrote at bytes.now ∷ []) }
    {
        self.call(bytes.len())?;
        self.tape.write(at, bytes);
        Ok(())
    }

    fn sync(&mut self) -> Result<(), Failed>
        ensures synced { Makes Synced (Some self.old.file) (Some self.new.file) result }
        ensures failed { OnErr result (Rose self.old.failed self.new.failed) }
        ensures sound { OnOk result (self.new.failed ≡ self.old.failed) }
        ensures faults { self.old.failed ≤ self.new.failed }

        // It fails exactly where the call is to fail, and does nothing then.
        ensures exact { IsFailing (fails_next self.old 0) result }
        ensures after { self.new ≡ after_call self.old 0 (Synced ∷ []) }
    {
        self.call(0)?;
        self.tape.sync();
        Ok(())
    }
}

/// The bytes from a place on, at most so many, in a vector of their own.
fn bytes_from(alloc: Global, bytes: &[u8], at: u64, most: u32) -> Result<Vec<u8>, NoMemory>
    ensures { IfOk result (λ found. found.items ≡ take most (drop at bytes.now)) }
{
    let from = at.min(bytes.len() as u64) as usize;
    let (_, rest) = bytes.split_at(from);
    let (found, _) = rest.split_at(rest.len().min(most as usize));
    Ok(Vec::from_slice(alloc, found)?)
}
