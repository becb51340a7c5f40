//! The outside as traits: files and a sink, by `specs/Environment.antt`.
ghost use Rattle.std.specs.Prelude.{◌≡◌, ◌≢◌, ℕ, ◌<◌, ◌≤◌, List, length, take, Option, OnOk, OnErr, IfOk, IsErrOf, Result};
ghost use Rattle.dso_io.specs.Environment.{counted, Told, Holds, MayGive, replaced, Rose, taken_after};

use dso_base::NoMemory;
use std::alloc::{AllocError, Global};
use thiserror::Error;

/// A sink took nothing of what it was given.
#[derive(Clone, Copy, Debug, PartialEq, Eq, Error)]
#[error("nothing could be written")]
pub struct Failed;

/// Why a file wasn't read or written.
#[derive(Clone, Copy, Debug, PartialEq, Eq, Error)]
pub enum FileFault {
    /// The files failed, and counted it.
    #[error("the file could not be read or written")]
    Failed,
    /// An allocation was refused.
    #[error("there is not enough memory for the file")]
    NoMemory(NoMemory),
}

impl From<NoMemory> for FileFault {
    ghost use Rattle.dso_io.specs.declared.environment.FileFault.TheVariants as fault;

    ghost from_gives = { λ refused e. e ≡ fault.NoMemory refused };

    fn from(refused: NoMemory) -> FileFault {
        FileFault::NoMemory(refused)
    }
}

impl From<AllocError> for FileFault {
    ghost use Rattle.dso_base.specs.declared.no_memory.NoMemory as base;
    ghost use Rattle.dso_io.specs.declared.environment.FileFault.TheVariants as fault;

    ghost from_gives = { λ _ e. (refused : base.NoMemory) × (e ≡ fault.NoMemory refused) };

    fn from(refused: AllocError) -> FileFault {
        FileFault::NoMemory(refused.into())
    }
}

/// Files by their names.
///
/// What is told of the bytes of a file is for contracts alone. Reads that failed are counted for each name, and writes
/// that failed together. No count of faults falls. A call answers `Failed` only where its count rose in it, that of the
/// name in a read, and no other count rises; where it succeeds, every count is as before.
pub trait Files {
    /// How many reads of the file of this name have failed.
    ghost read_faults: { Self → List ℕ → ℕ };
    /// How many writes have failed.
    ghost write_faults: { Self → ℕ };
    /// What is told of the file of this name.
    ghost content: { Self → List ℕ → Told };

    /// The first `most` bytes of the file, which is the whole file where it is shorter. It changes no file.
    fn read(&mut self, alloc: Global, name: &str, most: u64) -> Result<Vec<u8>, FileFault>
        ensures bytes { IfOk result (λ bytes. MayGive (content self.old name.now) most bytes.items) }
        ensures failed { IsErrOf result FileFault.Failed → Rose (read_faults self.old name.now) (read_faults self.new name.now) }
        ensures reads { (name : List ℕ) → read_faults self.old name ≤ read_faults self.new name }
        ensures others { (other : List ℕ) → other ≢ name.now → read_faults self.new other ≡ read_faults self.old other }
        ensures sound { OnOk result ((name : List ℕ) → read_faults self.new name ≡ read_faults self.old name) }
        ensures writes { write_faults self.new ≡ write_faults self.old }
        ensures unchanged { (name : List ℕ) → content self.new name ≡ content self.old name };

    /// Replaces the file by these bytes, or makes it. It changes no other file, and after an `Err` none.
    fn write(&mut self, alloc: Global, name: &str, bytes: &[u8]) -> Result<(), FileFault>
        ensures written { OnOk result (content self.new name.now ≡ replaced (content self.old name.now) bytes.now) }
        ensures others { (other : List ℕ) → other ≢ name.now → content self.new other ≡ content self.old other }
        ensures err { OnErr result (content self.new name.now ≡ content self.old name.now) }
        ensures failed { IsErrOf result FileFault.Failed → Rose (write_faults self.old) (write_faults self.new) }
        ensures sound { OnOk result (write_faults self.new ≡ write_faults self.old) }
        ensures reads { (name : List ℕ) → read_faults self.new name ≡ read_faults self.old name }
        ensures writes { write_faults self.old ≤ write_faults self.new };
}

/// What takes the bytes that are printed.
///
/// Which bytes it has taken, and what it was given, is told to contracts alone, where it is told. Its count of faults
/// doesn't fall; it rises where a put fails, and is as before where it succeeds.
pub trait Sink {
    ghost use Rattle.dso_io.specs.declared.environment.Failed.{Failed};

    /// How many calls have failed.
    ghost faults: { Self → ℕ };
    /// All bytes taken, where they are told.
    ghost taken: { Self → Option (List ℕ) };
    /// What is told of a put, by the sink before it, the bytes that it was given, its answer, and the sink after it.
    ghost puts: { Self → List ℕ → Result ℕ Failed → Self → Type 0 };

    /// Takes the first bytes of a piece and answers how many: at least one, unless the piece is empty.
    /// `Failed` says that it took none, and counted a fault.
    fn put(&mut self, bytes: &[u8]) -> Result<usize, Failed>
        ensures within { IfOk result (λ count. count ≤ length bytes.now) }
        ensures some { IfOk result (λ count. 0 < length bytes.now → 0 < count) }
        ensures taken { IfOk result (λ count. taken self.new ≡ taken_after (taken self.old) (take count bytes.now)) }
        ensures untaken { OnErr result (taken self.new ≡ taken self.old) }
        ensures failed { OnErr result (Rose (faults self.old) (faults self.new)) }
        ensures sound { OnOk result (faults self.new ≡ faults self.old) }
        ensures faults { faults self.old ≤ faults self.new }
        ensures told { puts self.old bytes.now result self.new };
}

/// A count with one more, which stops at its last value.
pub(crate) fn one_more(count: u64) -> u64
    ensures { result ≡ counted count }
{
    count.saturating_add(1)
}
