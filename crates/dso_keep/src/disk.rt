//! A disk as a trait, by the model of `specs/Disk.antt`.
ghost use Rattle.std.specs.Prelude.{◌≡◌, ℕ, ◌≤◌, List, length, take, drop, Option, OnOk, OnErr, IfOk, IfSome, IsErrOf};
ghost use Rattle.dso_io.specs.Environment.{Rose};
ghost use Rattle.dso_io.specs.declared.environment.FileFault.TheVariants as fault;
ghost use Rattle.dso_keep.specs.Disk.{File, Attached, Synced, Makes, Writes, bytes_in};

use dso_io::{Failed, FileFault};
use std::alloc::Global;

/// One file on a disk, which a crash may leave in another state than a read gives.
///
/// What was done to the file is told to contracts alone, where it is told: by it they say what a crash at any moment may
/// leave. The count of faults doesn't fall; it rises where a call fails, and is as before where it succeeds. A call that
/// failed did what it was asked, or nothing, or wrote any bytes in place of those that it was given.
pub trait Disk {
    /// How many calls have failed.
    ghost faults: { Self → ℕ };
    /// The file, where it is told.
    ghost file: { Self → Option File };
    /// The bytes of the file of this name, and none where there is no such file.
    ghost found: { Self → List ℕ → List ℕ };

    /// Takes the file of this name, or makes an empty one. No write is pending then.
    fn attach(&mut self, name: &str) -> Result<(), Failed>
        ensures attached { Makes (Attached (found self.old name.now)) (file self.old) (file self.new) result }
        ensures failed { OnErr result (Rose (faults self.old) (faults self.new)) }
        ensures sound { OnOk result (faults self.new ≡ faults self.old) }
        ensures faults { faults self.old ≤ faults self.new };

    /// How many bytes the file has.
    fn len(&mut self) -> Result<u64, Failed>
        ensures bytes { IfOk result (λ count. IfSome (file self.old) (λ f. count ≡ length (bytes_in f))) }
        ensures same { file self.new ≡ file self.old }
        ensures failed { OnErr result (Rose (faults self.old) (faults self.new)) }
        ensures sound { OnOk result (faults self.new ≡ faults self.old) }
        ensures faults { faults self.old ≤ faults self.new };

    /// The bytes from a place on, at most so many, up to the end of the file.
    fn read_at(&mut self, alloc: Global, at: u64, most: u32) -> Result<Vec<u8>, FileFault>
        ensures within { IfOk result (λ bytes. length bytes.items ≤ most) }
        ensures bytes { IfOk result (λ bytes. IfSome (file self.old) (λ f. bytes.items ≡ take most (drop at (bytes_in f)))) }
        ensures same { file self.new ≡ file self.old }
        ensures failed { IsErrOf result fault.Failed → Rose (faults self.old) (faults self.new) }
        ensures sound { OnOk result (faults self.new ≡ faults self.old) }
        ensures faults { faults self.old ≤ faults self.new };

    /// Writes bytes at a place within the file, over what is there and behind its end. They are pending until a sync.
    fn write_at(&mut self, at: u64, bytes: &[u8]) -> Result<(), Failed>
        requires { IfSome (file self.old) (λ f. at ≤ length (bytes_in f)) }
        ensures wrote { Writes at bytes.now (file self.old) (file self.new) result }
        ensures failed { OnErr result (Rose (faults self.old) (faults self.new)) }
        ensures sound { OnOk result (faults self.new ≡ faults self.old) }
        ensures faults { faults self.old ≤ faults self.new };

    /// Puts on the disk all that was written.
    fn sync(&mut self) -> Result<(), Failed>
        ensures synced { Makes Synced (file self.old) (file self.new) result }
        ensures failed { OnErr result (Rose (faults self.old) (faults self.new)) }
        ensures sound { OnOk result (faults self.new ≡ faults self.old) }
        ensures faults { faults self.old ≤ faults self.new };
}
