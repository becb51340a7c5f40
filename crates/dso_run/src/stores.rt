//! A run whose store is named, and a store that is shown (`specs/Stores.antt`).
ghost use Rattle.std.specs.Prelude.{◌≡◌, ◌≢◌, ◌<◌, ◌≤◌, ℕ, List, [], Some, length, IfErr, IfOk, IfSome, OnOk};
ghost use Rattle.dso_class.specs.Sound.{IsSoundProgram};
ghost use Rattle.dso_io.specs.Environment.{Rose, Told};
ghost use Rattle.dso_keep.specs.Keeping.{KeepStands};
ghost use Rattle.dso_keep.specs.Records.{HoldsRecords, IsBadAt, Reopens};
ghost use Rattle.dso_keep.specs.Reading.{IsWhole};
ghost use Rattle.dso_run.specs.declared.status.Refusal.TheVariants as refusal;
ghost use Rattle.dso_run.specs.Headline.{left_by, making_of};
ghost use Rattle.dso_run.specs.RunEnds.{BySlots};
ghost use Rattle.dso_run.specs.StoreCalls.{IsOpened, IsOpenRefused, IsShowRefused};
ghost use Rattle.dso_run.specs.Stores.{IsUnwritten, WasTaken, disk_by};
ghost use Rattle.dso_run.specs.Writing.{MeansFor};
ghost use Rattle.dso_command_line.specs.Said.{said};
ghost use Rattle.dso_command_line.specs.Words.{CanBeAsked, Show, ShowCall, journal_of, seed_of, store_of};

use crate::answers::{nothing_ran, out_of_memory, refuse, write_or_fail};
use crate::asked::Asked;
use crate::status::Refusal;
use crate::store_run::{Course, StoreRun};
use crate::{Done, Status};
use dso_base::{NoMemory, Shape};
use dso_io::{Files, Sink};
use dso_keep::{Disk, Keep, KeepFault, Kept, create, reopen};
use dso_show::store_text;
use std::alloc::Global;

impl<'a> Asked<'a> {
    /// Runs the program by slots over the store of this name, and writes what is told of the run.
    pub(crate) fn run_over_store<F: Files, K: Sink, D: Disk>(
        &self,
        name: &str,
        files: &mut F,
        out: &mut K,
        disk: &mut D,
    ) -> Done
        requires sound { IsSoundProgram self.now.program.now }
        requires asked { CanBeAsked (said self.now.command) }
        requires slots { making_of (said self.now.command) ≡ BySlots (seed_of (said self.now.command)) }
        requires named { store_of (said self.now.command) ≡ Some name.now }
        ensures answer { MeansFor (said self.now.command) self.now.program.now (F.content files.old)
            (left_by F.content F.write_faults K.taken K.faults files.old files.new out.old out.new
            (disk_by D.faults D.found D.file disk.old disk.new) result.journal.entries) result.status }
        ensures unchanged { (file : List ℕ) → journal_of (said self.now.command) ≢ Some file → F.content files.new file ≡ F.content files.old file }
    {
        let keep = match open_store(name, disk) {
            Ok(keep) => keep,
            Err(refusal) => return nothing_ran(self.alloc, refuse(refusal, out)),
        };
        let course = Course {
            alloc: self.alloc,
            program: self.program,
            schedule: self.schedule(),
        };
        match course.run(keep, disk) {
            Ok(StoreRun::Ended(run)) => self.write(run, files, out),
            Ok(StoreRun::CutOff(journal)) => Done {
                status: refuse(Refusal::Store, out),
                journal,
            },
            Err(refused) => out_of_memory(self.alloc, refused),
        }
    }

    /// Writes the graph of the store of this name. It does nothing to any file but the store's, which it takes and reads.
    pub(crate) fn show_store<K: Sink, D: Disk>(&self, name: &str, out: &mut K, disk: &mut D) -> Done
        requires sound { IsSoundProgram self.now.program.now }
        requires shown { (call : ShowCall) × (said self.now.command ≡ Show call) × (call.store ≡ name.now) }
        ensures answer { (files : (List ℕ → Told) × ℕ) → MeansFor (said self.now.command) self.now.program.now files.0
            (left_by (λ f. f.0) (λ f. f.1) K.taken K.faults files files out.old out.new
            (disk_by D.faults D.found D.file disk.old disk.new) result.journal.entries) result.status }
        ensures unwritten { IsUnwritten name.now (disk_by D.faults D.found D.file disk.old disk.new) }
    {
        let kept = match read_store(self.alloc, name, &self.program.code.shape, disk) {
            Ok(Ok(kept)) => kept,
            Ok(Err(refusal)) => return nothing_ran(self.alloc, refuse(refusal, out)),
            Err(refused) => return out_of_memory(self.alloc, refused),
        };
        match store_text(self.alloc, self.program, &kept) {
            Ok(text) => nothing_ran(
                self.alloc,
                write_or_fail(text.as_slice(), Status::Shown, out),
            ),
            Err(refused) => out_of_memory(self.alloc, refused),
        }
    }
}

/// Takes the file of a store, and makes a store with no record in it. `Store` is answered where the disk failed, `InUse`
/// where the file has more than one byte.
fn open_store<D: Disk>(name: &str, disk: &mut D) -> Result<Keep, Refusal>
    ensures opened { IfOk result (λ keep. IsOpened name.now (disk_by D.faults D.found D.file disk.old disk.new)) }
    ensures keeps { IfOk result (λ keep. KeepStands [] keep (D.file disk.new)) }
    ensures refused { IfErr result (λ refusal. IsOpenRefused name.now (disk_by D.faults D.found D.file disk.old disk.new) refusal) }
{
    let Ok(()) = disk.attach(name) else {
        return Err(Refusal::Store);
    };
    match create(disk) {
        Ok(keep) => Ok(keep),
        Err(KeepFault::NotEmpty(_)) => Err(Refusal::InUse),
        Err(KeepFault::Disk) => Err(Refusal::Store),
        Err(KeepFault::NoMemory(_) | KeepFault::BadRecord(_)) => unreachable!(),
    }
}

/// Takes the file of a store, and reads its records. `Store` is answered where the disk failed, `BadStore` where an open
/// gate is followed by no whole record that fits.
fn read_store<D: Disk>(
    alloc: Global,
    name: &str,
    shape: &Shape,
    disk: &mut D,
) -> Result<Result<Kept, Refusal>, NoMemory>
    ensures whole { IfOk result (λ read. IfOk read (IsWhole shape.now)) }
    ensures taken { IfOk result (λ read. OnOk read (WasTaken name.now (disk_by D.faults D.found D.file disk.old disk.new))) }
    ensures sound { IfOk result (λ read. OnOk read (D.faults disk.new ≡ D.faults disk.old)) }
    ensures reopens { IfOk result (λ read. IfOk read (λ kept. IfSome (D.file disk.old) (λ file. Reopens shape.now (D.found disk.old name.now) kept.records.items))) }
    ensures refused { IfOk result (λ read. IfErr read (λ refusal. IsShowRefused name.now shape.now (disk_by D.faults D.found D.file disk.old disk.new) refusal)) }
    ensures unwritten { IsUnwritten name.now (disk_by D.faults D.found D.file disk.old disk.new) }
{
    let Ok(()) = disk.attach(name) else {
        return Ok(Err(Refusal::Store));
    };
    match reopen(alloc, shape, disk) {
        Ok(kept) => Ok(Ok(kept)),
        Err(KeepFault::BadRecord(place)) => Ok(Err(Refusal::BadStore(place))),
        Err(KeepFault::Disk) => Ok(Err(Refusal::Store)),
        Err(KeepFault::NoMemory(refused)) => Err(refused),
        Err(KeepFault::NotEmpty(_)) => unreachable!(),
    }
}
