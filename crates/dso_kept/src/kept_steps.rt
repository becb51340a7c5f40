//! A step of a cluster over a store: what the step applies is on the disk before the step is answered
//! (`specs/Keeping.antt`).
ghost use Rattle.std.specs.Prelude.{◌≡◌, ◌⊎◌, ◌+◌, ◌<◌, ◌≤◌, ◌^◌, ℕ, List, true, false, IfErr, IfOk, IfSome, IsErrOf, OnOk};
ghost use Rattle.std.specs.Option.{option_map};
ghost use Rattle.dso_base.specs.declared.no_memory.NoMemory.{NoMemory};
ghost use Rattle.dso_base.specs.declared.record.Txn.{Txn};
ghost use Rattle.dso_base.specs.declared.shape.Shape.{Shape};
ghost use Rattle.dso_class.specs.Sound.{IsSoundProgram};
ghost use Rattle.dso_io.specs.Environment.{Rose};
ghost use Rattle.dso_keep.specs.Crash.{CrashLeaves};
ghost use Rattle.dso_keep.specs.Keeping.{IsFromOutside, KeepStands, gate_of};
ghost use Rattle.dso_keep.specs.Records.{AllFit, opening};
ghost use Rattle.dso_keep.specs.declared.fault.KeepFault.TheVariants as fault;
ghost use Rattle.dso_legal.specs.Slots.{weight};
ghost use Rattle.dso_world.specs.WorldStands.{IsStepped, SweepsNothing, WorldStands, entries_in, is_spent, journal_of};
ghost use Rattle.dso_kept.specs.Keeping.{CanBeKept, GoesOnByOne, ReopensEither, applied, record_applied, with_one};

use dso_base::{Entry, Input, Txn, Up};
use dso_class::Program;
use dso_keep::{Disk, Keep, KeepFault};
use dso_legal::laws::records_are_light;
use dso_world::{Step, World};
use std::alloc::Global;

/// Makes the step over a store that has the records which the server of the world has applied, and answers whether it
/// added an entry. Where the entry applies a record, that is in the store before this answers, so no client can take its
/// acknowledgement before.
///
/// A crash at any moment of the call leaves a file that reopens to the records from before it, or to these and the one
/// that the step applies. The world weighs fewer than 4,000,000, so the record is short enough for the store. After `Disk`
/// and `NoMemory`, the only refusals, the keep is gone: after `Disk` the world has the step's entry, after `NoMemory` it
/// has that entry or is spent.
pub fn kept_step<D: Disk>(
    alloc: Global,
    program: &Program,
    world: &mut World,
    keep: Keep,
    disk: &mut D,
    step: Step,
) -> Result<(bool, Keep), KeepFault>
    requires sound { IsSoundProgram program.now }
    requires stands { WorldStands program.now world.old }
    requires weight { weight (entries_in world.old) < 4000000 }
    requires keeps { KeepStands (applied (entries_in world.old)) keep (D.file disk.old) }
    requires room { gate_of keep + 2 ^ 32 + 6 < 2 ^ 63 }
    ensures stands { WorldStands program.now world.new }
    ensures stepped { IfOk result (λ made. IsStepped program.now step made.0 world.old world.new) }
    ensures swept { OnOk result (SweepsNothing program.now world.old world.new) }
    ensures whole { OnOk result (is_spent world.new ≡ false) }
    ensures keeps { IfOk result (λ made. KeepStands (applied (entries_in world.new)) made.1 (D.file disk.new)) }
    ensures gate { IfOk result (λ made. gate_of made.1 ≤ gate_of keep + 2 ^ 32 + 4) }
    ensures disk_failed { IsErrOf result fault.Disk → IsStepped program.now step true world.old world.new × (is_spent world.new ≡ false) }
    ensures no_memory { (refused : NoMemory) → IsErrOf result (fault.NoMemory refused) → IsStepped program.now step true world.old world.new
        ⊎ ((is_spent world.new ≡ true) × (journal_of world.new ≡ journal_of world.old)) }
    ensures refusals { IfErr result IsFromOutside }
    ensures failed { IsErrOf result fault.Disk → Rose (D.faults disk.old) (D.faults disk.new) }
    ensures sound { OnOk result (D.faults disk.new ≡ D.faults disk.old) }
    ensures faults { D.faults disk.old ≤ D.faults disk.new }

    // A crash at any moment of the call leaves the records that were applied before it, or those that are after it; these
    // are the same, or one more.
    ensures one { GoesOnByOne (applied (entries_in world.old)) (applied (entries_in world.new)) }
    ensures crash { CrashLeaves (ReopensEither program.now.code.shape (applied (entries_in world.old)) (applied (entries_in world.new)))
        (D.file disk.old) (D.file disk.new) }
{
    records_are_light();
    if !world.step(alloc, program, step)? {
        return Ok((false, keep));
    }
    let Some(entry) = world.last() else {
        unreachable!()
    };
    let keep = keep_entry(alloc, keep, disk, entry)?;
    Ok((true, keep))
}

/// Adds to the store the record that an entry applies, if it applies one.
fn keep_entry<D: Disk>(
    alloc: Global,
    keep: Keep,
    disk: &mut D,
    entry: &Entry,
) -> Result<Keep, KeepFault>
    requires stands { (records : List (ℕ × Txn)) × KeepStands records keep (D.file disk.old) }
    requires can_be { IfSome (record_applied entry.now) CanBeKept }
    requires room { gate_of keep + 2 ^ 32 + 6 < 2 ^ 63 }
    ensures added { (records : List (ℕ × Txn)) → KeepStands records keep (D.file disk.old)
        → IfOk result (λ kept. KeepStands (with_one (record_applied entry.now) records) kept (D.file disk.new)) }
    ensures gate { IfOk result (λ kept. gate_of kept ≤ gate_of keep + 2 ^ 32 + 4) }
    ensures crash { (shape : Shape) (records : List (ℕ × Txn)) → KeepStands records keep (D.file disk.old) → AllFit shape (opening shape) records
        → AllFit shape (opening shape) (with_one (record_applied entry.now) records)
        → CrashLeaves (ReopensEither shape records (with_one (record_applied entry.now) records)) (D.file disk.old) (D.file disk.new) }
    ensures refusals { IfErr result IsFromOutside }
    ensures failed { IsErrOf result fault.Disk → Rose (D.faults disk.old) (D.faults disk.new) }
    ensures sound { OnOk result (D.faults disk.new ≡ D.faults disk.old) }
    ensures faults { D.faults disk.old ≤ D.faults disk.new }
{
    match record_applied(entry) {
        Some((client, txn)) => keep.append(alloc, disk, client, txn),
        None => Ok(keep),
    }
}

/// The record that an entry applies, if it applies one: that which it takes of a client and answers.
fn record_applied(entry: &Entry) -> Option<(u8, &Txn)>
    ensures { option_map (λ r. (r.0, r.1.now)) result ≡ record_applied entry.now }
{
    if entry.sent.is_empty() {
        return None;
    }
    match &entry.input {
        Input::TookUp(client, Up::Commit(txn)) => Some((*client, txn.get())),
        _ => None,
    }
}
