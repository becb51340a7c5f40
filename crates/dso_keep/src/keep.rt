//! A store of records: made, and added to (`specs/Packets.antt`, `specs/Keeping.antt`).
ghost use Rattle.std.specs.Prelude.{◌≡◌, ◌⊎◌, ◌+◌, ◌<◌, ◌≤◌, ◌^◌, ◌++◌, [], ◌∷◌, List, ℕ, length, IfErr, IfOk, IfSome, OnOk, OnErr, IsErrOf};
ghost use Rattle.dso_base.specs.declared.record.Txn.{Txn};
ghost use Rattle.dso_base.specs.declared.shape.Shape.{Shape};
ghost use Rattle.dso_io.specs.Environment.{Rose};
ghost use Rattle.dso_wire.specs.CanGo.{RecordCanGo};
ghost use Rattle.dso_wire.specs.Spelling.{IsRecord};
ghost use Rattle.dso_keep.specs.Crash.{CrashLeaves};
ghost use Rattle.dso_keep.specs.Disk.{bytes_in};
ghost use Rattle.dso_keep.specs.Keeping.{HoldsOldOrNew, IsInUse, KeepStands, IsFromOutside, RefusesCreate, ReopensOldOrNew, gate_of};
ghost use Rattle.dso_keep.specs.Packets.{IsKept, IsShort, IsStaged, IsUnused, ReadsAs, file_of, sized};
ghost use Rattle.dso_keep.specs.Records.{AllFit, HoldsRecords, Reopens, opening, packet_of};
ghost use Rattle.dso_keep.specs.declared.fault.KeepFault.TheVariants as fault;

use crate::{Disk, KeepFault};
use dso_base::{NoMemory, Txn};
use dso_io::Failed;
use dso_wire::encode_record;
use std::alloc::Global;

/// A store that is added to: where its next gate is.
///
/// Contracts say of which records it is a keep, and over which file.
#[derive(Drop)]
pub struct Keep {
    gate: u64,
}

/// Makes a store with no record in a file of at most one byte: writes the first gate, closed, and syncs.
///
/// `NotEmpty` tells the length of a longer file, to which nothing was done. After `Disk` a crash leaves no record either.
pub fn create<D: Disk>(disk: &mut D) -> Result<Keep, KeepFault>
    ensures created { IfOk result (λ keep. KeepStands [] keep (D.file disk.new)) }
    ensures short { OnOk result (IsShort (D.file disk.old)) }
    ensures in_use { (count : ℕ) → IsErrOf result (fault.NotEmpty count) → IsInUse count (D.file disk.old) (D.file disk.new) }

    // A crash at any moment of the call leaves no record, where the file had at most one byte and no write was pending.
    ensures crash { IsUnused (D.file disk.old) → CrashLeaves (λ left. HoldsRecords left []) (D.file disk.old) (D.file disk.new) }
    ensures refusals { IfErr result RefusesCreate }
    ensures failed { IsErrOf result fault.Disk → Rose (D.faults disk.old) (D.faults disk.new) }
    ensures sound { OnOk result (D.faults disk.new ≡ D.faults disk.old) }
    ensures faults { D.faults disk.old ≤ D.faults disk.new }
{
    let Ok(count) = disk.len() else {
        return Err(KeepFault::Disk);
    };
    if count > 1 {
        return Err(KeepFault::NotEmpty(count));
    }
    match write_first(disk) {
        Ok(()) => Ok(Keep { gate: 0 }),
        Err(_) => Err(KeepFault::Disk),
    }
}

/// Writes the first gate, closed, and syncs.
fn write_first<D: Disk>(disk: &mut D) -> Result<(), Failed>
    ensures written { IsShort (D.file disk.old) → OnOk result (IsKept (file_of []) (D.file disk.new)) }
    ensures crash { IsUnused (D.file disk.old) → CrashLeaves (λ left. HoldsRecords left []) (D.file disk.old) (D.file disk.new) }
    ensures failed { OnErr result (Rose (D.faults disk.old) (D.faults disk.new)) }
    ensures sound { OnOk result (D.faults disk.new ≡ D.faults disk.old) }
    ensures faults { D.faults disk.old ≤ D.faults disk.new }
{
    disk.write_at(0, &[0])?;
    disk.sync()
}

impl Keep {
    /// Adds a client's record. From the answer on each crash leaves a file that has it.
    ///
    /// The record is one that has bytes, fewer than 2^32 with its client's, and there is room behind the file. It is two
    /// writes, each with a sync: the record with its length and the next gate, closed, and then its own gate. After
    /// `Disk` and `NoMemory`, the only refusals, the keep is gone and the file is to be reopened: it has the record or not.
    pub fn append<D: Disk>(
        self,
        alloc: Global,
        disk: &mut D,
        client: u8,
        txn: &Txn,
    ) -> Result<Keep, KeepFault>
        requires stands { (records : List (ℕ × Txn)) × KeepStands records self (D.file disk.old) }
        requires can_go { RecordCanGo txn.now }
        requires short { length (packet_of (client, txn.now)) < 2 ^ 32 }
        requires room { self.gate + 6 + length (packet_of (client, txn.now)) < 2 ^ 63 }
        ensures added { (records : List (ℕ × Txn)) → KeepStands records self (D.file disk.old)
            → IfOk result (λ keep. KeepStands (records ++ (client, txn.now) ∷ []) keep (D.file disk.new)) }
        ensures gate { IfOk result (λ keep. gate_of keep ≡ self.gate + 5 + length (packet_of (client, txn.now))) }

        // A crash at any moment of the call leaves a file that has the records from before it, or these and the new one;
        // where they fit, it reopens to them.
        ensures crash { (records : List (ℕ × Txn)) → KeepStands records self (D.file disk.old)
            → CrashLeaves (HoldsOldOrNew records (client, txn.now)) (D.file disk.old) (D.file disk.new) }
        ensures reopens { (shape : Shape) (records : List (ℕ × Txn)) → KeepStands records self (D.file disk.old)
            → AllFit shape (opening shape) records → AllFit shape (opening shape) (records ++ (client, txn.now) ∷ [])
            → CrashLeaves (ReopensOldOrNew shape records (client, txn.now)) (D.file disk.old) (D.file disk.new) }
        ensures refusals { IfErr result IsFromOutside }
        ensures failed { IsErrOf result fault.Disk → Rose (D.faults disk.old) (D.faults disk.new) }
        ensures sound { OnOk result (D.faults disk.new ≡ D.faults disk.old) }
        ensures faults { D.faults disk.old ≤ D.faults disk.new }
    {
        let packet = packet_for(alloc, client, txn)?;
        let bytes = staged(alloc, packet.as_slice())?;
        match open_behind(disk, self.gate, bytes.as_slice()) {
            Ok(()) => Ok(Keep {
                gate: self.gate + 5 + packet.len() as u64,
            }),
            Err(_) => Err(KeepFault::Disk),
        }
    }
}

/// The byte of a client, and the bytes of its record.
fn packet_for(alloc: Global, client: u8, txn: &Txn) -> Result<Vec<u8>, NoMemory>
    requires { RecordCanGo txn.now }
    ensures bytes { IfOk result (λ packet. packet.items ≡ packet_of (client, txn.now)) }
    ensures is { OnOk result (IsRecord txn.now) }
{
    let record = encode_record(alloc, txn)?;
    let mut packet = Vec::new(alloc);
    packet.push(client)?;
    packet.extend_from_slice(record.as_slice())?;
    Ok(packet)
}

/// The length of a packet, the packet, and the closed gate behind it.
fn staged(alloc: Global, packet: &[u8]) -> Result<Vec<u8>, NoMemory>
    requires { length packet.now < 2 ^ 32 }
    ensures { IfOk result (λ bytes. bytes.items ≡ sized packet.now ++ 0 ∷ []) }
{
    let mut bytes = Vec::new(alloc);
    bytes.extend_from_slice(&(packet.len() as u32).to_be_bytes())?;
    bytes.extend_from_slice(packet)?;
    bytes.push(0)?;
    Ok(bytes)
}

/// Writes bytes behind a closed gate, and opens it: first these are on the disk, then the gate is.
fn open_behind<D: Disk>(disk: &mut D, gate: u64, bytes: &[u8]) -> Result<(), Failed>
    requires room { gate + 1 < 2 ^ 63 }
    requires kept { (front : List ℕ) × (gate ≡ length front) × IsKept (front ++ 0 ∷ []) (D.file disk.old) }
    ensures opened { (front : List ℕ) → gate ≡ length front → IsKept (front ++ 0 ∷ []) (D.file disk.old)
        → OnOk result (IsKept (front ++ 1 ∷ bytes.now) (D.file disk.new)) }
    ensures crash { (front : List ℕ) → gate ≡ length front → IsKept (front ++ 0 ∷ []) (D.file disk.old)
        → CrashLeaves (IsStaged front bytes.now) (D.file disk.old) (D.file disk.new) }
    ensures failed { OnErr result (Rose (D.faults disk.old) (D.faults disk.new)) }
    ensures sound { OnOk result (D.faults disk.new ≡ D.faults disk.old) }
    ensures faults { D.faults disk.old ≤ D.faults disk.new }
{
    disk.write_at(gate + 1, bytes)?;
    disk.sync()?;
    disk.write_at(gate, &[1])?;
    disk.sync()
}
