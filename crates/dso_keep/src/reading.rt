//! A store's file, read from the front (`specs/Reading.antt`).
ghost use Rattle.std.specs.Prelude.{◌≡◌, ◌≢◌, ◌↔◌, None, ◌+◌, ◌<◌, ◌≤◌, ◌^◌, List, ℕ, length, map, take, drop, true, false, IfOk, IfErr, IfSome, OnOk, OnErr, IsErrOf, Ok};
ghost use Rattle.std.specs.Option.{option_map};
ghost use Rattle.std.specs.Int.{to_be_bytes, w32};
ghost use Rattle.dso_io.specs.Environment.{Rose};
ghost use Rattle.dso_keep.specs.Disk.{bytes_in};
ghost use Rattle.dso_keep.specs.Keeping.{IsFromOutside, RefusesReopen};
ghost use Rattle.dso_keep.specs.Packets.{IsShut};
ghost use Rattle.dso_keep.specs.Reading.{IsBadHere, IsPacketAt, IsWhole, StandBefore, graph_in, is_open_at};
ghost use Rattle.dso_keep.specs.Records.{IsBadAt, Reopens, graph_after, opening};
ghost use Rattle.dso_keep.specs.declared.fault.KeepFault.TheVariants as fault;

use crate::{Disk, KeepFault, Kept};
use dso_base::Shape;
use std::alloc::Global;

/// A file that is read: how many bytes it has, the place of the next gate, and what was read in front of it.
#[derive(Drop)]
struct Reading {
    count: u64,
    at: u64,
    kept: Kept,
}

/// The records of a store's file and the graph that they leave. It writes nothing.
///
/// A file of at most one byte has none. `BadRecord` tells the place of an open gate that is followed by no whole record
/// that fits those before it; after `Disk` and `NoMemory` nothing is told.
pub fn reopen<D: Disk>(alloc: Global, shape: &Shape, disk: &mut D) -> Result<Kept, KeepFault>
    ensures same { D.file disk.new ≡ D.file disk.old }
    ensures records { IfOk result (λ kept. IfSome (D.file disk.old) (λ f. Reopens shape.now (bytes_in f) kept.records.items)) }
    ensures graph { IfOk result (λ kept. graph_in kept.store ≡ graph_after (opening shape.now) kept.records.items) }
    ensures bad { (place : ℕ) → IsErrOf result (fault.BadRecord place) → IfSome (D.file disk.old) (λ f. IsBadAt shape.now (bytes_in f) place) }

    // Each record fits those before it also where the disk doesn't tell its bytes.
    ensures whole { IfOk result (IsWhole shape.now) }
    ensures refusals { IfErr result RefusesReopen }
    ensures failed { IsErrOf result fault.Disk → Rose (D.faults disk.old) (D.faults disk.new) }
    ensures sound { OnOk result (D.faults disk.new ≡ D.faults disk.old) }
    ensures faults { D.faults disk.old ≤ D.faults disk.new }
{
    let count = length(disk)?;
    if count > 1 {
        records_of(alloc, shape, disk, count)
    } else {
        Ok(Kept::new(alloc, shape)?)
    }
}

/// The records of a file of so many bytes, more than one.
fn records_of<D: Disk>(
    alloc: Global,
    shape: &Shape,
    disk: &mut D,
    count: u64,
) -> Result<Kept, KeepFault>
    requires long { 1 < count }
    requires size { IfSome (D.file disk.old) (λ f. count ≡ length (bytes_in f)) }
    ensures same { D.file disk.new ≡ D.file disk.old }
    ensures records { IfOk result (λ kept. IfSome (D.file disk.old) (λ f. Reopens shape.now (bytes_in f) kept.records.items)) }
    ensures whole { IfOk result (IsWhole shape.now) }
    ensures bad { (place : ℕ) → IsErrOf result (fault.BadRecord place) → IfSome (D.file disk.old) (λ f. IsBadAt shape.now (bytes_in f) place) }
    ensures refusals { IfErr result RefusesReopen }
    ensures failed { IsErrOf result fault.Disk → Rose (D.faults disk.old) (D.faults disk.new) }
    ensures sound { OnOk result (D.faults disk.new ≡ D.faults disk.old) }
    ensures faults { D.faults disk.old ≤ D.faults disk.new }
{
    let kept = Kept::new(alloc, shape)?;
    let mut reading = Reading { count, at: 0, kept };
    while add_next(alloc, shape, disk, &mut reading)? {}
    Ok(reading.kept)
}

/// Adds the record behind the next gate, where that is open, and goes to the gate behind it; answers whether it was.
fn add_next<D: Disk>(
    alloc: Global,
    shape: &Shape,
    disk: &mut D,
    reading: &mut Reading,
) -> Result<bool, KeepFault>
    requires within { reading.old.at ≤ reading.old.count }
    requires whole { IsWhole shape.now reading.old.kept }
    ensures same { D.file disk.new ≡ D.file disk.old }
    ensures count { OnOk result (reading.new.count ≡ reading.old.count) }
    ensures within { OnOk result (reading.new.at ≤ reading.new.count) }
    ensures further { result ≡ Ok true → reading.old.at < reading.new.at }
    ensures whole { OnOk result (IsWhole shape.now reading.new.kept) }
    ensures added { result ≡ Ok true → IfSome (D.file disk.old) (λ f. reading.old.count ≡ length (bytes_in f)
        → StandBefore reading.old.kept.records.items reading.old.at (bytes_in f) → StandBefore reading.new.kept.records.items reading.new.at (bytes_in f)) }
    ensures stays { result ≡ Ok false → reading.new ≡ reading.old }
    ensures shut { result ≡ Ok false → IfSome (D.file disk.old) (λ f. reading.old.count ≡ length (bytes_in f) → IsShut (drop reading.old.at (bytes_in f))) }
    ensures bad { (place : ℕ) → IsErrOf result (fault.BadRecord place) → (place ≡ reading.old.at)
        × IfSome (D.file disk.old) (λ f. reading.old.count ≡ length (bytes_in f) → IsBadHere shape.now reading.old.kept (drop reading.old.at (bytes_in f))) }
    ensures refusals { IfErr result RefusesReopen }
    ensures failed { IsErrOf result fault.Disk → Rose (D.faults disk.old) (D.faults disk.new) }
    ensures sound { OnOk result (D.faults disk.new ≡ D.faults disk.old) }
    ensures faults { D.faults disk.old ≤ D.faults disk.new }
{
    let at = reading.at;
    if at == reading.count || !is_open(alloc, disk, at)? {
        return Ok(false);
    }
    let Some(packet) = packet_behind(alloc, disk, at, reading.count)? else {
        return Err(KeepFault::BadRecord(at));
    };
    if !reading.kept.add(alloc, shape, packet.as_slice())? {
        return Err(KeepFault::BadRecord(at));
    }
    reading.at = at + 5 + packet.len() as u64;
    Ok(true)
}

/// How many bytes the file has.
fn length<D: Disk>(disk: &mut D) -> Result<u64, KeepFault>
    ensures same { D.file disk.new ≡ D.file disk.old }
    ensures count { IfOk result (λ count. IfSome (D.file disk.old) (λ f. count ≡ length (bytes_in f))) }
    ensures refusals { IfErr result (λ other. other ≡ fault.Disk) }
    ensures failed { OnErr result (Rose (D.faults disk.old) (D.faults disk.new)) }
    ensures sound { OnOk result (D.faults disk.new ≡ D.faults disk.old) }
    ensures faults { D.faults disk.old ≤ D.faults disk.new }
{
    match disk.len() {
        Ok(count) => Ok(count),
        Err(_) => Err(KeepFault::Disk),
    }
}

/// The bytes from a place on, at most so many.
fn bytes_at<D: Disk>(alloc: Global, disk: &mut D, at: u64, most: u32) -> Result<Vec<u8>, KeepFault>
    ensures same { D.file disk.new ≡ D.file disk.old }
    ensures within { IfOk result (λ bytes. length bytes.items ≤ most) }
    ensures bytes { IfOk result (λ bytes. IfSome (D.file disk.old) (λ f. bytes.items ≡ take most (drop at (bytes_in f)))) }
    ensures refusals { IfErr result IsFromOutside }
    ensures failed { IsErrOf result fault.Disk → Rose (D.faults disk.old) (D.faults disk.new) }
    ensures sound { OnOk result (D.faults disk.new ≡ D.faults disk.old) }
    ensures faults { D.faults disk.old ≤ D.faults disk.new }
{
    Ok(disk.read_at(alloc, at, most)?)
}

/// Whether an open gate stands at a place.
fn is_open<D: Disk>(alloc: Global, disk: &mut D, at: u64) -> Result<bool, KeepFault>
    ensures same { D.file disk.new ≡ D.file disk.old }
    ensures open { IfOk result (λ gate. IfSome (D.file disk.old) (λ f. gate ≡ is_open_at (drop at (bytes_in f)))) }
    ensures refusals { IfErr result IsFromOutside }
    ensures failed { IsErrOf result fault.Disk → Rose (D.faults disk.old) (D.faults disk.new) }
    ensures sound { OnOk result (D.faults disk.new ≡ D.faults disk.old) }
    ensures faults { D.faults disk.old ≤ D.faults disk.new }
{
    let gate = bytes_at(alloc, disk, at, 1)?;
    Ok(matches!(gate.as_slice(), [1, ..]))
}

/// The whole packet behind an open gate, None where there is none.
fn packet_behind<D: Disk>(
    alloc: Global,
    disk: &mut D,
    at: u64,
    count: u64,
) -> Result<Option<Vec<u8>>, KeepFault>
    requires { at < count }
    ensures same { D.file disk.new ≡ D.file disk.old }
    ensures packet { IfOk result (λ found. IsPacketAt at count (D.file disk.old) (option_map (λ packet. packet.items) found)) }
    ensures refusals { IfErr result IsFromOutside }
    ensures failed { IsErrOf result fault.Disk → Rose (D.faults disk.old) (D.faults disk.new) }
    ensures sound { OnOk result (D.faults disk.new ≡ D.faults disk.old) }
    ensures faults { D.faults disk.old ≤ D.faults disk.new }
{
    let left = count - at;
    if left < 5 {
        return Ok(None);
    }
    let head = bytes_at(alloc, disk, at + 1, 4)?;
    let Some(size) = size_of(head.as_slice()) else {
        return Ok(None);
    };
    if left - 5 < size as u64 {
        return Ok(None);
    }
    let packet = bytes_at(alloc, disk, at + 5, size)?;
    if packet.len() < size as usize {
        return Ok(None);
    }
    Ok(Some(packet))
}

/// A number in four bytes, None where there are not four.
fn size_of(head: &[u8]) -> Option<u32>
    ensures some { IfSome result (λ size. (size < 2 ^ 32) × (head.now ≡ to_be_bytes w32 size)) }
    ensures none { result ≡ None → length head.now ≢ 4 }
{
    match head {
        [a, b, c, d] => Some(u32::from_be_bytes([*a, *b, *c, *d])),
        _ => None,
    }
}
