//! Stores on disks that stop.
ghost use Rattle.std.specs.Prelude.{◌≡◌, ◌+◌, ◌*◌, ◌<◌, ◌≤◌, ◌^◌, List, ℕ, Some, IfOk, length};
ghost use Rattle.dso_base.specs.declared.record.Txn.{Txn};
ghost use Rattle.dso_keep.specs.Keeping.{KeepStands, gate_of};

use crate::packets::{Packet, Packets};
use crate::reopened;
use case_words::{bytes_of, debugged, digits_of, first_of, number};
use dso_base::NoMemory;
use dso_keep::{Keep, KeepFault, MemDisk, create};
use dso_wire::{decode_record, decoded_can_go};
use std::alloc::Global;

/// How many packets are added at most, and how many bytes one has.
const MOST: u64 = 100;

const MOST_BYTES: usize = 1000;

/// A disk, and what the last call answered of those that made a store on it.
#[derive(Drop)]
pub struct Stopped {
    disk: MemDisk,
    answer: Result<(), KeepFault>,
}

impl Stopped {
    /// A store to which the named packets were added, on a disk that stops at a call.
    pub fn over(alloc: Global, packets: &Packets, text: &str) -> Result<Stopped, NoMemory> {
        let (stop, names) = first_of(text);
        let mut disk = disk(alloc, &[], number(stop))?;
        let answer = add_all(alloc, &mut disk, packets, names);
        Ok(Stopped { disk, answer })
    }

    /// The bytes that a read of the file gives.
    pub fn file(&self, alloc: Global) -> Result<Vec<u8>, NoMemory> {
        self.disk.image(alloc, self.disk.pending())
    }

    /// These, as text.
    pub fn bytes(&self, alloc: Global) -> Result<String, NoMemory> {
        digits_of(alloc, &self.file(alloc)?)
    }

    /// The last answer, and to what each image of the disk reopens.
    pub fn images(&self, alloc: Global) -> Result<String, NoMemory> {
        let mut text = debugged(alloc, self.answer)?;
        for kept in 0..self.disk.pending() {
            let image = self.disk.image(alloc, kept)?;
            let answer = reopened::brief(alloc, &image)?;
            text = format!(in alloc; "{text}; {answer}")?;
        }
        let answer = reopened::brief(alloc, &self.file(alloc)?)?;
        let text = format!(in alloc; "{text}; {answer}")?;
        Ok(text)
    }
}

/// A disk with these bytes, which stops at a call, but for call 0.
pub fn disk(alloc: Global, bytes: &[u8], stop: Option<u64>) -> Result<MemDisk, NoMemory> {
    let few = bytes.len().min(1 << 20);
    let stop = match stop {
        Some(0) => None,
        stop => stop,
    };
    MemDisk::new(alloc, &bytes[..few], stop, 10000, 100000)
}

/// What `create` answers on a disk with these bytes, and the bytes after it.
pub fn created(alloc: Global, digits: &str) -> Result<String, NoMemory> {
    let mut disk = disk(alloc, &bytes_of(alloc, digits)?, None)?;
    let answer = match create(&mut disk) {
        Ok(_) => Ok(()),
        Err(fault) => Err(fault),
    };
    let bytes = digits_of(alloc, &disk.image(alloc, disk.pending())?)?;
    let text = format!(in alloc; "{answer:?} {bytes}")?;
    Ok(text)
}

/// Makes a store on the disk and adds the packets to it.
fn add_all(
    alloc: Global,
    disk: &mut MemDisk,
    packets: &Packets,
    names: &str,
) -> Result<(), KeepFault> {
    let mut keep = create(disk)?;
    let mut rest = names;
    for _before in 0..MOST {
        let (name, behind) = first_of(rest);
        let Some(packet) = packets.get(name) else {
            return Ok(());
        };
        keep = added(alloc, disk, keep, packet)?;
        rest = behind;
    }
    Ok(())
}

/// Adds a packet.
fn added(alloc: Global, disk: &mut MemDisk, keep: Keep, packet: &Packet) -> Result<Keep, KeepFault>
    requires stands { (records : List (ℕ × Txn)) × KeepStands records keep (Some disk.old.file) }
    requires room { gate_of keep < 2 ^ 40 }
    ensures stands { IfOk result (λ next. (records : List (ℕ × Txn)) × KeepStands records next (Some disk.new.file)) }
    ensures gate { IfOk result (λ next. gate_of next ≤ gate_of keep + 2000) }
{
    if packet.record.len() > MOST_BYTES {
        return Ok(keep);
    }
    let Ok(txn) = decode_record(alloc, &packet.record) else {
        return Ok(keep);
    };
    decoded_can_go();
    keep.append(alloc, disk, packet.client, &txn)
}
