//! Bytes that are one thing, all of them (`specs/Faults.antt`).
ghost use Rattle.std.specs.Prelude.{◌≡◌, ◌-◌};
ghost use Rattle.dso_wire.specs.Faults.{IsAnswer, fault_told, whole};
ghost use Rattle.dso_wire.specs.Reading.{frame_at, record_at};
ghost use Rattle.dso_wire.specs.declared.fault.WireFault.TheVariants.{Rest};

use crate::fault::{ReadFault, WireFault, Wrong};
use crate::frames::frame_of;
use crate::writing::Wire;
use dso_base::Txn;
use dso_session::Frame;
use std::alloc::Global;

/// The frame that the bytes are, all of them.
pub(crate) fn whole_frame<M: Wire + Drop>(
    alloc: Global,
    direction: u8,
    bytes: &[u8],
) -> Result<Frame<M>, WireFault>
    ensures { IsAnswer result (whole (frame_at direction M.reading) bytes.now) }
{
    match frame_of(alloc, direction, bytes) {
        Ok((frame, [])) => Ok(frame),
        Ok((_, rest)) => Err(rest_at(bytes.len(), rest.len())),
        Err(fault) => Err(told_at(bytes.len(), fault)),
    }
}

/// The record that the bytes are, all of them.
pub(crate) fn whole_record(alloc: Global, bytes: &[u8]) -> Result<Txn, WireFault>
    ensures { IsAnswer result (whole record_at bytes.now) }
{
    match Txn::take(alloc, bytes) {
        Ok((txn, [])) => Ok(txn),
        Ok((_, rest)) => Err(rest_at(bytes.len(), rest.len())),
        Err(fault) => Err(told_at(bytes.len(), fault)),
    }
}

/// More stands behind what was read, by its place in the bytes.
fn rest_at(len: usize, left: usize) -> WireFault
    ensures { result ≡ Rest (len - left) }
{
    WireFault::Rest(len.saturating_sub(left) as u64)
}

/// A fault, by its place in the bytes.
fn told_at(len: usize, fault: ReadFault) -> WireFault
    ensures { result ≡ fault_told len fault }
{
    match fault {
        ReadFault::NoMemory(refused) => WireFault::NoMemory(refused),
        ReadFault::Wrong(Wrong::Short) => WireFault::Short,
        ReadFault::Wrong(Wrong::Tag(left)) => WireFault::Tag(len.saturating_sub(left) as u64),
        ReadFault::Wrong(Wrong::Range(left)) => WireFault::Range(len.saturating_sub(left) as u64),
    }
}
