//! What a store holds: its records, and the graph that they leave (`specs/Reading.antt`).
ghost use Rattle.std.specs.Prelude.{◌≡◌, ◌<◌, ◌^◌, [], length, true, false, IfOk, Ok};
ghost use Rattle.dso_keep.specs.Reading.{Adds, IsRecordIn, IsWhole, NoneFits};

use crate::fitting::fits_graph;
use dso_base::{NoMemory, Shape, Txn};
use dso_store::Store;
use dso_wire::{WireFault, decode_record, one_frame};
use std::alloc::Global;

/// The records of a store, each with its client before it, in their order, and the graph that they leave.
#[derive(Drop)]
pub struct Kept {
    pub records: Vec<(u8, Txn)>,
    pub store: Store,
}

impl Kept {
    /// No record, and the graph before any.
    pub(crate) fn new(alloc: Global, shape: &Shape) -> Result<Kept, NoMemory>
        ensures whole { IfOk result (λ kept. IsWhole shape.now kept) }
        ensures none { IfOk result (λ kept. kept.records.items ≡ []) }
    {
        let store = Store::new(alloc, shape)?;
        Ok(Kept {
            records: Vec::new(alloc),
            store,
        })
    }

    /// Adds the record of a packet where there is one that fits, and answers whether there is.
    pub(crate) fn add(
        &mut self,
        alloc: Global,
        shape: &Shape,
        packet: &[u8],
    ) -> Result<bool, NoMemory>
        requires { length packet.now < 2 ^ 32 }
        ensures added { result ≡ Ok true → Adds shape.now packet.now self.old self.new }
        ensures none { result ≡ Ok false → NoneFits shape.now packet.now self.old }
    {
        let Some((client, txn)) = record_in(alloc, packet)? else {
            return Ok(false);
        };
        one_frame();
        if !fits_graph(&self.store, shape, client, &txn) {
            return Ok(false);
        }
        self.store.apply(alloc, client, &txn)?;
        self.records.push((client, txn))?;
        Ok(true)
    }
}

/// The record of a packet with its client, None where there is none.
fn record_in(alloc: Global, packet: &[u8]) -> Result<Option<(u8, Txn)>, NoMemory>
    requires { length packet.now < 2 ^ 32 }
    ensures { IfOk result (λ found. IsRecordIn packet.now found) }
{
    let Some((client, bytes)) = packet.split_first() else {
        return Ok(None);
    };
    match decode_record(alloc, bytes) {
        Ok(txn) => Ok(Some((*client, txn))),
        Err(WireFault::NoMemory(refused)) => Err(refused),
        Err(_) => Ok(None),
    }
}
