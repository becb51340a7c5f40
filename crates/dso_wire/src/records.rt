//! Records as bytes (`specs/Spelling.antt`).
ghost use Rattle.std.specs.Prelude.{◌≡◌, ◌++◌, ◌↔◌, IsTrue, OnOk};
ghost use Rattle.dso_wire.specs.Cells.{bytes_of};
ghost use Rattle.dso_wire.specs.CanGo.{RecordCanGo};
ghost use Rattle.dso_wire.specs.Spelling.{record_cells, IsRecord};
ghost use Rattle.dso_wire.specs.Reading.{Gives, record_at};

use crate::fault::ReadFault;
use crate::reading::u64_of;
use crate::writing::{Wire, put_u64};
use dso_base::{Ending, Items, ThreadId, Txn};
use std::alloc::{AllocError, Global};

impl Wire for Txn {
    ghost cells = { record_cells };

    ghost reading = { record_at };

    ghost can_go = { RecordCanGo };

    ghost is = { IsRecord };

    fn is_encodable(&self) -> bool {
        self.thread.is_encodable()
            && self.news.is_encodable()
            && self.sets.is_encodable()
            && self.outs.is_encodable()
            && self.notes.is_encodable()
    }

    fn room(&self) -> usize {
        let parts = [
            self.news.room(),
            self.sets.room(),
            self.outs.room(),
            self.notes.room(),
            self.ending.room(),
        ];
        let mut room = 10usize;
        for part in parts {
            room = room.saturating_add(part);
        }
        room
    }

    fn put(&self, bytes: &mut Vec<u8>) -> Result<(), AllocError> {
        put_u64(self.seq, bytes)?;
        self.thread.put(bytes)?;
        self.news.put(bytes)?;
        self.sets.put(bytes)?;
        self.outs.put(bytes)?;
        self.notes.put(bytes)?;
        self.ending.put(bytes)?;
        Ok(())
    }

    #[tactic(auto, unfolding(crate::specs::Reading::record_at))]
    fn take(alloc: Global, bytes: &[u8]) -> Result<(Self, &[u8]), ReadFault> {
        let (seq, rest) = u64_of(bytes)?;
        let (thread, rest) = ThreadId::take(alloc, rest)?;
        let (news, rest) = Items::take(alloc, rest)?;
        let (sets, rest) = Items::take(alloc, rest)?;
        let (outs, rest) = Items::take(alloc, rest)?;
        let (notes, rest) = Items::take(alloc, rest)?;
        let (ending, rest) = Ending::take(alloc, rest)?;
        let txn = Txn {
            seq,
            thread,
            news,
            sets,
            outs,
            notes,
            ending,
        };
        Ok((txn, rest))
    }
}
