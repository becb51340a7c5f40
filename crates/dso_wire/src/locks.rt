//! Locks, levels and threads as bytes (`specs/Spelling.antt`).
ghost use Rattle.std.specs.Prelude.{◌≡◌, ◌++◌, ◌↔◌, IsTrue, OnOk};
ghost use Rattle.dso_wire.specs.Cells.{bytes_of};
ghost use Rattle.dso_wire.specs.CanGo.{Any};
ghost use Rattle.dso_wire.specs.Spelling.{lock_cells, level_cells, thread_cells, IsLock, IsLevel, IsThread, IsNumber};
ghost use Rattle.dso_wire.specs.Reading.{Gives, lock_at, level_at, thread_at};

use crate::fault::{ReadFault, Wrong};
use crate::reading::{ranged_of, u32_of, u64_of};
use crate::writing::{Wire, put_u32, put_u64};
use dso_base::{Level, LockName, ThreadId};
use std::alloc::{AllocError, Global};

impl Wire for LockName {
    ghost cells = { lock_cells };

    ghost reading = { lock_at };

    ghost can_go = { Any };

    ghost is = { IsLock };

    fn is_encodable(&self) -> bool {
        true
    }

    fn room(&self) -> usize {
        match self {
            LockName::Mon(_) => 9,
            LockName::Name(_) => 5,
        }
    }

    fn put(&self, bytes: &mut Vec<u8>) -> Result<(), AllocError> {
        match self {
            LockName::Mon(object) => {
                bytes.push(1)?;
                put_u64(*object, bytes)
            }
            LockName::Name(number) => {
                bytes.push(2)?;
                put_u32(*number, bytes)
            }
        }
    }

    #[tactic(auto, unfolding(crate::specs::Reading::lock_at))]
    fn take(alloc: Global, bytes: &[u8]) -> Result<(Self, &[u8]), ReadFault> {
        let _ = alloc;
        match bytes {
            [] => Err(ReadFault::Wrong(Wrong::Short)),
            [1, rest @ ..] => {
                let (object, rest) = u64_of(rest)?;
                Ok((LockName::Mon(object), rest))
            }
            [2, rest @ ..] => {
                let (number, rest) = u32_of(rest)?;
                Ok((LockName::Name(number), rest))
            }
            [_, ..] => Err(ReadFault::Wrong(Wrong::Tag(bytes.len()))),
        }
    }
}

impl Wire for Level {
    ghost cells = { level_cells };

    ghost reading = { level_at };

    ghost can_go = { Any };

    ghost is = { IsLevel };

    fn is_encodable(&self) -> bool {
        true
    }

    fn room(&self) -> usize {
        1
    }

    fn put(&self, bytes: &mut Vec<u8>) -> Result<(), AllocError> {
        bytes.push(match self {
            Level::Read => 1,
            Level::Write => 2,
        })?;
        Ok(())
    }

    #[tactic(auto, unfolding(crate::specs::Reading::level_at))]
    fn take(alloc: Global, bytes: &[u8]) -> Result<(Self, &[u8]), ReadFault> {
        let _ = alloc;
        match bytes {
            [] => Err(ReadFault::Wrong(Wrong::Short)),
            [1, rest @ ..] => Ok((Level::Read, rest)),
            [2, rest @ ..] => Ok((Level::Write, rest)),
            [_, ..] => Err(ReadFault::Wrong(Wrong::Tag(bytes.len()))),
        }
    }
}

impl Wire for ThreadId {
    ghost cells = { thread_cells };

    ghost reading = { thread_at };

    ghost can_go = { IsThread };

    ghost is = { IsThread };

    fn is_encodable(&self) -> bool {
        is_number(self.client) && is_number(self.index)
    }

    fn room(&self) -> usize {
        2
    }

    fn put(&self, bytes: &mut Vec<u8>) -> Result<(), AllocError> {
        bytes.push(self.client)?;
        bytes.push(self.index)?;
        Ok(())
    }

    #[tactic(auto, unfolding(crate::specs::Reading::thread_at))]
    fn take(alloc: Global, bytes: &[u8]) -> Result<(Self, &[u8]), ReadFault> {
        let _ = alloc;
        let (client, rest) = ranged_of(1, 16, bytes)?;
        let (index, rest) = ranged_of(1, 16, rest)?;
        Ok((ThreadId { client, index }, rest))
    }
}

/// Whether a client, or a thread of a client, may have this number.
fn is_number(number: u8) -> bool
    ensures { IsTrue result ↔ IsNumber number }
{
    1 <= number && number <= 16
}
