//! Messages as bytes (`specs/Spelling.antt`).
ghost use Rattle.std.specs.Prelude.{◌≡◌, ◌++◌, ◌↔◌, IsTrue, OnOk};
ghost use Rattle.dso_wire.specs.Cells.{bytes_of};
ghost use Rattle.dso_wire.specs.CanGo.{UpCanGo, DownCanGo};
ghost use Rattle.dso_wire.specs.Spelling.{up_cells, down_cells, IsUp, IsDown};
ghost use Rattle.dso_wire.specs.Reading.{Gives, up_at, down_at};

use crate::fault::{ReadFault, Wrong};
use crate::reading::u64_of;
use crate::writing::{Wire, put_u64};
use dso_base::{Body, Down, Items, Level, LockName, Shared, ThreadId, Txn, Up};
use std::alloc::{AllocError, Global};

impl Wire for Up {
    ghost cells = { up_cells };

    ghost reading = { up_at };

    ghost can_go = { UpCanGo };

    ghost is = { IsUp };

    fn is_encodable(&self) -> bool {
        match self {
            Up::IdAsk | Up::Fault(_) | Up::Flushed(_) | Up::Request(_, _) => true,
            Up::Return(_, threads) => threads.is_encodable(),
            Up::Commit(txn) => txn.get().is_encodable(),
        }
    }

    fn room(&self) -> usize {
        let behind = match self {
            Up::IdAsk => 0,
            Up::Fault(_) | Up::Flushed(_) => 8,
            Up::Request(lock, _) => lock.room().saturating_add(1),
            Up::Return(lock, threads) => lock.room().saturating_add(threads.room()),
            Up::Commit(txn) => txn.get().room(),
        };
        behind.saturating_add(1)
    }

    fn put(&self, bytes: &mut Vec<u8>) -> Result<(), AllocError> {
        match self {
            Up::IdAsk => {
                bytes.push(1)?;
                Ok(())
            }
            Up::Fault(object) => {
                bytes.push(2)?;
                put_u64(*object, bytes)
            }
            Up::Flushed(object) => {
                bytes.push(3)?;
                put_u64(*object, bytes)
            }
            Up::Request(lock, level) => {
                bytes.push(4)?;
                lock.put(bytes)?;
                level.put(bytes)
            }
            Up::Return(lock, threads) => {
                bytes.push(5)?;
                lock.put(bytes)?;
                threads.put(bytes)
            }
            Up::Commit(txn) => {
                bytes.push(6)?;
                txn.get().put(bytes)?;
                Ok(())
            }
        }
    }

    #[tactic(auto, unfolding(crate::specs::Reading::up_at))]
    fn take(alloc: Global, bytes: &[u8]) -> Result<(Self, &[u8]), ReadFault> {
        match bytes {
            [] => Err(ReadFault::Wrong(Wrong::Short)),
            [1, rest @ ..] => Ok((Up::IdAsk, rest)),
            [2, rest @ ..] => {
                let (object, rest) = u64_of(rest)?;
                Ok((Up::Fault(object), rest))
            }
            [3, rest @ ..] => {
                let (object, rest) = u64_of(rest)?;
                Ok((Up::Flushed(object), rest))
            }
            [4, rest @ ..] => {
                let (lock, rest) = LockName::take(alloc, rest)?;
                let (level, rest) = Level::take(alloc, rest)?;
                Ok((Up::Request(lock, level), rest))
            }
            [5, rest @ ..] => {
                let (lock, rest) = LockName::take(alloc, rest)?;
                let (threads, rest) = Items::take(alloc, rest)?;
                Ok((Up::Return(lock, threads), rest))
            }
            [6, rest @ ..] => {
                let (txn, rest) = Txn::take(alloc, rest)?;
                Ok((Up::Commit(Shared::new(alloc, txn)?), rest))
            }
            [_, ..] => Err(ReadFault::Wrong(Wrong::Tag(bytes.len()))),
        }
    }
}

impl Wire for Down {
    ghost cells = { down_cells };

    ghost reading = { down_at };

    ghost can_go = { DownCanGo };

    ghost is = { IsDown };

    fn is_encodable(&self) -> bool {
        match self {
            Down::Ids(_) | Down::Grant(_, _) | Down::Recall(_) | Down::Ack(_) => true,
            Down::Object(body) => body.get().is_encodable(),
            Down::Changes(sets) => sets.is_encodable(),
            Down::Wake(_, thread) => thread.is_encodable(),
        }
    }

    fn room(&self) -> usize {
        let behind = match self {
            Down::Ids(_) | Down::Ack(_) => 8,
            Down::Object(body) => body.get().room(),
            Down::Grant(lock, _) => lock.room().saturating_add(1),
            Down::Recall(lock) => lock.room(),
            Down::Changes(sets) => sets.room(),
            Down::Wake(lock, _) => lock.room().saturating_add(2),
        };
        behind.saturating_add(1)
    }

    fn put(&self, bytes: &mut Vec<u8>) -> Result<(), AllocError> {
        match self {
            Down::Ids(first) => {
                bytes.push(1)?;
                put_u64(*first, bytes)
            }
            Down::Object(body) => {
                bytes.push(2)?;
                body.get().put(bytes)
            }
            Down::Grant(lock, level) => {
                bytes.push(3)?;
                lock.put(bytes)?;
                level.put(bytes)
            }
            Down::Recall(lock) => {
                bytes.push(4)?;
                lock.put(bytes)
            }
            Down::Ack(number) => {
                bytes.push(5)?;
                put_u64(*number, bytes)
            }
            Down::Changes(sets) => {
                bytes.push(6)?;
                sets.put(bytes)
            }
            Down::Wake(lock, thread) => {
                bytes.push(7)?;
                lock.put(bytes)?;
                thread.put(bytes)
            }
        }
    }

    #[tactic(auto, unfolding(crate::specs::Reading::down_at))]
    fn take(alloc: Global, bytes: &[u8]) -> Result<(Self, &[u8]), ReadFault> {
        match bytes {
            [] => Err(ReadFault::Wrong(Wrong::Short)),
            [1, rest @ ..] => {
                let (first, rest) = u64_of(rest)?;
                Ok((Down::Ids(first), rest))
            }
            [2, rest @ ..] => {
                let (body, rest) = Body::take(alloc, rest)?;
                Ok((Down::Object(Shared::new(alloc, body)?), rest))
            }
            [3, rest @ ..] => {
                let (lock, rest) = LockName::take(alloc, rest)?;
                let (level, rest) = Level::take(alloc, rest)?;
                Ok((Down::Grant(lock, level), rest))
            }
            [4, rest @ ..] => {
                let (lock, rest) = LockName::take(alloc, rest)?;
                Ok((Down::Recall(lock), rest))
            }
            [5, rest @ ..] => {
                let (number, rest) = u64_of(rest)?;
                Ok((Down::Ack(number), rest))
            }
            [6, rest @ ..] => {
                let (sets, rest) = Items::take(alloc, rest)?;
                Ok((Down::Changes(sets), rest))
            }
            [7, rest @ ..] => {
                let (lock, rest) = LockName::take(alloc, rest)?;
                let (thread, rest) = ThreadId::take(alloc, rest)?;
                Ok((Down::Wake(lock, thread), rest))
            }
            [_, ..] => Err(ReadFault::Wrong(Wrong::Tag(bytes.len()))),
        }
    }
}
