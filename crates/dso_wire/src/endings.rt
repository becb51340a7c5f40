//! How blocks end, as bytes (`specs/Spelling.antt`).
ghost use Rattle.std.specs.Prelude.{◌≡◌, ◌++◌, ◌↔◌, IsTrue, OnOk};
ghost use Rattle.dso_wire.specs.Cells.{bytes_of};
ghost use Rattle.dso_wire.specs.CanGo.{Any};
ghost use Rattle.dso_wire.specs.Spelling.{fault_cells, ending_cells, IsEnding};
ghost use Rattle.dso_wire.specs.Reading.{Gives, fault_at, ending_at};

use crate::fault::{ReadFault, Wrong};
use crate::writing::Wire;
use dso_base::{Ending, Fault, LockName};
use std::alloc::{AllocError, Global};

impl Wire for Option<Fault> {
    ghost cells = { fault_cells };

    ghost reading = { fault_at };

    ghost can_go = { Any };

    ghost is = { Any };

    fn is_encodable(&self) -> bool {
        true
    }

    fn room(&self) -> usize {
        1
    }

    fn put(&self, bytes: &mut Vec<u8>) -> Result<(), AllocError> {
        bytes.push(match self {
            None => 0,
            Some(Fault::NullPointer) => 1,
            Some(Fault::NoSuchField) => 2,
            Some(Fault::BadValue) => 3,
            Some(Fault::BadIndex) => 4,
            Some(Fault::BadSize) => 5,
            Some(Fault::ZeroDivide) => 6,
            Some(Fault::StackOverflow) => 7,
            Some(Fault::UnlockedSharedObject) => 8,
            Some(Fault::WrongLock) => 9,
            Some(Fault::ReadOnly) => 10,
            Some(Fault::LockUpgrade) => 11,
            Some(Fault::IllegalMonitor) => 12,
        })?;
        Ok(())
    }

    #[tactic(auto, unfolding(crate::specs::Reading::fault_at))]
    fn take(alloc: Global, bytes: &[u8]) -> Result<(Self, &[u8]), ReadFault> {
        let _ = alloc;
        match bytes {
            [] => Err(ReadFault::Wrong(Wrong::Short)),
            [0, rest @ ..] => Ok((None, rest)),
            [1, rest @ ..] => Ok((Some(Fault::NullPointer), rest)),
            [2, rest @ ..] => Ok((Some(Fault::NoSuchField), rest)),
            [3, rest @ ..] => Ok((Some(Fault::BadValue), rest)),
            [4, rest @ ..] => Ok((Some(Fault::BadIndex), rest)),
            [5, rest @ ..] => Ok((Some(Fault::BadSize), rest)),
            [6, rest @ ..] => Ok((Some(Fault::ZeroDivide), rest)),
            [7, rest @ ..] => Ok((Some(Fault::StackOverflow), rest)),
            [8, rest @ ..] => Ok((Some(Fault::UnlockedSharedObject), rest)),
            [9, rest @ ..] => Ok((Some(Fault::WrongLock), rest)),
            [10, rest @ ..] => Ok((Some(Fault::ReadOnly), rest)),
            [11, rest @ ..] => Ok((Some(Fault::LockUpgrade), rest)),
            [12, rest @ ..] => Ok((Some(Fault::IllegalMonitor), rest)),
            [_, ..] => Err(ReadFault::Wrong(Wrong::Range(bytes.len()))),
        }
    }
}

impl Wire for Ending {
    ghost cells = { ending_cells };

    ghost reading = { ending_at };

    ghost can_go = { Any };

    ghost is = { IsEnding };

    fn is_encodable(&self) -> bool {
        true
    }

    fn room(&self) -> usize {
        match self {
            Ending::Exit(lock) | Ending::Wait(lock) | Ending::Timeout(lock) => {
                lock.room().saturating_add(1)
            }
            Ending::End(_) => 2,
        }
    }

    fn put(&self, bytes: &mut Vec<u8>) -> Result<(), AllocError> {
        match self {
            Ending::Exit(lock) => {
                bytes.push(1)?;
                lock.put(bytes)
            }
            Ending::Wait(lock) => {
                bytes.push(2)?;
                lock.put(bytes)
            }
            Ending::End(fault) => {
                bytes.push(3)?;
                fault.put(bytes)
            }
            Ending::Timeout(lock) => {
                bytes.push(4)?;
                lock.put(bytes)
            }
        }
    }

    #[tactic(auto, unfolding(crate::specs::Reading::ending_at))]
    fn take(alloc: Global, bytes: &[u8]) -> Result<(Self, &[u8]), ReadFault> {
        match bytes {
            [] => Err(ReadFault::Wrong(Wrong::Short)),
            [1, rest @ ..] => {
                let (lock, rest) = LockName::take(alloc, rest)?;
                Ok((Ending::Exit(lock), rest))
            }
            [2, rest @ ..] => {
                let (lock, rest) = LockName::take(alloc, rest)?;
                Ok((Ending::Wait(lock), rest))
            }
            [3, rest @ ..] => {
                let (fault, rest) = <Option<Fault> as Wire>::take(alloc, rest)?;
                Ok((Ending::End(fault), rest))
            }
            [4, rest @ ..] => {
                let (lock, rest) = LockName::take(alloc, rest)?;
                Ok((Ending::Timeout(lock), rest))
            }
            [_, ..] => Err(ReadFault::Wrong(Wrong::Tag(bytes.len()))),
        }
    }
}
