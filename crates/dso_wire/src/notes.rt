//! Notifications as bytes (`specs/Spelling.antt`).
ghost use Rattle.std.specs.Prelude.{◌≡◌, ◌++◌, ◌↔◌, IsTrue, OnOk};
ghost use Rattle.dso_wire.specs.Cells.{bytes_of};
ghost use Rattle.dso_wire.specs.CanGo.{ChoiceCanGo, NoteCanGo};
ghost use Rattle.dso_wire.specs.Spelling.{choice_cells, note_cells, IsChoice, IsNote};
ghost use Rattle.dso_wire.specs.Reading.{Gives, choice_at, note_at};

use crate::fault::{ReadFault, Wrong};
use crate::writing::Wire;
use dso_base::{Choice, LockName, Note, ThreadId};
use std::alloc::{AllocError, Global};

impl Wire for Choice {
    ghost cells = { choice_cells };

    ghost reading = { choice_at };

    ghost can_go = { ChoiceCanGo };

    ghost is = { IsChoice };

    fn is_encodable(&self) -> bool {
        match self {
            Choice::Here(thread) => thread.is_encodable(),
            Choice::There | Choice::All => true,
        }
    }

    fn room(&self) -> usize {
        match self {
            Choice::Here(_) => 3,
            Choice::There | Choice::All => 1,
        }
    }

    fn put(&self, bytes: &mut Vec<u8>) -> Result<(), AllocError> {
        match self {
            Choice::Here(thread) => {
                bytes.push(1)?;
                thread.put(bytes)
            }
            Choice::There => {
                bytes.push(2)?;
                Ok(())
            }
            Choice::All => {
                bytes.push(3)?;
                Ok(())
            }
        }
    }

    #[tactic(auto, unfolding(crate::specs::Reading::choice_at))]
    fn take(alloc: Global, bytes: &[u8]) -> Result<(Self, &[u8]), ReadFault> {
        match bytes {
            [] => Err(ReadFault::Wrong(Wrong::Short)),
            [1, rest @ ..] => {
                let (thread, rest) = ThreadId::take(alloc, rest)?;
                Ok((Choice::Here(thread), rest))
            }
            [2, rest @ ..] => Ok((Choice::There, rest)),
            [3, rest @ ..] => Ok((Choice::All, rest)),
            [_, ..] => Err(ReadFault::Wrong(Wrong::Tag(bytes.len()))),
        }
    }
}

impl Wire for Note {
    ghost cells = { note_cells };

    ghost reading = { note_at };

    ghost can_go = { NoteCanGo };

    ghost is = { IsNote };

    fn is_encodable(&self) -> bool {
        self.choice.is_encodable()
    }

    fn room(&self) -> usize {
        self.lock.room().saturating_add(self.choice.room())
    }

    fn put(&self, bytes: &mut Vec<u8>) -> Result<(), AllocError> {
        self.lock.put(bytes)?;
        self.choice.put(bytes)
    }

    #[tactic(auto, unfolding(crate::specs::Reading::note_at))]
    fn take(alloc: Global, bytes: &[u8]) -> Result<(Self, &[u8]), ReadFault> {
        let (lock, rest) = LockName::take(alloc, bytes)?;
        let (choice, rest) = Choice::take(alloc, rest)?;
        Ok((Note { lock, choice }, rest))
    }
}
