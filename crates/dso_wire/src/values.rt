//! Values and classes as bytes (`specs/Spelling.antt`).
ghost use Rattle.std.specs.Prelude.{◌≡◌, ◌++◌, ◌↔◌, IsTrue, OnOk};
ghost use Rattle.dso_wire.specs.Cells.{bytes_of};
ghost use Rattle.dso_wire.specs.CanGo.{Any};
ghost use Rattle.dso_wire.specs.Spelling.{truth_cells, value_cells, kind_cells, class_cells, IsValue, IsClass};
ghost use Rattle.dso_wire.specs.Reading.{Gives, truth_at, value_at, kind_at, class_at};

use crate::fault::{ReadFault, Wrong};
use crate::reading::{u32_of, u64_of};
use crate::writing::{Wire, put_i64, put_u32, put_u64};
use dso_base::{ClassId, Kind, Value};
use std::alloc::{AllocError, Global};

impl Wire for bool {
    ghost cells = { truth_cells };

    ghost reading = { truth_at };

    ghost can_go = { Any };

    ghost is = { Any };

    fn is_encodable(&self) -> bool {
        true
    }

    fn room(&self) -> usize {
        1
    }

    fn put(&self, bytes: &mut Vec<u8>) -> Result<(), AllocError> {
        bytes.push(if *self { 1 } else { 0 })?;
        Ok(())
    }

    #[tactic(auto, unfolding(crate::specs::Reading::truth_at))]
    fn take(alloc: Global, bytes: &[u8]) -> Result<(Self, &[u8]), ReadFault> {
        let _ = alloc;
        match bytes {
            [] => Err(ReadFault::Wrong(Wrong::Short)),
            [0, rest @ ..] => Ok((false, rest)),
            [1, rest @ ..] => Ok((true, rest)),
            [_, ..] => Err(ReadFault::Wrong(Wrong::Range(bytes.len()))),
        }
    }
}

impl Wire for Value {
    ghost cells = { value_cells };

    ghost reading = { value_at };

    ghost can_go = { Any };

    ghost is = { IsValue };

    fn is_encodable(&self) -> bool {
        true
    }

    fn room(&self) -> usize {
        match self {
            Value::Null => 1,
            Value::Bool(_) => 2,
            Value::Text(_) => 5,
            Value::Long(_) | Value::Ref(_) => 9,
        }
    }

    fn put(&self, bytes: &mut Vec<u8>) -> Result<(), AllocError> {
        match self {
            Value::Null => bytes.push(0)?,
            Value::Long(n) => {
                bytes.push(1)?;
                put_i64(*n, bytes)?;
            }
            Value::Bool(truth) => {
                bytes.push(2)?;
                truth.put(bytes)?;
            }
            Value::Text(text) => {
                bytes.push(3)?;
                put_u32(*text, bytes)?;
            }
            Value::Ref(object) => {
                bytes.push(4)?;
                put_u64(*object, bytes)?;
            }
        }
        Ok(())
    }

    #[tactic(auto, unfolding(crate::specs::Reading::value_at))]
    fn take(alloc: Global, bytes: &[u8]) -> Result<(Self, &[u8]), ReadFault> {
        match bytes {
            [] => Err(ReadFault::Wrong(Wrong::Short)),
            [0, rest @ ..] => Ok((Value::Null, rest)),
            [1, rest @ ..] => {
                let (bits, rest) = u64_of(rest)?;
                Ok((Value::Long(bits.cast_signed()), rest))
            }
            [2, rest @ ..] => {
                let (truth, rest) = bool::take(alloc, rest)?;
                Ok((Value::Bool(truth), rest))
            }
            [3, rest @ ..] => {
                let (text, rest) = u32_of(rest)?;
                Ok((Value::Text(text), rest))
            }
            [4, rest @ ..] => {
                let (object, rest) = u64_of(rest)?;
                Ok((Value::Ref(object), rest))
            }
            [_, ..] => Err(ReadFault::Wrong(Wrong::Tag(bytes.len()))),
        }
    }
}

impl Wire for Kind {
    ghost cells = { kind_cells };

    ghost reading = { kind_at };

    ghost can_go = { Any };

    ghost is = { Any };

    fn is_encodable(&self) -> bool {
        true
    }

    fn room(&self) -> usize {
        1
    }

    fn put(&self, bytes: &mut Vec<u8>) -> Result<(), AllocError> {
        bytes.push(match self {
            Kind::Long => 1,
            Kind::Bool => 2,
            Kind::Text => 3,
            Kind::Ref => 4,
        })?;
        Ok(())
    }

    #[tactic(auto, unfolding(crate::specs::Reading::kind_at))]
    fn take(alloc: Global, bytes: &[u8]) -> Result<(Self, &[u8]), ReadFault> {
        let _ = alloc;
        match bytes {
            [] => Err(ReadFault::Wrong(Wrong::Short)),
            [1, rest @ ..] => Ok((Kind::Long, rest)),
            [2, rest @ ..] => Ok((Kind::Bool, rest)),
            [3, rest @ ..] => Ok((Kind::Text, rest)),
            [4, rest @ ..] => Ok((Kind::Ref, rest)),
            [_, ..] => Err(ReadFault::Wrong(Wrong::Tag(bytes.len()))),
        }
    }
}

impl Wire for ClassId {
    ghost cells = { class_cells };

    ghost reading = { class_at };

    ghost can_go = { Any };

    ghost is = { IsClass };

    fn is_encodable(&self) -> bool {
        true
    }

    fn room(&self) -> usize {
        match self {
            ClassId::Plain(_) => 5,
            ClassId::Array(_) => 2,
            ClassId::Roots => 1,
        }
    }

    fn put(&self, bytes: &mut Vec<u8>) -> Result<(), AllocError> {
        match self {
            ClassId::Plain(number) => {
                bytes.push(1)?;
                put_u32(*number, bytes)
            }
            ClassId::Array(kind) => {
                bytes.push(2)?;
                kind.put(bytes)
            }
            ClassId::Roots => {
                bytes.push(3)?;
                Ok(())
            }
        }
    }

    #[tactic(auto, unfolding(crate::specs::Reading::class_at))]
    fn take(alloc: Global, bytes: &[u8]) -> Result<(Self, &[u8]), ReadFault> {
        match bytes {
            [] => Err(ReadFault::Wrong(Wrong::Short)),
            [1, rest @ ..] => {
                let (number, rest) = u32_of(rest)?;
                Ok((ClassId::Plain(number), rest))
            }
            [2, rest @ ..] => {
                let (kind, rest) = Kind::take(alloc, rest)?;
                Ok((ClassId::Array(kind), rest))
            }
            [3, rest @ ..] => Ok((ClassId::Roots, rest)),
            [_, ..] => Err(ReadFault::Wrong(Wrong::Tag(bytes.len()))),
        }
    }
}
