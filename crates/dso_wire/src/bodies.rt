//! Objects and what changed in them as bytes (`specs/Spelling.antt`).
ghost use Rattle.std.specs.Prelude.{◌≡◌, ◌++◌, ◌↔◌, IsTrue, OnOk};
ghost use Rattle.dso_wire.specs.Cells.{bytes_of};
ghost use Rattle.dso_wire.specs.CanGo.{Any, BodyCanGo};
ghost use Rattle.dso_wire.specs.Spelling.{body_cells, set_cells, IsBody, IsSet};
ghost use Rattle.dso_wire.specs.Reading.{Gives, body_at, set_at};

use crate::fault::ReadFault;
use crate::reading::{u32_of, u64_of};
use crate::writing::{Wire, put_u32, put_u64};
use dso_base::{Body, ClassId, Items, Set, Value};
use std::alloc::{AllocError, Global};

impl Wire for Body {
    ghost cells = { body_cells };

    ghost reading = { body_at };

    ghost can_go = { BodyCanGo };

    ghost is = { IsBody };

    fn is_encodable(&self) -> bool {
        self.values.is_encodable()
    }

    fn room(&self) -> usize {
        let head = self.class.room().saturating_add(8);
        self.values.room().saturating_add(head)
    }

    fn put(&self, bytes: &mut Vec<u8>) -> Result<(), AllocError> {
        put_u64(self.object, bytes)?;
        self.class.put(bytes)?;
        self.values.put(bytes)
    }

    #[tactic(auto, unfolding(crate::specs::Reading::body_at))]
    fn take(alloc: Global, bytes: &[u8]) -> Result<(Self, &[u8]), ReadFault> {
        let (object, rest) = u64_of(bytes)?;
        let (class, rest) = ClassId::take(alloc, rest)?;
        let (values, rest) = Items::take(alloc, rest)?;
        let body = Body {
            object,
            class,
            values,
        };
        Ok((body, rest))
    }
}

impl Wire for Set {
    ghost cells = { set_cells };

    ghost reading = { set_at };

    ghost can_go = { Any };

    ghost is = { IsSet };

    fn is_encodable(&self) -> bool {
        true
    }

    fn room(&self) -> usize {
        self.value.room().saturating_add(12)
    }

    fn put(&self, bytes: &mut Vec<u8>) -> Result<(), AllocError> {
        put_u64(self.object, bytes)?;
        put_u32(self.field, bytes)?;
        self.value.put(bytes)
    }

    #[tactic(auto, unfolding(crate::specs::Reading::set_at))]
    fn take(alloc: Global, bytes: &[u8]) -> Result<(Self, &[u8]), ReadFault> {
        let (object, rest) = u64_of(bytes)?;
        let (field, rest) = u32_of(rest)?;
        let (value, rest) = Value::take(alloc, rest)?;
        let set = Set {
            object,
            field,
            value,
        };
        Ok((set, rest))
    }
}
