//! What a call asks at a stage, and which replies it takes there (`specs/Calls.antt`).
ghost use Rattle.std.specs.Prelude.{◌≡◌};
ghost use Rattle.dso_base.specs.declared.request.Reply.TheVariants.{Done, Val};
ghost use Rattle.dso_map.specs.Calls.{accepts, ended_with, request_of};
ghost use Rattle.dso_map.specs.Fields as fields;
ghost use Rattle.dso_map.specs.Stages.{talk_at};

use crate::MapOp;
use crate::stage::{Stage, key_of, slot_of};
use dso_base::{Request, Value};

/// The number of the field that is the size.
const SIZE: u32 = 768;

/// The request that is out at a stage, None where the call has ended.
pub(crate) fn request(object: u64, op: MapOp, stage: Stage) -> Option<Request>
    ensures { result ≡ request_of object (talk_at op stage) }
{
    match stage {
        Stage::Touched(passed, _) => Some(Request::Get(
            object,
            touched_field(slot_of(key_of(op), passed)),
        )),
        Stage::Key(passed, _) => Some(Request::Get(object, key_field(slot_of(key_of(op), passed)))),
        Stage::Hole(passed) => Some(Request::Get(object, held_field(slot_of(key_of(op), passed)))),
        Stage::Held(slot) => Some(Request::Get(object, held_field(slot))),
        Stage::Touch(slot, _) => Some(Request::Put(object, touched_field(slot), Value::Bool(true))),
        Stage::Write(slot, _) => {
            Some(Request::Put(object, key_field(slot), Value::Long(key_of(op))))
        }
        Stage::Fill(slot, held) | Stage::Change(slot, held, _) => {
            Some(Request::Put(object, held_field(slot), Value::Ref(held)))
        }
        Stage::Empty(slot) => Some(Request::Put(object, held_field(slot), Value::Null)),
        Stage::Count | Stage::Grow | Stage::Shrink => Some(Request::Get(object, SIZE)),
        Stage::Resize(size) => Some(Request::Put(object, SIZE, Value::Long(size))),
        Stage::Ended(_) => None,
    }
}

/// The value with which a call ended.
pub(crate) fn ended(op: MapOp, stage: Stage) -> Option<Value>
    ensures { result ≡ ended_with (talk_at op stage) }
{
    match stage {
        Stage::Ended(value) => Some(value),
        _ => None,
    }
}

/// Whether a value is asked for at the stage, and this is one of the field's kind.
pub(crate) fn takes(op: MapOp, stage: Stage, value: Value) -> bool
    ensures { result ≡ accepts (talk_at op stage) (Val value) }
{
    match (stage, value) {
        (Stage::Touched(_, _), Value::Bool(_)) => true,
        (Stage::Key(_, _), Value::Long(_)) => true,
        (Stage::Hole(_) | Stage::Held(_), Value::Null) => true,
        (Stage::Hole(_) | Stage::Held(_), Value::Ref(object)) => object != 0,
        (Stage::Count | Stage::Grow | Stage::Shrink, Value::Long(_)) => true,
        _ => false,
    }
}

/// Whether a value is written at the stage.
pub(crate) fn writes(op: MapOp, stage: Stage) -> bool
    ensures { result ≡ accepts (talk_at op stage) Done }
{
    matches!(
        stage,
        Stage::Touch(_, _)
            | Stage::Write(_, _)
            | Stage::Fill(_, _)
            | Stage::Change(_, _, _)
            | Stage::Empty(_)
            | Stage::Resize(_)
    )
}

/// The field that tells whether a slot was touched.
fn touched_field(slot: u8) -> u32
    ensures { result ≡ fields.place_of (fields.MapField.Touched slot) }
{
    3 * u32::from(slot)
}

/// The field of a slot's key.
fn key_field(slot: u8) -> u32
    ensures { result ≡ fields.place_of (fields.MapField.Key slot) }
{
    3 * u32::from(slot) + 1
}

/// The field of a slot's value.
fn held_field(slot: u8) -> u32
    ensures { result ≡ fields.place_of (fields.MapField.Held slot) }
{
    3 * u32::from(slot) + 2
}
