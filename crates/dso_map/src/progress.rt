//! Which stage follows a reply (`specs/Talk.antt`).
ghost use Rattle.std.specs.Prelude.{◌≡◌, IsTrue};
ghost use Rattle.dso_base.specs.declared.request.Reply.TheVariants.{Done, Val};
ghost use Rattle.dso_base.specs.declared.value.Value.TheVariants as value;
ghost use Rattle.dso_map.specs.Calls.{accepts, after_reply};
ghost use Rattle.dso_map.specs.Stages.{talk_at};
ghost use Rattle.dso_map.specs.Talk as talk;

use crate::MapOp;
use crate::stage::{Stage, further, key_of, missing, slot_of, wants_hole};
use dso_base::Value;

/// A value was read.
pub(crate) fn read(op: MapOp, stage: Stage, value: Value) -> Stage
    requires { IsTrue (accepts (talk_at op stage) (Val value)) }
    ensures { talk_at op result ≡ after_reply (talk_at op stage) (Val value) }
{
    match (stage, value) {
        (Stage::Touched(passed, hole), Value::Bool(is)) => touched(op, passed, hole, is),
        (Stage::Key(passed, hole), Value::Long(key)) => keyed(op, passed, hole, key),
        (Stage::Hole(passed), _) => noted(op, passed, value),
        (Stage::Held(slot), _) => held(op, slot, value),
        (Stage::Count, _) => Stage::Ended(value),
        (Stage::Grow, Value::Long(size)) => Stage::Resize(one_more(size)),
        (Stage::Shrink, Value::Long(size)) => Stage::Resize(one_less(size)),
        (other, _) => other,
    }
}

/// A value was written.
pub(crate) fn written(op: MapOp, stage: Stage) -> Stage
    ensures { talk_at op result ≡ after_reply (talk_at op stage) Done }
{
    match stage {
        Stage::Touch(slot, object) => Stage::Write(slot, object),
        Stage::Write(slot, object) => Stage::Fill(slot, object),
        Stage::Fill(_, _) | Stage::Change(_, _, Value::Null) => Stage::Grow,
        Stage::Change(_, _, _) => Stage::Ended(Value::Bool(true)),
        Stage::Empty(_) => Stage::Shrink,
        Stage::Resize(_) => Stage::Ended(Value::Bool(true)),
        other => other,
    }
}

/// It was told whether the next slot was touched.
fn touched(op: MapOp, passed: u8, hole: Option<u8>, is: bool) -> Stage
    ensures { talk_at op result ≡ after_reply (talk_at op (Stage.Touched passed hole)) (Val (value.Bool is)) }
{
    if is {
        Stage::Key(passed, hole)
    } else {
        missing(op, Some(slot_of(key_of(op), passed)), hole)
    }
}

/// It was told that slot's key.
fn keyed(op: MapOp, passed: u8, hole: Option<u8>, key: i64) -> Stage
    ensures { talk_at op result ≡ after_reply (talk_at op (Stage.Key passed hole)) (Val (value.Long key)) }
{
    if key == key_of(op) {
        Stage::Held(slot_of(key, passed))
    } else if wants_hole(op, hole) {
        Stage::Hole(passed)
    } else {
        further(op, passed, hole)
    }
}

/// It was told the value of a slot that may be the first without one.
fn noted(op: MapOp, passed: u8, value: Value) -> Stage
    ensures { talk_at op result ≡ after_reply (talk_at op (Stage.Hole passed)) (Val value) }
{
    let hole = match value {
        Value::Null => Some(slot_of(key_of(op), passed)),
        _ => None,
    };
    further(op, passed, hole)
}

/// It was told the value of the slot of the key.
fn held(op: MapOp, slot: u8, value: Value) -> Stage
    ensures { talk_at op result ≡ after_reply (talk_at op (Stage.Held slot)) (Val value) }
{
    match (op, value) {
        (MapOp::Get(_) | MapOp::Size, _) => Stage::Ended(value),
        (MapOp::Has(_), Value::Null) => Stage::Ended(Value::Bool(false)),
        (MapOp::Has(_), _) => Stage::Ended(Value::Bool(true)),
        (MapOp::Put(_, object), _) => Stage::Change(slot, object, value),
        (MapOp::Remove(_), Value::Null) => Stage::Ended(Value::Bool(false)),
        (MapOp::Remove(_), _) => Stage::Empty(slot),
    }
}

/// One more, in 64 bits.
#[tactic(auto, using(std::proofs::lemmas::Int::wraps))]
fn one_more(size: i64) -> i64
    ensures { value.Long result ≡ talk.more (value.Long size) }
{
    size.wrapping_add(1)
}

/// One less, in 64 bits.
#[tactic(auto, using(std::proofs::lemmas::Int::wraps))]
fn one_less(size: i64) -> i64
    ensures { value.Long result ≡ talk.less (value.Long size) }
{
    size.wrapping_sub(1)
}
