//! The stage that a call of a map has come to, and how a path goes on and ends (`specs/Talk.antt`).
ghost use Rattle.std.specs.Prelude.{◌≡◌};
ghost use Rattle.dso_map.specs.Stages.{left_behind, talk_at};
ghost use Rattle.dso_map.specs.Talk as talk;

use crate::MapOp;
use dso_base::Value;

/// What is asked next. A slot's number is a byte, and so is how many slots of the path were passed.
#[derive(Clone, Copy, Debug, PartialEq, Eq)]
pub(crate) enum Stage {
    /// Whether the slot behind so many was touched; and the first one so far without a value, where it is looked for.
    Touched(u8, Option<u8>),
    /// The key of that slot.
    Key(u8, Option<u8>),
    /// Its value, since it may be the first one without.
    Hole(u8),
    /// The value of the slot of the key.
    Held(u8),
    /// This slot is touched, and then gets the key and the object.
    Touch(u8, u64),
    /// It gets the key, and then the object.
    Write(u8, u64),
    /// It gets the object, and the size grows.
    Fill(u8, u64),
    /// It gets the object in place of this value; the size grows where that was null.
    Change(u8, u64, Value),
    /// It gets null, and the size shrinks.
    Empty(u8),
    /// The size, which is the answer.
    Count,
    /// The size, to which one is added.
    Grow,
    /// The size, from which one is taken.
    Shrink,
    /// The size becomes this.
    Resize(i64),
    /// The call has ended with this value.
    Ended(Value),
}

/// The key that is looked for; 0 for the size, which looks for none.
pub(crate) fn key_of(op: MapOp) -> i64
    ensures { result ≡ talk.key_of op }
{
    match op {
        MapOp::Get(key) | MapOp::Has(key) | MapOp::Put(key, _) | MapOp::Remove(key) => key,
        MapOp::Size => 0,
    }
}

/// The slot of the key's path behind so many others, round to the first.
pub(crate) fn slot_of(key: i64, passed: u8) -> u8
    ensures { result ≡ talk.slot_of key passed }
{
    let first = key.rem_euclid(256) as u8;
    first.wrapping_add(passed)
}

/// What a call asks first.
#[tactic(auto, using(crate::proofs::Stages::first_is))]
pub(crate) fn first(op: MapOp) -> Stage
    ensures { talk_at op result ≡ talk.talk op }
{
    match op {
        MapOp::Size => Stage::Count,
        MapOp::Get(_) | MapOp::Has(_) | MapOp::Put(_, _) | MapOp::Remove(_) => {
            Stage::Touched(0, None)
        }
    }
}

/// The path goes on behind one slot more, if there is one.
#[tactic(auto, using(crate::proofs::Stages::left_is))]
pub(crate) fn further(op: MapOp, passed: u8, hole: Option<u8>) -> Stage
    ensures { talk_at op result ≡ left_behind op passed hole }
{
    if passed == 255 {
        missing(op, None, hole)
    } else {
        Stage::Touched(passed + 1, hole)
    }
}

/// What follows where the path ended without the key.
pub(crate) fn missing(op: MapOp, end: Option<u8>, hole: Option<u8>) -> Stage
    ensures { talk_at op result ≡ talk.missing op end hole }
{
    match (op, end, hole) {
        (MapOp::Put(_, object), Some(slot), _) => Stage::Touch(slot, object),
        (MapOp::Put(_, object), None, Some(slot)) => Stage::Write(slot, object),
        (MapOp::Get(_), _, _) => Stage::Ended(Value::Null),
        _ => Stage::Ended(Value::Bool(false)),
    }
}

/// Whether the call looks for a slot without a value on its way.
pub(crate) fn wants_hole(op: MapOp, hole: Option<u8>) -> bool
    ensures { result ≡ talk.wants_hole op hole }
{
    matches!((op, hole), (MapOp::Put(_, _), None))
}
