//! What a thread knows of objects: of its own what it did, of others what its client's copies hold
//! (`specs/KnownObjects.antt`).
ghost use Rattle.std.specs.Prelude.{◌≡◌, ◌||◌, IfSome, Some, is_some, true};
ghost use Rattle.dso_law.specs.Threads.{own};
ghost use Rattle.dso_law.specs.Copies.{is_resident, class_held, copy_of};
ghost use Rattle.dso_law.specs.RequestNeeds.{is_kind, is_class, is_seen_class};
ghost use Rattle.dso_law.specs.Replies.{class_known, value_in, value_seen};
ghost use Rattle.dso_client.specs.RunPoints.{RunPoint};
ghost use Rattle.dso_client.specs.RunFacts.{SizesAreKept};
ghost use Rattle.dso_client.specs.TableStands.{TableStands};
ghost use Rattle.dso_client.specs.KnownObjects.{KnowsObject, KnowsObjects};

use crate::thread_context::ThreadContext;
use dso_base::{ClassId, Kind, Value};
use dso_table::Table;

/// Whether both are there, of one class and size.
pub(crate) fn is_seen_class(held: Option<(ClassId, usize)>, seen: Option<(ClassId, u32)>) -> bool
    ensures { result ≡ is_seen_class held seen }
{
    match (held, seen) {
        (Some((class, size)), Some((other, number))) => is_class(class, other)
            && size == number as usize,
        _ => false,
    }
}

/// Whether the two classes are one.
fn is_class(class: ClassId, other: ClassId) -> bool
    ensures { result ≡ is_class class other }
{
    match (class, other) {
        (ClassId::Plain(number), ClassId::Plain(that)) => number == that,
        (ClassId::Array(kind), ClassId::Array(that)) => is_kind(kind, that),
        (ClassId::Roots, ClassId::Roots) => true,
        _ => false,
    }
}

/// Whether the two kinds are one.
fn is_kind(kind: Kind, other: Kind) -> bool
    ensures { result ≡ is_kind kind other }
{
    matches!(
        (kind, other),
        (Kind::Long, Kind::Long)
            | (Kind::Bool, Kind::Bool)
            | (Kind::Text, Kind::Text)
            | (Kind::Ref, Kind::Ref)
    )
}

/// Whether the object is resident.
pub(crate) fn is_resident(table: &Table, object: u64) -> bool
    ensures { (at : RunPoint) → TableStands at table.now → result ≡ is_resident object at.entries }
{
    table.get(object).is_some()
}

/// The class and size of the copy, None where the object isn't resident.
pub(crate) fn copy_class(table: &Table, object: u64) -> Option<(ClassId, usize)>
    ensures there { (at : RunPoint) → TableStands at table.now → is_some result ≡ is_resident object at.entries }
    ensures class { IfSome result (λ class. (at : RunPoint) → TableStands at table.now → class_held object at.entries ≡ Some class) }
{
    match table.get(object) {
        Some(body) => Some((body.class, body.values.len())),
        None => None,
    }
}

/// The class and size of the thread's own object, else of the copy.
pub(crate) fn class_known(
    table: &Table,
    context: &ThreadContext,
    object: u64,
) -> Option<(ClassId, usize)>
    ensures there { (at : RunPoint) → KnowsObjects at table.now context.now
        → is_some result ≡ (is_some (own at.settings.shape context.now.id object at.entries) || is_resident object at.entries) }
    ensures known { (at : RunPoint) → KnowsObject at table.now context.now object → result ≡ class_known at.settings context.now.id object at.entries }
{
    match context.own(object) {
        Some(body) => Some((body.class, body.values.len())),
        None => match table.get(object) {
            Some(body) => Some((body.class, body.values.len())),
            None => None,
        },
    }
}

/// The copy's value of a field.
fn copy(table: &Table, object: u64, field: u32) -> Option<Value>
    ensures { (at : RunPoint) → TableStands at table.now → SizesAreKept at → is_resident object at.entries ≡ true → result ≡ copy_of object field at.entries }
{
    match table.get(object) {
        Some(body) => body.values.get(field as usize).copied(),
        None => None,
    }
}

/// The value of a field of the thread's own object, else the latest one that its open block put, else the copy's.
pub(crate) fn field_value(
    table: &Table,
    context: &ThreadContext,
    object: u64,
    field: u32,
) -> Option<Value>
    ensures { (at : RunPoint) → KnowsObject at table.now context.now object → SizesAreKept at
        → result ≡ value_in at.settings (own at.settings.shape context.now.id object at.entries) field (value_seen at.settings context.now.id object field at.entries) }
{
    match context.own(object) {
        Some(body) => body.values.get(field as usize).copied(),
        None => match context.block.value(object, field) {
            Some(value) => Some(value),
            None => copy(table, object, field),
        },
    }
}
