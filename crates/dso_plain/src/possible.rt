//! When a reply is possible for a request, of objects and fields (`specs/Possible.antt`).
ghost use Rattle.std.specs.Prelude.{◌≡◌, ◌↔◌, ◌⊎◌, true, is_none, Some, IsTrue};
ghost use Rattle.dso_base.specs.declared.request.Reply.TheVariants as Reply;
ghost use Rattle.std.specs.Ordering.{nat_cmp};
ghost use Rattle.dso_lookup.specs.Maps.{look};
ghost use Rattle.dso_plain.specs.State as State;
ghost use Rattle.dso_plain.specs.Possible.{CanBeMade, AnswersNew, AnswersLook, AnswersGet, MayPut, AnswersPut};
ghost use Rattle.dso_plain.specs.TableInvariants.{IndexesAgree};
ghost use Rattle.dso_plain.specs.State.{level_of, hold_on_guard};
ghost use Rattle.dso_plain.specs.HeapTables.{state_of};

use crate::publish::is_owner;
use crate::reads::{holds_nothing, holds_something, level, object, seen, stands_from, value};
use crate::tables::{HeapTables, Object};
use dso_base::{ClassId, Fault, Level, Reply, Same, Shape, ThreadId, Value};

/// A thread that asks, and what it is judged by: the tables as they stand, and the program's shape.
#[derive(Clone, Copy)]
pub(crate) struct Asker<'a> {
    pub(crate) tables: &'a HeapTables,
    pub(crate) shape: &'a Shape,
    pub(crate) thread: ThreadId,
}

/// How many elements an array has at most.
const MOST_ELEMENTS: usize = 256;

/// Whether there can be an object of this class with so many fields or elements. It takes no memory.
pub fn can_be_made(shape: &Shape, class: ClassId, size: usize) -> bool
    ensures { IsTrue result ↔ CanBeMade shape.now class size }
{
    match class {
        ClassId::Plain(number) => match shape.classes.get(number as usize) {
            Some(class) => class.fields.len() == size,
            None => false,
        },
        ClassId::Array(_) => size <= MOST_ELEMENTS,
        ClassId::Roots => false,
    }
}

/// Whether the reply is possible for New.
pub(crate) fn answers_new(
    tables: &HeapTables,
    shape: &Shape,
    class: ClassId,
    size: u32,
    reply: Reply,
) -> bool
    ensures { IsTrue result ↔ AnswersNew shape.now class size reply (state_of tables.now) }
{
    match reply {
        Reply::Made(id) => id >= 1
            && object(tables, id).is_none()
            && can_be_made(shape, class, size as usize),
        _ => false,
    }
}

/// Whether the thread may see the object: its own or a shared one.
fn is_seen_by(thread: ThreadId, object: Object) -> bool
    ensures { IsTrue result ↔ ((State.is_owner thread object.owner ≡ true) ⊎ (is_none object.owner ≡ true)) }
{
    object.owner.is_none() || is_owner(thread, object.owner)
}

/// Whether the reply is possible for Look.
pub(crate) fn answers_look(tables: &HeapTables, thread: ThreadId, id: u64, reply: Reply) -> bool
    ensures { IsTrue result ↔ AnswersLook thread id reply (state_of tables.now) }
{
    match reply {
        Reply::Seen(class, size) => match object(tables, id) {
            Some(object) => is_seen_by(thread, object)
                && object.class.same(&class)
                && object.size == size,
            None => false,
        },
        _ => false,
    }
}

/// The level at which the thread holds the guard of a field, None where it does not.
pub(crate) fn guard_level(asker: Asker<'_>, id: u64, field: u32, object: Object) -> Option<Level>
    requires { look nat_cmp asker.tables.now.objects id ≡ Some object }
    ensures { result ≡ level_of (hold_on_guard asker.entry.shape.now asker.entry.thread id field (state_of asker.entry.tables.now)) }
{
    let guard = asker.shape.guard(object.class, id, field);
    level(asker.tables, guard, asker.thread)
}

/// Whether the field of an object has the value.
fn has_value(tables: &HeapTables, id: u64, field: u32, wanted: Value) -> bool
    ensures { IsTrue result ↔ ((state_of tables.now).heap (id, field) ≡ Some wanted) }
{
    match value(tables, id, field) {
        Some(value) => value.same(&wanted),
        None => false,
    }
}

/// Whether a read of a shared object may give the value.
fn reads_shared(asker: Asker<'_>, id: u64, field: u32, wanted: Value, object: Object) -> bool
    requires there { look nat_cmp asker.tables.now.objects id ≡ Some object }
    requires shared { is_none object.owner ≡ true }
    ensures { IsTrue result ↔ AnswersGet asker.entry.shape.now asker.entry.thread id field (Reply.Val wanted) (state_of asker.entry.tables.now) }
{
    let tables = asker.tables;
    match guard_level(asker, id, field, object) {
        Some(_) => has_value(tables, id, field, wanted),
        None => stands_from(
            tables,
            id,
            field,
            seen(tables, asker.thread, id, field),
            wanted,
        ),
    }
}

/// Whether the reply is possible for Get.
pub(crate) fn answers_get(asker: Asker<'_>, id: u64, field: u32, reply: Reply) -> bool
    ensures { IsTrue result ↔ AnswersGet asker.entry.shape.now asker.entry.thread id field reply (state_of asker.entry.tables.now) }
{
    match reply {
        Reply::Val(wanted) => match object(asker.tables, id) {
            Some(object) => {
                if object.owner.is_none() {
                    reads_shared(asker, id, field, wanted, object)
                } else {
                    is_owner(asker.thread, object.owner)
                        && has_value(asker.tables, id, field, wanted)
                }
            }
            None => false,
        },
        _ => false,
    }
}

/// Whether a put into a shared object may have the reply.
fn puts_shared(asker: Asker<'_>, id: u64, field: u32, reply: Reply, object: Object) -> bool
    requires agrees { IndexesAgree asker.tables.now }
    requires there { look nat_cmp asker.tables.now.objects id ≡ Some object }
    requires shared { is_none object.owner ≡ true }
    ensures { IsTrue result ↔ MayPut asker.entry.shape.now asker.entry.thread id field reply (state_of asker.entry.tables.now) }
{
    match (reply, guard_level(asker, id, field, object)) {
        (Reply::Done, Some(Level::Write)) => true,
        (Reply::Refused(Fault::ReadOnly), Some(Level::Read)) => true,
        (Reply::Refused(Fault::UnlockedSharedObject), _) => {
            holds_nothing(asker.tables, asker.thread)
        }
        (Reply::Refused(Fault::WrongLock), None) => holds_something(asker.tables, asker.thread),
        _ => false,
    }
}

/// Whether the reply is possible for Put.
pub(crate) fn answers_put(asker: Asker<'_>, id: u64, field: u32, reply: Reply) -> bool
    requires { IndexesAgree asker.tables.now }
    ensures { IsTrue result ↔ AnswersPut asker.entry.shape.now asker.entry.thread id field reply (state_of asker.entry.tables.now) }
{
    let Some(object) = object(asker.tables, id) else {
        return false;
    };
    if field >= object.size {
        return false;
    }
    if object.owner.is_none() {
        return puts_shared(asker, id, field, reply, object);
    }
    match reply {
        Reply::Done => is_owner(asker.thread, object.owner),
        _ => false,
    }
}
