//! How a client answers a request whose needs are met (`dso_law/specs/Replies.antt`).
ghost use Rattle.std.specs.Prelude.{ℕ, ◌≡◌, ◌≢◌, ◌<◌, ◌^◌, ◌||◌, true, false, Some, None, IfSome, List, [], option_map, cond, is_some};
ghost use Rattle.dso_base.specs.declared.request.Reply.TheVariants as reply;
ghost use Rattle.dso_base.specs.declared.request.Request.TheVariants as request;
ghost use Rattle.dso_base.specs.declared.value.ClassId.{ClassId};
ghost use Rattle.dso_base.specs.declared.value.Value.{Value};
ghost use Rattle.dso_base.specs.Following.{IsListed};
ghost use Rattle.dso_law.specs.ClientWaiters.{client_list};
ghost use Rattle.dso_law.specs.Copies.{is_resident};
ghost use Rattle.dso_law.specs.Records.{next_id};
ghost use Rattle.dso_law.specs.Replies.{class_known, answer_put, put_reply, enter_reply, monitor_reply, timeout_reply, first_of_list, reply_of, woken_by};
ghost use Rattle.dso_law.specs.RequestNeeds.{hold_level, unmet};
ghost use Rattle.dso_law.specs.Threads.{Held, is_private, hold_of, locks_of, own};
ghost use Rattle.dso_client.specs.StateStands.{StateStands};
ghost use Rattle.dso_client.specs.KnownObjects.{KnowsObject, KnowsObjects};
ghost use Rattle.dso_client.specs.SequencesStand.{SequencesStand};
ghost use Rattle.dso_client.specs.LockStateStands.{LockStateStands};
ghost use Rattle.dso_client.specs.RunPoints.{RunPoint};
ghost use Rattle.dso_client.specs.RunFacts.{SizesAreKept};
ghost use Rattle.dso_client.specs.ContextStands.{ContextStands};
ghost use Rattle.dso_client.specs.Turns.{is_of_object};

use crate::client_state::ClientState;
use crate::known_objects::{class_known, field_value};
use crate::lock_state::LockState;
use crate::locks::level_held;
use crate::sequences::Sequences;
use crate::thread_context::ThreadContext;
use dso_base::{Fault, Level, LockName, Reply, Request, Shape, ThreadId, Value};
use dso_law::guard_at;
use dso_table::Table;

/// The id of the next object, None where none is left.
pub(crate) fn new_reply(sequences: &Sequences) -> Option<Reply>
    ensures listed { IfSome result (λ reply. (class : ClassId) (n : ℕ) → IsListed (request.New class n) reply) }
    ensures next { (at : RunPoint) → SequencesStand at sequences.now → result ≡ option_map reply.Made (next_id at.entries) }
{
    if sequences.pool.next() < sequences.pool.end() {
        Some(Reply::Made(sequences.pool.next()))
    } else {
        None
    }
}

/// A size as it is told, in 32 bits.
fn told_size(size: usize) -> u32
    ensures { size < 2 ^ 32 → result ≡ size }
{
    u32::try_from(size).unwrap_or(u32::MAX)
}

/// The class and size of an object that is there, None where it isn't.
pub(crate) fn look_reply(table: &Table, context: &ThreadContext, object: u64) -> Option<Reply>
    ensures listed { IfSome result (IsListed (request.Look object)) }
    ensures there { (at : RunPoint) → KnowsObjects at table.now context.now
        → is_some result ≡ (is_some (own at.settings.shape context.now.id object at.entries) || is_resident object at.entries) }
    ensures known { (at : RunPoint) → KnowsObject at table.now context.now object → SizesAreKept at
        → result ≡ option_map (λ class. reply.Seen class.0 class.1) (class_known at.settings context.now.id object at.entries) }
{
    let (class, size) = class_known(table, context, object)?;
    Some(Reply::Seen(class, told_size(size)))
}

/// The value of a field of an object that is there.
pub(crate) fn get_reply(
    table: &Table,
    context: &ThreadContext,
    object: u64,
    field: u32,
) -> Option<Reply>
    ensures listed { IfSome result (IsListed (request.Get object field)) }
    ensures told { (at : RunPoint) → KnowsObject at table.now context.now object → SizesAreKept at
        → result ≡ reply_of at.settings context.now.id (request.Get object field) at.entries }
{
    match field_value(table, context, object, field) {
        Some(value) => Some(Reply::Val(value)),
        None => None,
    }
}

/// A put in a shared object, by how its guard is held, and by whether the thread holds a lock.
fn shared_put(held: Option<Level>, holds_some: bool) -> Reply
    ensures listed { (o f : ℕ) (v : Value) → IsListed (request.Put o f v) result }
    ensures told { (holds : List Held) → (holds_some ≡ true → holds ≢ []) → (holds_some ≡ false → holds ≡ []) → result ≡ put_reply held holds }
{
    match held {
        Some(Level::Write) => Reply::Done,
        Some(Level::Read) => Reply::Refused(Fault::ReadOnly),
        None if holds_some => Reply::Refused(Fault::WrongLock),
        None => Reply::Refused(Fault::UnlockedSharedObject),
    }
}

/// A put in a field of an object whose guard this is: done where the object is private, else by the locks.
fn put_answer(
    lock_state: &LockState,
    context: &ThreadContext,
    object: u64,
    guard: LockName,
) -> Reply
    ensures listed { (o f : ℕ) (v : Value) → IsListed (request.Put o f v) result }
    ensures told { (at : RunPoint) → LockStateStands at lock_state.now → ContextStands at context.now
        → result ≡ cond (is_private at.settings.shape context.now.id object at.entries) reply.Done
        (put_reply (hold_level (hold_of context.now.id guard at.entries)) (locks_of context.now.id at.entries).holds) }
{
    if context.is_private(object) {
        return Reply::Done;
    }
    shared_put(
        level_held(lock_state, context.id, guard),
        lock_state.holds.any(context.id),
    )
}

/// An entry of a lock that is held at this level, or isn't.
fn enter_reply(level: Level, held: Option<Level>) -> Reply
    ensures { result ≡ enter_reply level held }
{
    match (level, held) {
        (Level::Write, Some(Level::Read)) => Reply::Refused(Fault::LockUpgrade),
        _ => Reply::Done,
    }
}

/// A wait or a notification where the lock is held at this level, or isn't.
fn monitor_reply(held: Option<Level>) -> Reply
    ensures { result ≡ monitor_reply held }
{
    match held {
        Some(Level::Write) => Reply::Done,
        _ => Reply::Refused(Fault::IllegalMonitor),
    }
}

/// A timeout comes too late where the thread is marked.
fn timeout_reply(is_marked: bool) -> Reply
    ensures { result ≡ timeout_reply is_marked }
{
    if is_marked {
        Reply::Val(Value::Bool(true))
    } else {
        Reply::Done
    }
}

/// A put in a field of an object that is there, None where the object has no such field.
pub(crate) fn put_reply(
    kept: &ClientState,
    shape: &Shape,
    context: &ThreadContext,
    object: u64,
    field: u32,
) -> Option<Reply>
    ensures listed { IfSome result (λ reply. (v : Value) → IsListed (request.Put object field v) reply) }
    ensures told { (at : RunPoint) → StateStands at kept.now → KnowsObject at kept.now.table context.now object → at.settings.shape ≡ shape.now
        → result ≡ answer_put at.settings context.now.id object field (class_known at.settings context.now.id object at.entries) at.entries }
{
    let (class, size) = class_known(&kept.table, context, object)?;
    if (field as usize) < size {
        let guard = guard_at(shape, class, object, field);
        Some(put_answer(&kept.lock_state, context, object, guard))
    } else {
        None
    }
}

/// The answer to a request that neither makes nor looks at, reads or writes an object.
pub(crate) fn reply(kept: &ClientState, context: &ThreadContext, request: Request) -> Reply
    ensures listed { is_of_object request ≡ false → IsListed request result }
    ensures told { (at : RunPoint) → StateStands at kept.now → ContextStands at context.now → is_of_object request ≡ false
        → reply_of at.settings context.now.id request at.entries ≡ Some result }
{
    match request {
        Request::Enter(lock, level) => entering_reply(&kept.lock_state, context, lock, level),
        Request::Wait(lock) | Request::Notify(lock) | Request::NotifyAll(lock) => {
            monitor_reply(level_held(&kept.lock_state, context.id, lock))
        }
        Request::Tick(_) => Reply::Val(Value::Bool(context.is_marked)),
        Request::Timeout(_) => timeout_reply(context.is_marked),
        _ => Reply::Done,
    }
}

/// Whether there is an answer to the request of a thread, whose needs are met.
pub(crate) fn has_reply(kept: &ClientState, context: &ThreadContext, request: Request) -> bool
    ensures { (at : RunPoint) → StateStands at kept.now → ContextStands at context.now → SizesAreKept at
        → unmet at.settings at.client at.next context.now.id request at.entries ≡ None → result ≡ is_some (reply_of at.settings context.now.id request at.entries) }
{
    match request {
        Request::New(..) => new_reply(&kept.sequences).is_some(),
        Request::Look(object) => look_reply(&kept.table, context, object).is_some(),
        Request::Get(object, field) => get_reply(&kept.table, context, object, field).is_some(),
        Request::Put(object, field, _) => has_field(&kept.table, context, object, field),
        _ => true,
    }
}

/// Whether an object that is there has the field.
fn has_field(table: &Table, context: &ThreadContext, object: u64, field: u32) -> bool
    ensures { (at : RunPoint) → KnowsObject at table.now context.now object
        → result ≡ is_some (answer_put at.settings context.now.id object field (class_known at.settings context.now.id object at.entries) at.entries) }
{
    match class_known(table, context, object) {
        Some((_, size)) => (field as usize) < size,
        None => false,
    }
}

/// An entry is local at the monitor of a private object, and else as the lock is held.
fn entering_reply(
    lock_state: &LockState,
    context: &ThreadContext,
    lock: LockName,
    level: Level,
) -> Reply
    ensures listed { IsListed (request.Enter lock level) result }
    ensures told { (at : RunPoint) → LockStateStands at lock_state.now → ContextStands at context.now
        → Some result ≡ reply_of at.settings context.now.id (request.Enter lock level) at.entries }
{
    if context.is_local(lock) {
        Reply::Local
    } else {
        enter_reply(level, level_held(lock_state, context.id, lock))
    }
}

/// Whom a thread wakes: a notification that is done wakes the first of the lock's list.
pub(crate) fn woken(lock_state: &LockState, request: Request, reply: Reply) -> Option<ThreadId>
    ensures { (at : RunPoint) → LockStateStands at lock_state.now → result ≡ woken_by request reply at.entries }
{
    match (request, reply) {
        (Request::Notify(lock), Reply::Done) => first_listed(lock_state, lock),
        _ => None,
    }
}

/// The first thread in the list of the lock.
fn first_listed(lock_state: &LockState, lock: LockName) -> Option<ThreadId>
    ensures { (at : RunPoint) → LockStateStands at lock_state.now → result ≡ first_of_list (client_list lock at.entries) }
{
    let list = lock_state.lists.get(&lock)?;
    list.all().first().copied()
}
