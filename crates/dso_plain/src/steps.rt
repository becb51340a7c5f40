//! One step in the tables (`specs/After.antt`).
ghost use Rattle.std.specs.Prelude.{◌≡◌, true, false, Some, OnOk, IfOk};
ghost use Rattle.dso_base.specs.declared.lock.ThreadId.{ThreadId};
ghost use Rattle.dso_base.specs.declared.request.Reply.TheVariants as Reply;
ghost use Rattle.dso_plain.specs.After as After;
ghost use Rattle.dso_plain.specs.TableInvariants.{IndexesAgree, TablesInvariant};
ghost use Rattle.dso_plain.specs.StepInvariants.{PastInvariant};
ghost use Rattle.dso_plain.specs.Possible.{IsPossible, IsUnmarkedWaiter, AnswersPut, May};
ghost use Rattle.dso_plain.specs.State.{is_shared};
ghost use Rattle.dso_plain.specs.HeapTables.{state_of};

use crate::changes::{enter, exit, resume, wait};
use crate::clears::lose;
use crate::grants::may;
use crate::marks::{mark, mark_all};
use crate::possible::{Asker, guard_level};
use crate::reads::object;
use crate::tables::HeapTables;
use crate::writes::{NewObject, count_read, end, make_object, print, put_own, put_shared, see};
use dso_base::{Event, LockName, NoMemory, Reply, Request, Set, Shape, ThreadId};
use std::alloc::Global;

/// A read: under the guard the thread has seen the last place, without it the read is counted.
fn read(
    tables: &mut HeapTables,
    shape: &Shape,
    thread: ThreadId,
    id: u64,
    field: u32,
) -> Result<(), NoMemory>
    requires { IndexesAgree tables.old }
    ensures state { OnOk result (state_of tables.new ≡ After.apply (After.read shape.now thread id field (is_shared ((state_of tables.old).objects id)) (state_of tables.old)) (state_of tables.old)) }
    ensures agrees { OnOk result (IndexesAgree tables.new) }
{
    let Some(object) = object(tables, id) else {
        return Ok(());
    };
    if object.owner.is_some() {
        return Ok(());
    }
    let asker = Asker {
        tables,
        shape,
        thread,
    };
    match guard_level(asker, id, field, object) {
        Some(_) => see(tables, thread, id, field),
        None => count_read(tables),
    }
}

/// A put that may be done.
fn put_field(
    alloc: Global,
    tables: &mut HeapTables,
    thread: ThreadId,
    set: Set,
) -> Result<(), NoMemory>
    requires agrees { IndexesAgree tables.old }
    requires past { PastInvariant (state_of tables.old) }
    ensures state { OnOk result (state_of tables.new ≡ After.apply (After.put thread set.object set.field set.value (is_shared ((state_of tables.old).objects set.object)) (state_of tables.old)) (state_of tables.old)) }
    ensures agrees { OnOk result (IndexesAgree tables.new) }
{
    match object(tables, set.object) {
        Some(object) => {
            if object.owner.is_none() {
                put_shared(alloc, tables, thread, set)
            } else {
                put_own(tables, thread, set)
            }
        }
        None => put_own(tables, thread, set),
    }
}

/// A notification of one waiter, or of nobody.
fn notify(
    alloc: Global,
    tables: &mut HeapTables,
    lock: LockName,
    woken: Option<ThreadId>,
) -> Result<(), NoMemory>
    requires agrees { IndexesAgree tables.old }
    requires waits { (w : ThreadId) → woken ≡ Some w → IsUnmarkedWaiter lock w (state_of tables.old) }
    ensures state { OnOk result (state_of tables.new ≡ After.apply (After.notifies lock woken) (state_of tables.old)) }
    ensures agrees { OnOk result (IndexesAgree tables.new) }
{
    match woken {
        Some(thread) => mark(alloc, tables, lock, thread),
        None => Ok(()),
    }
}

/// An act, as an event tells it: who asked for what, what the answer was, and who was woken.
#[derive(Clone, Copy)]
struct Act {
    thread: ThreadId,
    request: Request,
    reply: Reply,
    woken: Option<ThreadId>,
}

/// An act that is possible is made.
fn make_act(alloc: Global, tables: &mut HeapTables, shape: &Shape, act: Act) -> Result<(), NoMemory>
    requires kept { TablesInvariant tables.old }
    requires possible { IsPossible shape.now act.thread act.request act.reply act.woken (state_of tables.old) }
    ensures state { OnOk result (state_of tables.new ≡ After.apply (After.change_of shape.now act.thread act.request act.reply act.woken (state_of tables.old)) (state_of tables.old)) }
    ensures agrees { OnOk result (IndexesAgree tables.new) }
{
    let thread = act.thread;
    match (act.request, act.reply) {
        (Request::New(class, size), Reply::Made(id)) => {
            make_object(alloc, tables, shape, thread, NewObject { class, size, id })
        }
        (Request::Get(id, field), Reply::Val(_)) => read(tables, shape, thread, id, field),
        (Request::Put(object, field, value), Reply::Done) => {
            let set = Set {
                object,
                field,
                value,
            };
            put_field(alloc, tables, thread, set)
        }
        (Request::Enter(lock, level), Reply::Done) => enter(alloc, tables, thread, lock, level),
        (Request::Exit(lock), Reply::Done) => exit(alloc, tables, thread, lock),
        (Request::Wait(lock), Reply::Done) => wait(alloc, tables, thread, lock),
        (Request::Timeout(lock), Reply::Done) => mark(alloc, tables, lock, thread),
        (Request::Resume(lock), Reply::Done) => resume(alloc, tables, thread, lock),
        (Request::Notify(lock), Reply::Done) => notify(alloc, tables, lock, act.woken),
        (Request::NotifyAll(lock), Reply::Done) => mark_all(alloc, tables, lock),
        (Request::Print(value), Reply::Done) => print(alloc, tables, thread, value),
        (Request::End(fault), Reply::Done) => end(tables, thread, fault),
        (Request::Look(_), _) => Ok(()),
        (Request::Tick(_), _) => Ok(()),
        (Request::Pause, _) => Ok(()),
        (Request::Settle, _) => Ok(()),
        _ => Ok(()),
    }
}

/// An event that is possible is made.
fn make(
    alloc: Global,
    tables: &mut HeapTables,
    shape: &Shape,
    event: &Event,
) -> Result<(), NoMemory>
    requires kept { TablesInvariant tables.old }
    requires possible { May shape.now event.now (state_of tables.old) }
    ensures state { OnOk result (state_of tables.new ≡ After.after shape.now event.now (state_of tables.old)) }
    ensures agrees { OnOk result (IndexesAgree tables.new) }
{
    match event {
        Event::Act {
            thread,
            request,
            reply,
            woken,
        } => {
            let act = Act {
                thread: *thread,
                request: *request,
                reply: *reply,
                woken: *woken,
            };
            make_act(alloc, tables, shape, act)
        }
        Event::Lost(client) => lose(alloc, tables, *client),
    }
}

/// Makes the event where it is possible, and answers whether it was.
pub(crate) fn step(
    alloc: Global,
    tables: &mut HeapTables,
    shape: &Shape,
    event: &Event,
) -> Result<bool, NoMemory>
    requires { TablesInvariant tables.old }
    ensures made { IfOk result (λ made. made ≡ true → May shape.now event.now (state_of tables.old) × (state_of tables.new ≡ After.after shape.now event.now (state_of tables.old))) }
    ensures refused { IfOk result (λ made. made ≡ false → (May shape.now event.now (state_of tables.old) → ⊥) × (state_of tables.new ≡ state_of tables.old)) }
    ensures kept { OnOk result (TablesInvariant tables.new) }
{
    if !may(tables, shape, event) {
        return Ok(false);
    }
    make(alloc, tables, shape, event)?;
    Ok(true)
}
