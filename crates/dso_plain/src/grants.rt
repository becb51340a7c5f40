//! When a reply is possible for a request, of monitors and waits, and when an event is possible
//! (`specs/Possible.antt`).
ghost use Rattle.std.specs.Prelude.{◌≡◌, ◌≢◌, ◌↔◌, ◌⊎◌, IsTrue, None};
ghost use Rattle.dso_plain.specs.Possible.{IsPrivateMonitor, IsClusterLock, IsUpgrade, NoConflict, AnswersEnter, AnswersExit, AnswersMonitor, AnswersTick, AnswersTimeout, AnswersResume, AnswersDone, AnswersEnd, AnswersRequest, FindsMark, Wakes, IsAwakeFor, IsPossible, May};
ghost use Rattle.dso_plain.specs.TableInvariants.{IndexesAgree, TablesInvariant};
ghost use Rattle.dso_plain.specs.StepInvariants.{MonitorInvariant};
ghost use Rattle.dso_plain.specs.State.{level_of};
ghost use Rattle.dso_plain.specs.HeapTables.{state_of};

use crate::possible::{Asker, answers_get, answers_look, answers_new, answers_put};
use crate::publish::is_owner;
use crate::reads::{
    first_level, has_no_unmarked, holds_nothing, is_awake, is_free, is_going, is_lost, is_marked,
    is_unmarked, is_waiting, level, object,
};
use crate::tables::HeapTables;
use dso_base::{Event, Fault, Level, LockName, Reply, Request, Shape, ThreadId, Value};

/// Whether the lock is the monitor of a private object of the thread.
fn is_private_monitor(tables: &HeapTables, thread: ThreadId, lock: LockName) -> bool
    ensures { IsTrue result ↔ IsPrivateMonitor thread lock (state_of tables.now) }
{
    match lock {
        LockName::Mon(id) => match object(tables, id) {
            Some(object) => is_owner(thread, object.owner),
            None => false,
        },
        LockName::Name(_) => false,
    }
}

/// Whether the lock is one of the cluster.
fn is_cluster_lock(tables: &HeapTables, lock: LockName) -> bool
    ensures { IsTrue result ↔ IsClusterLock lock (state_of tables.now) }
{
    match lock {
        LockName::Mon(id) => match object(tables, id) {
            Some(object) => object.owner.is_none() && id != 0,
            None => false,
        },
        LockName::Name(_) => true,
    }
}

/// Whether the level is Write and the hold's Read.
fn is_upgrade(tables: &HeapTables, thread: ThreadId, lock: LockName, wanted: Level) -> bool
    ensures { IsTrue result ↔ IsUpgrade wanted ((state_of tables.now).monitors (lock, thread)) }
{
    match (wanted, level(tables, lock, thread)) {
        (Level::Write, Some(Level::Read)) => true,
        _ => false,
    }
}

/// Whether no other thread holds the lock in conflict, for a thread that does not hold it.
fn has_no_conflict(tables: &HeapTables, thread: ThreadId, lock: LockName, wanted: Level) -> bool
    requires kept { MonitorInvariant (state_of tables.now) }
    requires absent { (state_of tables.now).monitors (lock, thread) ≡ None }
    ensures { IsTrue result ↔ NoConflict thread lock wanted (state_of tables.now) }
{
    match (wanted, first_level(tables, lock)) {
        (_, None) => true,
        (Level::Read, Some(Level::Read)) => true,
        _ => false,
    }
}

/// Whether the thread can enter the lock as far as holds go.
fn is_admitted(tables: &HeapTables, thread: ThreadId, lock: LockName, wanted: Level) -> bool
    requires { MonitorInvariant (state_of tables.now) }
    ensures { IsTrue result ↔ (((state_of tables.now).monitors (lock, thread) ≢ None) ⊎ NoConflict thread lock wanted (state_of tables.now)) }
{
    match level(tables, lock, thread) {
        Some(_) => true,
        None => has_no_conflict(tables, thread, lock, wanted),
    }
}

/// Whether the reply is possible for Enter.
fn answers_enter(
    tables: &HeapTables,
    thread: ThreadId,
    lock: LockName,
    wanted: Level,
    reply: Reply,
) -> bool
    requires { MonitorInvariant (state_of tables.now) }
    ensures { IsTrue result ↔ AnswersEnter thread lock wanted reply (state_of tables.now) }
{
    match reply {
        Reply::Local => is_private_monitor(tables, thread, lock),
        Reply::Refused(Fault::LockUpgrade) => is_upgrade(tables, thread, lock, wanted),
        Reply::Done => is_cluster_lock(tables, lock)
            && !is_upgrade(tables, thread, lock, wanted)
            && is_admitted(tables, thread, lock, wanted),
        _ => false,
    }
}

/// Whether the reply is possible for Exit.
fn answers_exit(tables: &HeapTables, thread: ThreadId, lock: LockName, reply: Reply) -> bool
    ensures { IsTrue result ↔ AnswersExit thread lock reply (state_of tables.now) }
{
    match (reply, level(tables, lock, thread)) {
        (Reply::Done, Some(_)) => true,
        _ => false,
    }
}

/// Whether the reply is possible for Wait, Notify and NotifyAll.
fn answers_monitor(tables: &HeapTables, thread: ThreadId, lock: LockName, reply: Reply) -> bool
    ensures { IsTrue result ↔ AnswersMonitor thread lock reply (state_of tables.now) }
{
    match (reply, level(tables, lock, thread)) {
        (Reply::Done, Some(Level::Write)) => true,
        (Reply::Refused(Fault::IllegalMonitor), Some(Level::Read) | None) => true,
        _ => false,
    }
}

/// Whether the reply is possible for Tick, whatever is marked.
fn answers_tick(tables: &HeapTables, thread: ThreadId, lock: LockName, reply: Reply) -> bool
    requires { IndexesAgree tables.now }
    ensures { IsTrue result ↔ AnswersTick thread lock reply (state_of tables.now) }
{
    match reply {
        Reply::Val(Value::Bool(_)) => is_waiting(tables, lock, thread),
        _ => false,
    }
}

/// Whether the reply is possible for Timeout, whatever is marked.
fn answers_timeout(tables: &HeapTables, thread: ThreadId, lock: LockName, reply: Reply) -> bool
    requires { IndexesAgree tables.now }
    ensures { IsTrue result ↔ AnswersTimeout thread lock reply (state_of tables.now) }
{
    match reply {
        Reply::Done | Reply::Val(Value::Bool(true)) => is_waiting(tables, lock, thread),
        _ => false,
    }
}

/// Whether the reply is possible for Resume, whatever is marked.
fn answers_resume(tables: &HeapTables, thread: ThreadId, lock: LockName, reply: Reply) -> bool
    requires { IndexesAgree tables.now }
    ensures { IsTrue result ↔ AnswersResume thread lock reply (state_of tables.now) }
{
    match reply {
        Reply::Done => is_waiting(tables, lock, thread) && is_free(tables, lock),
        _ => false,
    }
}

/// Whether the reply is Done.
fn is_done(reply: Reply) -> bool
    ensures { IsTrue result ↔ AnswersDone reply }
{
    match reply {
        Reply::Done => true,
        _ => false,
    }
}

/// Whether the reply is possible for End.
fn answers_end(tables: &HeapTables, thread: ThreadId, reply: Reply) -> bool
    requires { IndexesAgree tables.now }
    ensures { IsTrue result ↔ AnswersEnd thread reply (state_of tables.now) }
{
    match reply {
        Reply::Done => holds_nothing(tables, thread),
        _ => false,
    }
}

/// Whether the reply is possible for the request, whatever is marked.
fn answers(asker: Asker<'_>, request: Request, reply: Reply) -> bool
    requires { TablesInvariant asker.tables.now }
    ensures { IsTrue result ↔ AnswersRequest asker.entry.shape.now asker.entry.thread request reply (state_of asker.entry.tables.now) }
{
    let tables = asker.tables;
    let thread = asker.thread;
    match request {
        Request::New(class, size) => answers_new(tables, asker.shape, class, size, reply),
        Request::Look(id) => answers_look(tables, thread, id, reply),
        Request::Get(id, field) => answers_get(asker, id, field, reply),
        Request::Put(id, field, _) => answers_put(asker, id, field, reply),
        Request::Enter(lock, level) => answers_enter(tables, thread, lock, level, reply),
        Request::Exit(lock) => answers_exit(tables, thread, lock, reply),
        Request::Wait(lock) | Request::Notify(lock) | Request::NotifyAll(lock) => answers_monitor(
            tables, thread, lock, reply,
        ),
        Request::Tick(lock) => answers_tick(tables, thread, lock, reply),
        Request::Timeout(lock) => answers_timeout(tables, thread, lock, reply),
        Request::Resume(lock) => answers_resume(tables, thread, lock, reply),
        Request::Print(_) | Request::Pause | Request::Settle => is_done(reply),
        Request::End(_) => answers_end(tables, thread, reply),
    }
}

/// Whether the thread's mark is there, where the act asks for it.
fn finds_mark(tables: &HeapTables, request: Request, reply: Reply, thread: ThreadId) -> bool
    ensures { IsTrue result ↔ FindsMark request reply thread (state_of tables.now) }
{
    match (request, reply) {
        (Request::Tick(lock) | Request::Timeout(lock), Reply::Val(Value::Bool(true)))
        | (Request::Resume(lock), _) => is_marked(tables, lock, thread),
        _ => true,
    }
}

/// Whether the act wakes whom it says.
fn wakes(tables: &HeapTables, request: Request, reply: Reply, woken: Option<ThreadId>) -> bool
    requires { IndexesAgree tables.now }
    ensures { IsTrue result ↔ Wakes request reply woken (state_of tables.now) }
{
    match (request, reply, woken) {
        (Request::Notify(lock), Reply::Done, Some(thread)) => is_unmarked(tables, lock, thread),
        (Request::Notify(lock), Reply::Done, None) => has_no_unmarked(tables, lock),
        (_, _, woken) => woken.is_none(),
    }
}

/// Whether the thread is awake, as far as the request needs it.
fn is_awake_for(tables: &HeapTables, request: Request, thread: ThreadId) -> bool
    requires { IndexesAgree tables.now }
    ensures { IsTrue result ↔ IsAwakeFor request thread (state_of tables.now) }
{
    match request {
        Request::Tick(_) | Request::Timeout(_) | Request::Resume(_) => true,
        _ => is_awake(tables, thread),
    }
}

/// Whether the act is possible.
fn is_possible(asker: Asker<'_>, request: Request, reply: Reply, woken: Option<ThreadId>) -> bool
    requires { TablesInvariant asker.tables.now }
    ensures { IsTrue result ↔ IsPossible asker.entry.shape.now asker.entry.thread request reply woken (state_of asker.entry.tables.now) }
{
    let tables = asker.tables;
    let thread = asker.thread;
    !is_lost(tables, thread.client)
        && is_going(tables, thread)
        && is_awake_for(tables, request, thread)
        && answers(asker, request, reply)
        && finds_mark(tables, request, reply, thread)
        && wakes(tables, request, reply, woken)
}

/// Whether the event is possible.
pub(crate) fn may(tables: &HeapTables, shape: &Shape, event: &Event) -> bool
    requires { TablesInvariant tables.now }
    ensures { IsTrue result ↔ May shape.now event.now (state_of tables.now) }
{
    match event {
        Event::Act {
            thread,
            request,
            reply,
            woken,
        } => {
            let thread = *thread;
            let asker = Asker {
                tables,
                shape,
                thread,
            };
            is_possible(asker, *request, *reply, *woken)
        }
        Event::Lost(client) => !is_lost(tables, *client),
    }
}
