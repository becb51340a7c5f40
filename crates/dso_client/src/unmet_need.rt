//! What a thread's next request lacks (`dso_law/specs/RequestNeeds.antt`).
ghost use Rattle.std.specs.Prelude.{◌≡◌, ◌||◌, Some, eqb, is_some};
ghost use Rattle.dso_base.specs.declared.lock.ThreadId.{ThreadId};
ghost use Rattle.dso_base.specs.declared.request.Request.TheVariants as request;
ghost use Rattle.dso_law.specs.Records.{next_id, is_settled};
ghost use Rattle.dso_law.specs.RequestNeeds.{look_need, access_need, entry_need, unmet, unless, is_seen_class, NeedsId, NeedsAck};
ghost use Rattle.dso_client.specs.StateStands.{StateStands};
ghost use Rattle.dso_client.specs.KnownObjects.{KnowsObjects};
ghost use Rattle.dso_client.specs.UnmetNeeds.{TellsNeed};
ghost use Rattle.dso_client.specs.SequencesStand.{SequencesStand};
ghost use Rattle.dso_client.specs.RunPoints.{RunPoint};
ghost use Rattle.dso_client.specs.RunFacts.{RunFacts};
ghost use Rattle.dso_client.specs.ContextStands.{ContextStands};

use crate::client_state::ClientState;
use crate::known_objects::{copy_class, is_resident, is_seen_class};
use crate::locks::{WantedEntry, admits, level_held};
use crate::sequences::Sequences;
use crate::thread_context::ThreadContext;
use dso_base::{ClassId, Level, LockName, Request, ThreadId};
use dso_table::Table;

/// What a request can lack: an id; that the object is resident; that it has the class and size that the thread saw; the
/// thread's mark; a lease of this level that admits; that this other thread leaves the lock, which is wanted at the
/// level; the acknowledgement of the thread's last record.
#[derive(Clone, Copy, Debug, PartialEq, Eq)]
pub enum UnmetNeed {
    Id,
    Object(u64),
    Class(u64),
    Mark(LockName),
    Lease(LockName, Level),
    OthersOut(LockName, Level, ThreadId),
    Ack(u64),
}

/// An object that isn't the thread's own is to be resident.
fn look_unmet_need(table: &Table, context: &ThreadContext, object: u64) -> Option<UnmetNeed>
    ensures { (at : RunPoint) → KnowsObjects at table.now context.now → TellsNeed at context.now.id (look_need at.settings at.client at.next context.now.id object at.entries) result }
{
    if context.owns(object) || is_resident(table, object) {
        None
    } else {
        Some(UnmetNeed::Object(object))
    }
}

/// Whether an object of this class and size is such as the thread's latest look saw it. The object of the roots is.
fn is_as_seen(object: u64, class: (ClassId, usize), seen: Option<(ClassId, u32)>) -> bool
    ensures { result ≡ (eqb object 0 || is_seen_class (Some class) seen) }
{
    object == 0 || is_seen_class(Some(class), seen)
}

/// An object that is read or written, and isn't the thread's own, is also to be of the class and size that the thread
/// saw. It is looked up once.
pub(crate) fn access_unmet_need(
    table: &Table,
    context: &ThreadContext,
    object: u64,
) -> Option<UnmetNeed>
    ensures { (at : RunPoint) → KnowsObjects at table.now context.now → TellsNeed at context.now.id (access_need at.settings at.client at.next context.now.id object at.entries) result }
{
    if context.owns(object) {
        return None;
    }
    match copy_class(table, object) {
        Some(class) if is_as_seen(object, class, context.seen) => None,
        Some(_) => Some(UnmetNeed::Class(object)),
        None => Some(UnmetNeed::Object(object)),
    }
}

/// A new object needs an id.
fn new_unmet_need(sequences: &Sequences) -> Option<UnmetNeed>
    ensures { (at : RunPoint) (t : ThreadId) → SequencesStand at sequences.now → TellsNeed at t (unless (is_some (next_id at.entries)) NeedsId) result }
{
    if sequences.pool.next() < sequences.pool.end() {
        None
    } else {
        Some(UnmetNeed::Id)
    }
}

/// The thread goes on where its last record is acknowledged.
fn settle_unmet_need(sequences: &Sequences, context: &ThreadContext) -> Option<UnmetNeed>
    ensures { (at : RunPoint) → SequencesStand at sequences.now → ContextStands at context.now → RunFacts at
        → TellsNeed at context.now.id (unless (is_settled context.now.id at.entries) NeedsAck) result }
{
    match context.last_record {
        Some(seq) if sequences.unacked.keeps(seq) => Some(UnmetNeed::Ack(seq)),
        _ => None,
    }
}

/// An outer entry needs a lease that admits it, and then that no other thread of the client holds the lock in conflict.
fn entry_unmet_need(kept: &ClientState, wanted: WantedEntry) -> Option<UnmetNeed>
    ensures { (at : RunPoint) → StateStands at kept.now
        → TellsNeed at wanted.thread (entry_need at.settings at.client at.next wanted.thread wanted.lock wanted.level at.entries) result }
{
    if !admits(kept, wanted.lock, wanted.level) {
        return Some(UnmetNeed::Lease(wanted.lock, wanted.level));
    }
    let holds = &kept.lock_state.holds;
    match holds.conflict(wanted.thread, wanted.lock, wanted.level) {
        Some(other) => Some(UnmetNeed::OthersOut(wanted.lock, wanted.level, other)),
        None => None,
    }
}

/// An entry needs nothing at a monitor of a private object, nor where the thread holds the lock.
fn enter_unmet_need(
    kept: &ClientState,
    context: &ThreadContext,
    lock: LockName,
    level: Level,
) -> Option<UnmetNeed>
    ensures { (at : RunPoint) → StateStands at kept.now → ContextStands at context.now
        → TellsNeed at context.now.id (unmet at.settings at.client at.next context.now.id (request.Enter lock level) at.entries) result }
{
    if context.is_local(lock) || level_held(&kept.lock_state, context.id, lock).is_some() {
        None
    } else {
        entry_unmet_need(
            kept,
            WantedEntry {
                thread: context.id,
                lock,
                level,
            },
        )
    }
}

/// A thread that waits goes on once it is marked and may enter the lock at `Write`.
fn resume_unmet_need(
    kept: &ClientState,
    context: &ThreadContext,
    lock: LockName,
) -> Option<UnmetNeed>
    ensures { (at : RunPoint) → StateStands at kept.now → ContextStands at context.now
        → TellsNeed at context.now.id (unmet at.settings at.client at.next context.now.id (request.Resume lock) at.entries) result }
{
    if !context.is_marked {
        return Some(UnmetNeed::Mark(lock));
    }
    entry_unmet_need(
        kept,
        WantedEntry {
            thread: context.id,
            lock,
            level: Level::Write,
        },
    )
}

/// The first need of the request that isn't met, None where all are.
pub(crate) fn first_unmet_need(
    kept: &ClientState,
    context: &ThreadContext,
    request: Request,
) -> Option<UnmetNeed>
    ensures { (at : RunPoint) → StateStands at kept.now → ContextStands at context.now
        → TellsNeed at context.now.id (unmet at.settings at.client at.next context.now.id request at.entries) result }
{
    match request {
        Request::New(..) => new_unmet_need(&kept.sequences),
        Request::Look(object) => look_unmet_need(&kept.table, context, object),
        Request::Get(object, _) => access_unmet_need(&kept.table, context, object),
        Request::Put(object, ..) => access_unmet_need(&kept.table, context, object),
        Request::Enter(lock, level) => enter_unmet_need(kept, context, lock, level),
        Request::Resume(lock) => resume_unmet_need(kept, context, lock),
        Request::Settle => settle_unmet_need(&kept.sequences, context),
        _ => None,
    }
}
