//! An act of a thread whose request is answered (`dso_law/specs/ClientStep.antt`).
ghost use Rattle.std.specs.Prelude.{ℕ, ◌≡◌, ◌≢◌, ◌≤◌, ◌<◌, ◌+◌, ◌-◌, ◌^◌, suc, IfOk, None, OnOk, Option, Some, map, true};
ghost use Rattle.std.specs.List.{list_any};
ghost use Rattle.std.specs.Option.{option_and_then};
ghost use Rattle.dso_base.specs.Following.{IsListedFor, is_thread};
ghost use Rattle.dso_base.specs.declared.record.Txn as txn;
ghost use Rattle.dso_law.specs.ClientStep.{commits};
ghost use Rattle.dso_law.specs.Settings.{threads_of};
ghost use Rattle.dso_law.specs.Threads.{locks_of};
ghost use Rattle.dso_machine.specs.Sound.{IsSoundCode};
ghost use Rattle.dso_client.specs.ThreadActs.{HoldsAtMost};
ghost use Rattle.dso_client.specs.AnsweredActs.{HasAnswered, IsAnswering, StandsHandedIn, StandsApplied, StandsSent, TellsClosing};
ghost use Rattle.dso_client.specs.CodeRuns.{RunsCode};
ghost use Rattle.dso_client.specs.LockEntries.{count_owed};
ghost use Rattle.dso_client.specs.ThreadProgress.{HasGoneOn, next_at, with_next};
ghost use Rattle.dso_client.specs.SentRecords.{MaySend, changed_context, with_record};
ghost use Rattle.dso_client.specs.Openings.{thread_at};
ghost use Rattle.dso_client.specs.StateStands.{ClientPartsStand};
ghost use Rattle.dso_client.specs.ActEffects.{CountsAtMost, acting, event_of, applied};
ghost use Rattle.dso_client.specs.ContextEffects.{ApplyTo};
ghost use Rattle.dso_client.specs.LockStateStands.{LockStateStands};
ghost use Rattle.dso_client.specs.RunPoints.{RunPoint};
ghost use Rattle.dso_client.specs.LeaseReturns.{AreNextOfOthers, record_sent};
ghost use Rattle.dso_client.specs.RunFacts.{RunFacts};
ghost use Rattle.dso_client.specs.ContextPlaces.{running, context_in};
ghost use Rattle.dso_client.specs.TakenMessages.{IsQuiet};
ghost use Rattle.dso_client.specs.Turns.{AnswersNext};
ghost use Rattle.dso_base.specs.declared.lock.ThreadId as thread;
ghost use Rattle.dso_base.specs.declared.request.Request as request;

use crate::answered::{Answered, ending_of};
use crate::client_state::ClientState;
use crate::context_effect::apply_to_contexts;
use crate::lease_return::{Onward, ask_again, settle_act};
use crate::lock_state_effect::apply_to_lock_state;
use crate::locks::is_closing;
use crate::object_effect::apply_to_objects;
use crate::sent_record::send_record;
use crate::thread_context::{Waiting, context_at};
use crate::thread_progress::{go_on_at, set_next};
use dso_base::{Level, NoMemory, Request, Shape, Shared, Txn, Up};
use dso_machine::Code;
use std::alloc::Global;

/// The lock that the thread of this index waits on.
fn waiting_at(kept: &ClientState, index: u8) -> Option<Waiting>
    ensures { result ≡ option_and_then (λ context. context.waiting) (context_in kept.now.contexts.items index) }
{
    match context_at(kept, index) {
        Some(context) => context.waiting,
        None => None,
    }
}

/// What an answered request makes of what is kept of the threads but their work, and of the locks; the threads first,
/// by the locks as they were.
///
/// It answers `NoMemory` where an allocation was refused.
fn apply_to_threads(
    alloc: Global,
    kept: &mut ClientState,
    act: Answered,
    waiting: Option<Waiting>,
) -> Result<(), NoMemory>
    requires counts { CountsAtMost (2 ^ 32 - 2) kept.old.lock_state.holds }
    ensures contexts { ApplyTo kept.old.lock_state act kept.old.contexts.items kept.new.contexts.items }
    ensures lock_state { OnOk result ((clock : ℕ) (at : RunPoint) → LockStateStands at kept.old.lock_state → RunFacts at → waiting ≡ (locks_of act.thread at.entries).waiting
        → AnswersNext at act.thread act.request act.reply act.woken → LockStateStands (applied clock act at) kept.new.lock_state) }
    ensures most { OnOk result ((most : ℕ) → CountsAtMost most kept.old.lock_state.holds → count_owed waiting ≤ most → CountsAtMost (suc most) kept.new.lock_state.holds) }
    ensures others { kept.new ≡ record kept.old { contexts = kept.new.contexts; lock_state = kept.new.lock_state } }
{
    apply_to_contexts(&kept.lock_state, kept.contexts.as_mut_slice(), act);
    apply_to_lock_state(alloc, &mut kept.lock_state, act, waiting)
}

/// What an answered request makes of all that is kept but the thread's next request, before anything is sent; and the
/// record that is to be sent, where the act is an ending.
///
/// It answers `NoMemory` where an allocation was refused.
fn apply(
    alloc: Global,
    kept: &mut ClientState,
    shape: &Shape,
    act: Answered,
) -> Result<Option<Txn>, NoMemory>
    requires few { kept.old.sequences.records < 2 ^ 62 }
    requires there { context_in kept.old.contexts.items act.thread.index ≢ None }
    requires counts { HoldsAtMost (2 ^ 32 - 2) kept.old }
    ensures stands { IfOk result (λ txn. (clock : ℕ) (at : RunPoint) → IsAnswering at shape.now act kept.old → StandsApplied clock at act txn kept.new) }
    ensures runs { OnOk result (map running kept.new.contexts.items ≡ map running kept.old.contexts.items) }
    ensures records { OnOk result (kept.new.sequences.records ≡ kept.old.sequences.records) }
    ensures holds { OnOk result ((most : ℕ) → HoldsAtMost most kept.old → HoldsAtMost (suc most) kept.new) }
    ensures spent { kept.new.spent ≡ kept.old.spent }
{
    let index = act.thread.index;
    let ending = ending_of(&kept.lock_state, act);
    let waiting = waiting_at(kept, index);
    let txn = apply_to_objects(alloc, kept, shape, act, ending)?;
    apply_to_threads(alloc, kept, act, waiting)?;
    Ok(txn)
}

/// The record of the thread of this index is sent.
///
/// It answers `NoMemory` where an allocation was refused.
fn hand_over(
    alloc: Global,
    kept: &mut ClientState,
    index: u8,
    txn: Txn,
) -> Result<Vec<Up>, NoMemory>
    requires few { kept.old.sequences.records < 2 ^ 62 }
    ensures stands { IfOk result (λ sent. (clock : ℕ) (act : Answered) (at : RunPoint) → ClientPartsStand (applied clock act at) kept.old → MaySend at txn
        → txn.thread ≡ thread_at at.client index → StandsHandedIn clock at act (Some txn) sent.items kept.new) }
    ensures contexts { OnOk result (kept.new.contexts.items ≡ changed_context index (with_record txn.seq) kept.old.contexts.items) }
    ensures lock_state { kept.new.lock_state ≡ kept.old.lock_state }
    ensures records { OnOk result (kept.new.sequences.records ≤ kept.old.sequences.records + 1) }
    ensures spent { kept.new.spent ≡ kept.old.spent }
{
    send_record(alloc, kept, index, &txn)?;
    let mut sent = Vec::new(alloc);
    sent.push(Up::Commit(Shared::new(alloc, txn)?))?;
    Ok(sent)
}

/// The record of the thread of this index is sent, where there is one.
///
/// It answers `NoMemory` where an allocation was refused.
fn hand_in(
    alloc: Global,
    kept: &mut ClientState,
    index: u8,
    txn: Option<Txn>,
) -> Result<Vec<Up>, NoMemory>
    requires few { kept.old.sequences.records < 2 ^ 62 }
    ensures stands { IfOk result (λ sent. (clock : ℕ) (act : Answered) (at : RunPoint) → ClientPartsStand (applied clock act at) kept.old → RunFacts at
        → act.thread ≡ thread_at at.client index → record_sent txn ≡ commits at.settings act.thread (event_of act) at.entries
        → StandsHandedIn clock at act txn sent.items kept.new) }
    ensures runs { OnOk result (map running kept.new.contexts.items ≡ map running kept.old.contexts.items) }
    ensures waits { OnOk result (map (λ context. context.waiting) kept.new.contexts.items ≡ map (λ context. context.waiting) kept.old.contexts.items) }
    ensures lock_state { kept.new.lock_state ≡ kept.old.lock_state }
    ensures records { OnOk result (kept.new.sequences.records ≤ kept.old.sequences.records + 1) }
    ensures spent { kept.new.spent ≡ kept.old.spent }
{
    match txn {
        Some(txn) => hand_over(alloc, kept, index, txn),
        None => Ok(Vec::new(alloc)),
    }
}

/// The thread of this index hears the reply; its next request, None where it has ended.
///
/// It answers `NoMemory` where an allocation was refused.
fn go_on_in(
    alloc: Global,
    code: &Code,
    kept: &mut ClientState,
    act: Answered,
) -> Result<Option<Request>, NoMemory>
    requires sound { IsSoundCode code.now }
    requires runs { RunsCode code.now kept.old }
    requires listed { IsListedFor (next_at kept.old.contexts.items act.thread.index) act.reply }
    ensures goes { IfOk result (HasGoneOn code.now act.thread.index act.reply kept.old.contexts.items kept.new.contexts.items) }
    ensures others { kept.new ≡ record kept.old { contexts = kept.new.contexts } }
{
    go_on_at(
        alloc,
        code,
        kept.contexts.as_mut_slice(),
        act.thread.index,
        act.reply,
    )
}

/// The thread of this index has this next request. It takes no memory.
fn set_next_in(kept: &mut ClientState, index: u8, next: Option<Request>)
    ensures contexts { kept.new.contexts.items ≡ with_next index next kept.old.contexts.items }
    ensures others { kept.new ≡ record kept.old { contexts = kept.new.contexts } }
{
    set_next(kept.contexts.as_mut_slice(), index, next);
}

/// Whether the lease of the lock is closing that the request enters at `Write`.
fn closes(kept: &ClientState, next: Option<Request>) -> bool
    ensures { (at : RunPoint) → ClientPartsStand at kept.now → TellsClosing at next result }
{
    match next {
        Some(Request::Enter(lock, Level::Write)) => is_closing(kept, lock),
        _ => false,
    }
}

/// Behind the record that an act sent, the leases that it gives back and the request for one of them, where the acting
/// thread next wants it; the next requests are those after the act.
///
/// It answers `NoMemory` where an allocation was refused.
fn send_rest(
    alloc: Global,
    kept: &mut ClientState,
    act: Answered,
    onward: Onward,
    sent: Vec<Up>,
) -> Result<Vec<Up>, NoMemory>
    ensures stands { IfOk result (λ all. (clock : ℕ) (txn : Option txn.Txn) (later : thread.ThreadId → Option request.Request) (at : RunPoint)
        → ClientPartsStand (acting clock act (record_sent txn) later at) kept.old → IsQuiet at → RunFacts at
        → list_any (is_thread act.thread) (threads_of at.settings at.client) ≡ true → onward.next ≡ later act.thread → AreNextOfOthers act.thread at.next later
        → TellsClosing at onward.next onward.was_closing
        → sent.items ≡ record_sent txn → StandsSent clock at act txn later all.items kept.new) }
    ensures others { kept.new ≡ record kept.old { lock_state = kept.new.lock_state } }
    ensures holds { kept.new.lock_state.holds ≡ kept.old.lock_state.holds }
{
    let mut returned = settle_act(alloc, kept, act, onward.next)?;
    let again = ask_again(kept, onward, returned.as_slice())?;
    let mut all = sent;
    all.append(&mut returned)?;
    if let Some(message) = again {
        all.push(message)?;
    }
    Ok(all)
}

/// The act of a thread whose request is answered, and what it sends: the record of its block where the act is an
/// ending, the leases to be given back, and the request for one of them that the thread next wants.
///
/// It answers `NoMemory` where an allocation was refused.
pub(crate) fn act_answering(
    alloc: Global,
    code: &Code,
    kept: &mut ClientState,
    act: Answered,
) -> Result<Vec<Up>, NoMemory>
    requires sound { IsSoundCode code.now }
    requires runs { RunsCode code.now kept.old }
    requires listed { IsListedFor (next_at kept.old.contexts.items act.thread.index) act.reply }
    requires few { kept.old.sequences.records < 2 ^ 62 }
    requires counts { HoldsAtMost (2 ^ 32 - 2) kept.old }
    ensures stands { IfOk result (λ sent. HasAnswered code.now act kept.old kept.new sent.items) }
    ensures runs { OnOk result (RunsCode code.now kept.new) }
    ensures records { OnOk result (kept.new.sequences.records ≤ kept.old.sequences.records + 1) }
    ensures holds { OnOk result ((most : ℕ) → HoldsAtMost most kept.old → HoldsAtMost (suc most) kept.new) }
    ensures spent { kept.new.spent ≡ kept.old.spent }
{
    let index = act.thread.index;
    let next = go_on_in(alloc, code, kept, act)?;
    let was_closing = closes(kept, next);
    let onward = Onward { next, was_closing };
    let txn = apply(alloc, kept, &code.shape, act)?;
    let sent = hand_in(alloc, kept, index, txn)?;
    set_next_in(kept, index, next);
    send_rest(alloc, kept, act, onward, sent)
}
