//! What a client asks for (`dso_law/specs/RequestNeeds.antt`).
ghost use Rattle.std.specs.Prelude.{ℕ, ◌≡◌, [], ◌∷◌, IfOk, OnOk, Some, true};
ghost use Rattle.dso_lease.specs.Leases.{after_want, standing_in, with_standing};
ghost use Rattle.dso_law.specs.RequestNeeds.{ask_for, unless_asked};
ghost use Rattle.dso_table.specs.States.{asked as with_asked, is_absent};
ghost use Rattle.dso_table.specs.ObjectTables.{state_in};
ghost use Rattle.dso_client.specs.AskedActs.{HasAsked, IsMissing, asked};
ghost use Rattle.dso_client.specs.StateStands.{StateStands, ClientPartsStand};
ghost use Rattle.dso_client.specs.UnmetNeeds.{need_of};
ghost use Rattle.dso_client.specs.RunPoints.{RunPoint};

use crate::client_state::ClientState;
use crate::lock_state::LockState;
use crate::unmet_need::UnmetNeed;
use dso_base::{Level, LockName, NoMemory, ThreadId, Up};
use dso_table::Table;
use std::alloc::Global;

/// The message, where the test doesn't hold.
fn unless_asked(is_asked: bool, message: Up) -> Option<Up>
    ensures { result ≡ unless_asked is_asked message }
{
    if is_asked { None } else { Some(message) }
}

/// The message that asks for what is lacking, None where nothing is to be asked.
pub(crate) fn ask_for(kept: &ClientState, unmet_need: UnmetNeed) -> Option<Up>
    ensures { (at : RunPoint) → StateStands at kept.now → result ≡ ask_for (need_of unmet_need) at.entries }
{
    match unmet_need {
        UnmetNeed::Id => unless_asked(kept.sequences.is_asking, Up::IdAsk),
        UnmetNeed::Object(object) => unless_asked(kept.table.is_asked(object), Up::Fault(object)),
        UnmetNeed::Lease(lock, level) => {
            let is_asked = kept.lock_state.leases.standing(lock).is_some();
            unless_asked(is_asked, Up::Request(lock, level))
        }
        _ => None,
    }
}

/// A thread asks for an object that is absent.
fn ask_object(
    alloc: Global,
    table: &mut Table,
    object: u64,
    thread: ThreadId,
) -> Result<(), NoMemory>
    ensures { OnOk result (is_absent ((state_in table.old).standing object) ≡ true → state_in table.new ≡ with_asked object thread (state_in table.old)) }
{
    table.ask(alloc, object, thread)?;
    Ok(())
}

/// A thread asks for a lock.
pub(crate) fn ask_lock(
    lock_state: &mut LockState,
    lock: LockName,
    level: Level,
) -> Result<(), NoMemory>
    ensures wanted { OnOk result (standing_in lock_state.new.leases ≡ with_standing lock (Some (after_want level (standing_in lock_state.old.leases lock))) (standing_in lock_state.old.leases)) }
    ensures holds { lock_state.new.holds ≡ lock_state.old.holds }
    ensures lists { lock_state.new.lists ≡ lock_state.old.lists }
{
    lock_state.leases.want(lock, level, false)?;
    Ok(())
}

/// What is kept once a thread of the client asked with this message, which asks for what is missing.
///
/// It answers `NoMemory` where an allocation was refused.
fn ask(
    alloc: Global,
    kept: &mut ClientState,
    thread: ThreadId,
    message: &Up,
) -> Result<(), NoMemory>
    ensures parts { OnOk result ((clock : ℕ) (at : RunPoint) → StateStands at kept.old → thread.client ≡ at.client → IsMissing at.entries message.now
        → ClientPartsStand (asked clock thread.index message.now at) kept.new) }
    ensures contexts { kept.new.contexts ≡ kept.old.contexts }
    ensures records { kept.new.sequences.records ≡ kept.old.sequences.records }
    ensures holds { kept.new.lock_state.holds ≡ kept.old.lock_state.holds }
    ensures spent { kept.new.spent ≡ kept.old.spent }
{
    kept.table.acted(thread);
    match message {
        Up::IdAsk => {
            kept.sequences.is_asking = true;
            Ok(())
        }
        Up::Fault(object) => ask_object(alloc, &mut kept.table, *object, thread),
        Up::Request(lock, level) => ask_lock(&mut kept.lock_state, *lock, *level),
        _ => Ok(()),
    }
}

/// The act of the client's thread of this index that only asks, with this message, where that is its turn: whatever
/// entries the client stood for, it stands for them with the entry that asks. It sends the message alone.
///
/// It answers `NoMemory` where an allocation was refused.
pub(crate) fn act_asking(
    alloc: Global,
    kept: &mut ClientState,
    index: u8,
    message: Up,
) -> Result<Vec<Up>, NoMemory>
    ensures sent { IfOk result (λ sent. sent.items ≡ message ∷ []) }
    ensures stands { OnOk result (HasAsked index message kept.old kept.new) }
    ensures contexts { kept.new.contexts ≡ kept.old.contexts }
    ensures records { kept.new.sequences.records ≡ kept.old.sequences.records }
    ensures holds { kept.new.lock_state.holds ≡ kept.old.lock_state.holds }
    ensures spent { kept.new.spent ≡ kept.old.spent }
{
    let thread = ThreadId {
        client: kept.number,
        index,
    };
    ask(alloc, kept, thread, &message)?;
    let mut sent = Vec::new(alloc);
    sent.push(message)?;
    Ok(sent)
}
