//! What an answered request makes of the objects, the ids and the work that its thread has in hand
//! (`specs/SentRecords.antt`, `dso_law/specs/UseOrder.antt`).
ghost use Rattle.std.specs.Prelude.{ℕ, ◌≡◌, ◌≢◌, ◌||◌, ◌<◌, ◌^◌, suc, None, IfOk, IfSome, OnOk};
ghost use Rattle.dso_law.specs.ClientStep.{commits};
ghost use Rattle.dso_law.specs.Records.{records};
ghost use Rattle.dso_law.specs.UseOrder.{object_used};
ghost use Rattle.dso_table.specs.ObjectTables.{state_in};
ghost use Rattle.dso_client.specs.SentRecords.{IsApplied, HasWork, IsActing, Applies, WorksAlone, ending_in, has_in_hand, used_by};
ghost use Rattle.dso_client.specs.ActEffects.{event_of, applied};
ghost use Rattle.dso_client.specs.RunPoints.{RunPoint};
ghost use Rattle.dso_client.specs.LeaseReturns.{record_sent};
ghost use Rattle.dso_client.specs.ContextPlaces.{context_in};

use crate::act_effect::{apply_to_sequences, apply_to_table};
use crate::answered::{Answered, BlockEnd, block_end};
use crate::client_state::ClientState;
use crate::hand_effect::{apply_to_hand, close};
use crate::thread_context::ThreadContext;
use dso_base::{Ending, NoMemory, Request, Shape, Txn};
use dso_table::Table;
use std::alloc::Global;

/// The object that a look, a get or a put is of.
fn object_used(request: Request) -> Option<u64>
    ensures { result ≡ object_used request }
{
    match request {
        Request::Look(object) | Request::Get(object, _) | Request::Put(object, ..) => Some(object),
        _ => None,
    }
}

/// Whether the thread has the object in hand: it is private to it, or published in its open block.
fn has_in_hand(context: &ThreadContext, object: u64) -> bool
    ensures { result ≡ has_in_hand context.now object }
{
    context.privates.get(object).is_some() || context.block.body(object).is_some()
}

/// The object of a look, a get or a put was used, where the thread hasn't it in hand.
///
/// It answers `NoMemory` where an allocation was refused.
fn apply_use(table: &mut Table, context: &ThreadContext, request: Request) -> Result<(), NoMemory>
    ensures { OnOk result (state_in table.new ≡ used_by context.now (object_used request) (state_in table.old)) }
{
    match object_used(request) {
        Some(object) => {
            if has_in_hand(context, object) {
                Ok(())
            } else {
                table.used(object)
            }
        }
        None => Ok(()),
    }
}

/// What an answered request makes of the work that its thread has in hand; where the act is an ending, the block is
/// closed, which gives the record.
///
/// It answers `NoMemory` where an allocation was refused.
fn apply_to_context(
    alloc: Global,
    shape: &Shape,
    context: &mut ThreadContext,
    act: Answered,
    end: Option<BlockEnd>,
) -> Result<Option<Txn>, NoMemory>
    ensures work { OnOk result ((clock : ℕ) (at : RunPoint) → IsActing at shape.now act (ending_in end) context.old → HasWork (applied clock act at) context.new) }
    ensures commits { IfOk result (λ txn. (at : RunPoint) → IsActing at shape.now act (ending_in end) context.old → IfSome end (λ end. end.seq ≡ suc (records at.entries))
        → record_sent txn ≡ commits at.settings act.thread (event_of act) at.entries) }
    ensures rest { context.new ≡ record context.old { privates = context.new.privates; block = context.new.block } }
{
    apply_to_hand(alloc, shape, context, act)?;
    match end {
        Some(end) => {
            let txn = close(alloc, context, end.seq, end.ending)?;
            Ok(Some(txn))
        }
        None => Ok(None),
    }
}

/// What an answered request makes of the objects, the ids and the work that its thread has in hand; and the record that
/// is to be sent, where the act is an ending. The contexts stay but for that work.
///
/// It answers `NoMemory` where an allocation was refused.
pub(crate) fn apply_to_objects(
    alloc: Global,
    kept: &mut ClientState,
    shape: &Shape,
    act: Answered,
    ending: Option<Ending>,
) -> Result<Option<Txn>, NoMemory>
    requires few { kept.old.sequences.records < 2 ^ 62 }
    requires there { context_in kept.old.contexts.items act.thread.index ≢ None }
    ensures applied { IfOk result (λ txn. (clock : ℕ) (at : RunPoint) → Applies at shape.now act act.thread.index ending kept.old → IsApplied clock at act act.thread.index txn kept.new) }
    ensures alone { OnOk result (WorksAlone act.thread.index kept.old.contexts.items kept.new.contexts.items) }
    ensures number { kept.new.number ≡ kept.old.number }
    ensures lock_state { kept.new.lock_state ≡ kept.old.lock_state }
    ensures records { kept.new.sequences.records ≡ kept.old.sequences.records }
    ensures spent { kept.new.spent ≡ kept.old.spent }
{
    let at = act.thread.index as usize - 1;
    let end = block_end(kept.sequences.records + 1, ending);
    let contexts = kept.contexts.as_mut_slice();
    apply_use(&mut kept.table, &contexts[at], act.request)?;
    apply_to_table(alloc, &mut kept.table, act, ending.is_some())?;
    apply_to_sequences(&mut kept.sequences, act);
    let txn = apply_to_context(alloc, shape, &mut contexts[at], act, end)?;
    Ok(txn)
}
