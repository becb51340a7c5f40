//! What an answered request makes of the work that a thread has in hand (`dso_base/specs/Block.antt`).
ghost use Rattle.std.specs.Prelude.{◌≡◌, IfOk, OnOk};
ghost use Rattle.dso_base.specs.Block.{Work, put, start, work_by};
ghost use Rattle.dso_change.specs.Hands.{IsOnce, hand_of, record_from};
ghost use Rattle.dso_txn.specs.InHand.{hand_in};

use crate::answered::Answered;
use crate::thread_context::ThreadContext;
use dso_base::{Choice, Ending, LockName, NoMemory, Note, Reply, Request, Set, Shape, Txn};
use dso_change::{choice_of, opening_body};
use std::alloc::Global;

/// A done put: into a private object it writes that object alone, into a shared one it joins the open block.
///
/// It answers `NoMemory` where an allocation was refused.
fn apply_put(alloc: Global, context: &mut ThreadContext, set: Set) -> Result<(), NoMemory>
    ensures work { OnOk result ((work : Work) → IsOnce work → hand_in context.old.privates context.old.block ≡ hand_of work
        → hand_in context.new.privates context.new.block ≡ hand_of (put set.object set.field set.value work)) }
    ensures rest { context.new ≡ record context.old { privates = context.new.privates; block = context.new.block } }
{
    if context.privates.get(set.object).is_some() {
        context.privates.set(alloc, set);
        return Ok(());
    }
    context.block.put(alloc, &mut context.privates, set)
}

/// What an answered request makes of the work that its thread has in hand.
///
/// It answers `NoMemory` where an allocation was refused.
pub(crate) fn apply_to_hand(
    alloc: Global,
    shape: &Shape,
    context: &mut ThreadContext,
    act: Answered,
) -> Result<(), NoMemory>
    ensures work { OnOk result ((work : Work) → IsOnce work → hand_in context.old.privates context.old.block ≡ hand_of work
        → hand_in context.new.privates context.new.block ≡ hand_of (work_by shape.now act.request act.reply act.woken work)) }
    ensures rest { context.new ≡ record context.old { privates = context.new.privates; block = context.new.block } }
{
    match (act.request, act.reply) {
        (Request::New(class, size), Reply::Made(object)) => {
            let body = opening_body(alloc, shape, class, size, object)?;
            context.privates.add(body)
        }
        (Request::Put(object, field, value), Reply::Done) => {
            let set = Set {
                object,
                field,
                value,
            };
            apply_put(alloc, context, set)
        }
        (Request::Notify(lock), Reply::Done) => {
            let choice = choice_of(act.woken);
            context.block.note(Note { lock, choice })
        }
        (Request::NotifyAll(lock), Reply::Done) => {
            let choice = Choice::All;
            context.block.note(Note { lock, choice })
        }
        (Request::Print(value), Reply::Done) => context.block.print(value),
        _ => Ok(()),
    }
}

/// The thread's open block is closed: the record of the work in hand, with this number and this ending. Its private
/// objects stay, and the block is empty then.
///
/// It answers `NoMemory` where an allocation was refused.
pub(crate) fn close(
    alloc: Global,
    context: &mut ThreadContext,
    seq: u64,
    ending: Ending,
) -> Result<Txn, NoMemory>
    ensures closed { IfOk result (λ txn. (work : Work) → IsOnce work → hand_in context.old.privates context.old.block ≡ hand_of work
        → txn ≡ record_from seq context.old.id work ending) }
    ensures left { (work : Work) → hand_in context.old.privates context.old.block ≡ hand_of work
        → hand_in context.new.privates context.new.block ≡ hand_of (start work.privates) }
    ensures rest { context.new ≡ record context.old { block = context.new.block } }
{
    let mut txn = context.block.close(alloc, seq, ending)?;
    txn.thread = context.id;
    Ok(txn)
}
