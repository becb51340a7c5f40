//! What one event makes of the private objects and of the open block (`dso_base/specs/Block.antt`).
ghost use Rattle.std.specs.Prelude.{◌≡◌, ◌∷◌, OnOk};
ghost use Rattle.dso_base.specs.Block.{Work, put, noted, choice_of, opening_body, work_by, work_after};
ghost use Rattle.dso_change.specs.Hands.{hand_in, hand_of, IsOnce};
ghost use Rattle.dso_change.specs.Events.{IsNew, IsNewIn};

use crate::bodies::set_in;
use crate::draft::{self, Draft};
use crate::opening::opening_body;
use dso_base::{
    Body, Choice, ClassId, Event, NoMemory, Note, Reply, Request, Set, Shape, ThreadId,
};
use std::alloc::Global;
use std::collections::BTreeMap;

/// What a New made: an object of this class and size, by its id.
#[derive(Clone, Copy)]
struct NewObject {
    class: ClassId,
    size: u32,
    id: u64,
}

/// An act: what the thread asked for, what it was answered, and whom it woke.
#[derive(Clone, Copy)]
struct Act {
    request: Request,
    reply: Reply,
    woken: Option<ThreadId>,
}

/// A done Put: into a private object it changes that object alone, into a shared one it is gathered.
fn put(
    alloc: Global,
    set: Set,
    privates: &mut BTreeMap<u64, Body>,
    draft: &mut Draft,
) -> Result<(), NoMemory>
    ensures { OnOk result ((work : Work) → IsOnce work → hand_in privates.old draft.old ≡ hand_of work → hand_in privates.new draft.new ≡ hand_of (put set.object set.field set.value work)) }
{
    if privates.contains_key(&set.object) {
        set_in(alloc, privates, set);
        Ok(())
    } else {
        draft::put(alloc, privates, draft, set)
    }
}

/// A New that made the object.
fn make(
    alloc: Global,
    shape: &Shape,
    object: NewObject,
    privates: &mut BTreeMap<u64, Body>,
    draft: &Draft,
) -> Result<(), NoMemory>
    ensures { OnOk result ((work : Work) → hand_in privates.old draft.now ≡ hand_of work → hand_in privates.new draft.now ≡ hand_of (record work { privates = opening_body shape.now object.class object.size object.id ∷ work.privates })) }
{
    let body = opening_body(alloc, shape, object.class, object.size, object.id)?;
    privates.insert(object.id, body)?;
    Ok(())
}

/// Whom a done Notify of a client woke: the thread that it marked, else whom the server finds. It takes no memory.
pub fn choice_of(woken: Option<ThreadId>) -> Choice
    ensures { result ≡ choice_of woken }
{
    match woken {
        Some(thread) => Choice::Here(thread),
        None => Choice::There,
    }
}

/// What an act makes of the two.
fn apply_act(
    alloc: Global,
    shape: &Shape,
    act: Act,
    privates: &mut BTreeMap<u64, Body>,
    draft: &mut Draft,
) -> Result<(), NoMemory>
    ensures { OnOk result ((work : Work) → IsOnce work → IsNewIn act.request act.reply work → hand_in privates.old draft.old ≡ hand_of work → hand_in privates.new draft.new ≡ hand_of (work_by shape.now act.request act.reply act.woken work)) }
{
    match (act.request, act.reply) {
        (Request::New(class, size), Reply::Made(id)) => {
            make(alloc, shape, NewObject { class, size, id }, privates, draft)
        }
        (Request::Put(object, field, value), Reply::Done) => {
            let set = Set {
                object,
                field,
                value,
            };
            put(alloc, set, privates, draft)
        }
        (Request::Print(value), Reply::Done) => {
            draft.outs.push(value)?;
            Ok(())
        }
        (Request::Notify(lock), Reply::Done) => {
            let choice = choice_of(act.woken);
            draft.notes.push(Note { lock, choice })?;
            Ok(())
        }
        (Request::NotifyAll(lock), Reply::Done) => {
            let choice = Choice::All;
            draft.notes.push(Note { lock, choice })?;
            Ok(())
        }
        _ => Ok(()),
    }
}

/// What an event makes of the two: whatever work they stood for, in which its New makes an object that isn't in hand, they
/// stand for that work after the event.
pub(crate) fn apply(
    alloc: Global,
    shape: &Shape,
    event: &Event,
    privates: &mut BTreeMap<u64, Body>,
    draft: &mut Draft,
) -> Result<(), NoMemory>
    ensures { OnOk result ((work : Work) → IsOnce work → IsNew event.now work → hand_in privates.old draft.old ≡ hand_of work → hand_in privates.new draft.new ≡ hand_of (work_after shape.now event.now work)) }
{
    match event {
        Event::Act {
            request,
            reply,
            woken,
            ..
        } => {
            let act = Act {
                request: *request,
                reply: *reply,
                woken: *woken,
            };
            apply_act(alloc, shape, act, privates, draft)
        }
        Event::Lost(_) => Ok(()),
    }
}
