//! What a thread's turn comes to (`specs/Turns.antt`).
ghost use Rattle.std.specs.List.{list_any};
ghost use Rattle.std.specs.Prelude.{ℕ, ◌≡◌, Some, None, true, false};
ghost use Rattle.dso_law.specs.ClientStep.{can_act, may_act};
ghost use Rattle.dso_base.specs.declared.lock.ThreadId.{ThreadId};
ghost use Rattle.dso_base.specs.declared.request.Request.{Request};
ghost use Rattle.dso_base.specs.Following.{is_thread};
ghost use Rattle.dso_law.specs.RequestNeeds.{unmet};
ghost use Rattle.dso_client.specs.UnmetNeeds.{TellsNeed};
ghost use Rattle.dso_client.specs.Turns.{IsTurn, IsTurnOf, IsListedTurn, IsTurnOfContext, field_turn, is_of_object};
ghost use Rattle.dso_client.specs.ContextPlaces.{context_in};
ghost use Rattle.dso_base.specs.declared.request.Request.TheVariants as request;
ghost use Rattle.dso_base.specs.declared.value.ClassId.{ClassId};
ghost use Rattle.dso_base.specs.declared.value.Value.{Value};
ghost use Rattle.dso_law.specs.Settings.{threads_of};
ghost use Rattle.dso_client.specs.Openings.{thread_at};
ghost use Rattle.dso_client.specs.StateStands.{StateStands};
ghost use Rattle.dso_client.specs.RunPoints.{RunPoint};
ghost use Rattle.dso_client.specs.RunFacts.{SizesAreKept};
ghost use Rattle.dso_client.specs.ContextStands.{ContextStands};

use crate::asked_act::ask_for;
use crate::cause::{Cause, cause_of};
use crate::client_state::ClientState;
use crate::reply::{get_reply, has_reply, look_reply, new_reply, put_reply, reply, woken};
use crate::thread_context::{ThreadContext, context_at};
use crate::unmet_need::{UnmetNeed, access_unmet_need, first_unmet_need};
use dso_base::{Reply, Request, Shape, ThreadId, Up};

/// What the turn of a thread comes to.
#[derive(Drop)]
pub(crate) enum Turn {
    /// Its request is answered, and the act wakes this thread.
    AnswersNext(Reply, Option<ThreadId>),
    /// The client asks for what it lacks.
    Asks(Up),
    /// Neither.
    Waits(Cause),
}

/// The turn of a thread that lacks this.
fn lacking_turn(kept: &ClientState, unmet_need: UnmetNeed) -> Turn
    ensures turn { (at : RunPoint) (t : ThreadId) (request : Request) → StateStands at kept.now
        → TellsNeed at t (unmet at.settings at.client at.next t request at.entries) (Some unmet_need) → IsTurn at t request result }
    ensures listed { (request : Request) → IsListedTurn request result }
{
    match ask_for(kept, unmet_need) {
        Some(message) => Turn::Asks(message),
        None => Turn::Waits(cause_of(unmet_need)),
    }
}

/// A new object takes the next id; where none is left ids are asked for.
fn new_turn(kept: &ClientState) -> Turn
    ensures turn { (at : RunPoint) (t : ThreadId) (class : ClassId) (n : ℕ) → StateStands at kept.now → IsTurn at t (request.New class n) result }
    ensures listed { (class : ClassId) (n : ℕ) → IsListedTurn (request.New class n) result }
{
    match new_reply(&kept.sequences) {
        Some(reply) => Turn::AnswersNext(reply, None),
        None => lacking_turn(kept, UnmetNeed::Id),
    }
}

/// A look tells of an object that is there, the thread's own or resident; one that isn't is asked for.
fn look_turn(kept: &ClientState, context: &ThreadContext, object: u64) -> Turn
    ensures turn { (at : RunPoint) → StateStands at kept.now → ContextStands at context.now → SizesAreKept at → IsTurn at context.now.id (request.Look object) result }
    ensures listed { IsListedTurn (request.Look object) result }
{
    match look_reply(&kept.table, context, object) {
        Some(reply) => Turn::AnswersNext(reply, None),
        None => lacking_turn(kept, UnmetNeed::Object(object)),
    }
}

/// The turn of a thread that reads or writes a field of this object, which is there: where it has no such field there
/// is no reply.
fn field_turn(object: u64, reply: Option<Reply>) -> Turn
    ensures { result ≡ field_turn object reply }
{
    match reply {
        Some(reply) => Turn::AnswersNext(reply, None),
        None => Turn::Waits(Cause::Object(object)),
    }
}

/// A field is read.
fn get_turn(kept: &ClientState, context: &ThreadContext, object: u64, field: u32) -> Turn
    ensures turn { (at : RunPoint) → StateStands at kept.now → ContextStands at context.now → SizesAreKept at → IsTurn at context.now.id (request.Get object field) result }
    ensures listed { IsListedTurn (request.Get object field) result }
{
    match access_unmet_need(&kept.table, context, object) {
        Some(unmet_need) => lacking_turn(kept, unmet_need),
        None => field_turn(object, get_reply(&kept.table, context, object, field)),
    }
}

/// A field is written, or isn't, as the locks allow.
fn put_turn(
    kept: &ClientState,
    shape: &Shape,
    context: &ThreadContext,
    object: u64,
    field: u32,
) -> Turn
    ensures turn { (at : RunPoint) (v : Value) → StateStands at kept.now → ContextStands at context.now → at.settings.shape ≡ shape.now
        → IsTurn at context.now.id (request.Put object field v) result }
    ensures listed { (v : Value) → IsListedTurn (request.Put object field v) result }
{
    match access_unmet_need(&kept.table, context, object) {
        Some(unmet_need) => lacking_turn(kept, unmet_need),
        None => field_turn(object, put_reply(kept, shape, context, object, field)),
    }
}

/// The turn of a thread with a request of another kind, which has a reply once its needs are met.
fn other_turn(kept: &ClientState, context: &ThreadContext, request: Request) -> Turn
    ensures turn { (at : RunPoint) → StateStands at kept.now → ContextStands at context.now → is_of_object request ≡ false → IsTurn at context.now.id request result }
    ensures listed { is_of_object request ≡ false → IsListedTurn request result }
{
    match first_unmet_need(kept, context, request) {
        Some(unmet_need) => lacking_turn(kept, unmet_need),
        None => {
            let reply = reply(kept, context, request);
            Turn::AnswersNext(reply, woken(&kept.lock_state, request, reply))
        }
    }
}

/// What the turn of a thread comes to with this request.
pub(crate) fn turn_of(
    kept: &ClientState,
    shape: &Shape,
    context: &ThreadContext,
    request: Request,
) -> Turn
    ensures turn { (at : RunPoint) → StateStands at kept.now → ContextStands at context.now → SizesAreKept at → at.settings.shape ≡ shape.now
        → IsTurn at context.now.id request result }
    ensures listed { IsListedTurn request result }
{
    match request {
        Request::New(..) => new_turn(kept),
        Request::Look(object) => look_turn(kept, context, object),
        Request::Get(object, field) => get_turn(kept, context, object, field),
        Request::Put(object, field, _) => put_turn(kept, shape, context, object, field),
        _ => other_turn(kept, context, request),
    }
}

/// The next request of a context, and what its turn comes to with it; None where it has none.
fn turn_in(kept: &ClientState, shape: &Shape, context: &ThreadContext) -> Option<(Request, Turn)>
    ensures its { IsTurnOfContext (Some context.now) result }
    ensures turn { (at : RunPoint) → StateStands at kept.now → ContextStands at context.now → SizesAreKept at → at.settings.shape ≡ shape.now
        → IsTurnOf at context.now.id result }
{
    match context.next {
        Some(request) => Some((request, turn_of(kept, shape, context, request))),
        None => None,
    }
}

/// The next request of the client's thread of this index, and what its turn comes to with it; None where the thread has
/// ended. There is such a thread.
pub(crate) fn turn_at(kept: &ClientState, shape: &Shape, index: u8) -> Option<(Request, Turn)>
    ensures its { IsTurnOfContext (context_in kept.now.contexts.items index) result }
    ensures turn { (at : RunPoint) → StateStands at kept.now → SizesAreKept at → at.settings.shape ≡ shape.now
        → list_any (is_thread (thread_at at.client index)) (threads_of at.settings at.client) ≡ true → IsTurnOf at (thread_at at.client index) result }
{
    match context_at(kept, index) {
        Some(context) => turn_in(kept, shape, context),
        None => None,
    }
}

/// Whether the client can answer the request of a thread, or ask for what it lacks.
fn can_do(kept: &ClientState, context: &ThreadContext, request: Request) -> bool
    ensures { (at : RunPoint) → StateStands at kept.now → ContextStands at context.now → SizesAreKept at
        → result ≡ can_act at.settings at.client at.next context.now.id (Some request) at.entries }
{
    match first_unmet_need(kept, context, request) {
        Some(unmet_need) => ask_for(kept, unmet_need).is_some(),
        None => has_reply(kept, context, request),
    }
}

/// Whether the client can answer the next request of a thread, or ask for what it lacks.
pub(crate) fn may_act(kept: &ClientState, context: &ThreadContext) -> bool
    ensures { (at : RunPoint) → StateStands at kept.now → ContextStands at context.now → SizesAreKept at
        → result ≡ may_act at.settings at.client at.next context.now.id at.entries }
{
    match context.next {
        Some(request) => can_do(kept, context, request),
        None => false,
    }
}
