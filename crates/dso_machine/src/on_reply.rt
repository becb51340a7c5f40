//! What is done with a reply.
ghost use Rattle.std.specs.Prelude.{◌≡◌, ℕ, IfOk};
ghost use Rattle.dso_base.specs.declared.value.ClassId.{ClassId};
ghost use Rattle.dso_base.specs.Shape.{kind_of};
ghost use Rattle.dso_machine.specs.declared.code.Code.{Code};
ghost use Rattle.dso_machine.specs.declared.continuation.Frame.{Frame};
ghost use Rattle.dso_machine.specs.declared.continuation.OnReply.{OnReply};
ghost use Rattle.dso_machine.specs.Outcome.{State, tell, unwanted};
ghost use Rattle.dso_machine.specs.Continuation.{Takes, locked_at, meant, stepped};
ghost use Rattle.dso_machine.specs.Statements.{put_fitting, ticking};

use crate::call::call_seen;
use crate::continuation::{Call, End, Frame, Locked, Move, Now, OnReply, Step, Task};
use crate::map::{ask_map, map_heard};
use crate::operators::{level_of, lookup, takes, within};
use crate::rest::Rest;
use crate::{Code, FieldRef};
use dso_base::{ClassId, Fault, Grade, Kind, LockName, NoMemory, Reply, Request, Value};
use dso_reply::{AfterExit, AfterWait, Binding, after_exit, after_tick, after_wait, binding_of};
use std::alloc::Global;

/// A reply that isn't the one that is wanted: a refusal is its fault.
pub(crate) fn unwanted(reply: Reply) -> Step
    ensures is { (code : Code) (n k : ℕ) (at : State) → stepped code n k result at ≡ unwanted reply at }
{
    match reply {
        Reply::Refused(fault) => Step::fail(fault),
        _ => Step::fail(Fault::BadValue),
    }
}

/// A request was done.
fn done(reply: Reply) -> Step
    ensures takes { (code : Code) (frame : Frame) → Takes code OnReply.Done reply frame result frame }
{
    match reply {
        Reply::Done => Step::give(Value::Null),
        _ => unwanted(reply),
    }
}

/// An object was made.
fn made(reply: Reply) -> Step
    ensures takes { (code : Code) (frame : Frame) → Takes code OnReply.Made reply frame result frame }
{
    match reply {
        Reply::Made(object) => Step::give(Value::Ref(object)),
        _ => unwanted(reply),
    }
}

/// A value was read.
fn got(reply: Reply) -> Step
    ensures takes { (code : Code) (frame : Frame) → Takes code OnReply.Got reply frame result frame }
{
    match reply {
        Reply::Val(value) => Step::give(value),
        _ => unwanted(reply),
    }
}

/// A field is read of an object of this class and size.
fn field_in(field: FieldRef, object: u64, class: ClassId, size: u32) -> Step
    ensures takes { (code : Code) (frame : Frame) → Takes code (OnReply.Field object field) (Reply.Seen class size) frame result frame }
{
    match class {
        ClassId::Plain(class) => match lookup(field.places.get().as_slice(), class) {
            Some(place) => Step::ask(Request::Get(object, place), OnReply::Got),
            None => Step::fail(Fault::NoSuchField),
        },
        ClassId::Array(_) if field.length => Step::give(Value::Long(i64::from(size))),
        _ => Step::fail(Fault::NoSuchField),
    }
}

/// An object was seen of which a field is read.
fn field_seen(reply: Reply, object: u64, field: FieldRef) -> Step
    ensures takes { (code : Code) (frame : Frame) → Takes code (OnReply.Field object field) reply frame result frame }
{
    match reply {
        Reply::Seen(class, size) => field_in(field, object, class, size),
        _ => unwanted(reply),
    }
}

/// An object was seen of which an element is read.
fn element_seen(reply: Reply, object: u64, index: i64) -> Step
    ensures takes { (code : Code) (frame : Frame) → Takes code (OnReply.Element object index) reply frame result frame }
{
    match reply {
        Reply::Seen(ClassId::Array(_), size) => match within(index, size) {
            Some(place) => Step::ask(Request::Get(object, place), OnReply::Got),
            None => Step::fail(Fault::BadIndex),
        },
        Reply::Seen(_, _) => Step::fail(Fault::BadValue),
        _ => unwanted(reply),
    }
}

/// A root was read that is to be bound: one that is bound stays.
#[tactic(auto, using(crate::proofs::steps::Replies::binds_by_reply))]
fn bind(reply: Reply, root: u32, value: Value) -> Step
    ensures takes { (code : Code) (frame : Frame) → Takes code (OnReply.Bind root value) reply frame result frame }
{
    match binding_of(reply) {
        Binding::Binds => Step::ask(Request::Put(0, root, value), OnReply::Done),
        Binding::Stays => Step::give(Value::Null),
        Binding::Unwanted => unwanted(reply),
    }
}

/// A thread that waited on a lock is to have it again.
fn resume(lock: LockName) -> Step
    ensures is { (code : Code) (n k : ℕ) (at : State) → stepped code n k result at ≡ tell (Request.Resume lock) at }
{
    Step::ask(Request::Resume(lock), OnReply::Done)
}

/// The next of so many ticks of a thread that waits on a lock, or its timeout where none is left.
#[tactic(auto, using(crate::proofs::steps::Requests::ticks_on))]
fn tick(lock: LockName, ticks: u64) -> Step
    ensures is { (code : Code) (n k : ℕ) (at : State) → stepped code n k result at ≡ ticking lock ticks at }
{
    match ticks {
        0 => Step::ask(Request::Timeout(lock), OnReply::TimedOut(lock)),
        _ => Step::ask(Request::Tick(lock), OnReply::Ticked(lock, ticks - 1)),
    }
}

/// The thread waits on a lock.
#[tactic(auto, using(crate::proofs::steps::Replies::waits_by_reply))]
fn waited(reply: Reply, lock: LockName, ticks: u64) -> Step
    ensures takes { (code : Code) (frame : Frame) → Takes code (OnReply.Waited lock ticks) reply frame result frame }
{
    match after_wait(reply, ticks) {
        AfterWait::Resumes => resume(lock),
        AfterWait::Ticks => tick(lock, ticks),
        AfterWait::Unwanted => unwanted(reply),
    }
}

/// A tick told a thread that waits on a lock whether it was woken.
#[tactic(auto, using(crate::proofs::steps::Replies::ticks_by_reply))]
fn ticked(reply: Reply, lock: LockName, ticks: u64) -> Step
    ensures takes { (code : Code) (frame : Frame) → Takes code (OnReply.Ticked lock ticks) reply frame result frame }
{
    match after_tick(reply) {
        AfterWait::Resumes => resume(lock),
        AfterWait::Ticks => tick(lock, ticks),
        AfterWait::Unwanted => unwanted(reply),
    }
}

/// A wait is over, since it timed out or since the thread was woken before that.
fn timed_out(reply: Reply, lock: LockName) -> Step
    ensures takes { (code : Code) (frame : Frame) → Takes code (OnReply.TimedOut lock) reply frame result frame }
{
    match reply {
        Reply::Done | Reply::Val(Value::Bool(true)) => resume(lock),
        _ => unwanted(reply),
    }
}

/// A lock was left that was entered at this grade, after a part that ended so.
#[tactic(auto, using(crate::proofs::steps::Requests::settles_on, crate::proofs::steps::Replies::exits_by_reply))]
fn left(reply: Reply, grade: Grade, end: End) -> Step
    ensures takes { (code : Code) (frame : Frame) → Takes code (OnReply.Left grade end) reply frame result frame }
{
    match after_exit(reply, grade) {
        AfterExit::Settles => Step::ask(Request::Settle, OnReply::Settled(end)),
        AfterExit::GoesOn => Step::have(end),
        AfterExit::Unwanted => unwanted(reply),
    }
}

/// The thread settled after it left a lock, after a part that ended so.
fn settled(reply: Reply, end: End) -> Step
    ensures takes { (code : Code) (frame : Frame) → Takes code (OnReply.Settled end) reply frame result frame }
{
    match reply {
        Reply::Done => Step::have(end),
        _ => unwanted(reply),
    }
}

/// The thread paused before a move.
fn paused(reply: Reply, then: Move) -> Step
    ensures takes { (code : Code) (frame : Frame) → Takes code (OnReply.Paused then) reply frame result frame }
{
    match reply {
        Reply::Done => Step::alone(Now::Pace(then)),
        _ => unwanted(reply),
    }
}

/// A method whose monitor is still to be entered, if it takes one.
pub(crate) fn enter_monitor(call: Call) -> Now
    ensures is { (code : Code) (n k : ℕ) (at : State) → meant code n k result at ≡ locked_at code n k (Locked.Monitor call) at }
{
    match call.synced {
        Some(grade) => {
            let lock = LockName::Mon(call.object);
            let request = Request::Enter(lock, level_of(grade));
            let body = Locked::Body(call.method);
            Now::Ask(request, OnReply::Entered(lock, grade, body))
        }
        None => Now::Pace(Move::Body(call.method)),
    }
}

/// What is done under a lock begins.
#[tactic(auto, using(crate::proofs::steps::Requests::binds))]
fn begin(locked: Locked) -> Now
    ensures is { (code : Code) (n k : ℕ) (at : State) → meant code n k result at ≡ locked_at code n k locked at }
{
    match locked {
        Locked::Read(root) => Now::Ask(Request::Get(0, root), OnReply::Got),
        Locked::Bind(root, value) => Now::Ask(Request::Get(0, root), OnReply::Bind(root, value)),
        Locked::Block(body) => Now::Run(Rest::new(body)),
        Locked::Monitor(call) => enter_monitor(call),
        Locked::Body(method) => Now::Pace(Move::Body(method)),
        Locked::Map(call) => ask_map(call),
    }
}

/// A lock was asked for. One that is Local is not left.
fn entered(reply: Reply, lock: LockName, grade: Grade, locked: Locked) -> Step
    ensures takes { (code : Code) (frame : Frame) → Takes code (OnReply.Entered lock grade locked) reply frame result frame }
{
    match reply {
        Reply::Done => Step {
            now: begin(locked),
            then: Some(Task::Leave(lock, grade)),
        },
        Reply::Local => Step {
            now: begin(locked),
            then: Some(Task::Close(lock)),
        },
        _ => unwanted(reply),
    }
}

/// A value is put into a field or an element of this kind.
fn put_fitting(kind: Kind, object: u64, place: u32, value: Value) -> Step
    ensures is { (code : Code) (n k : ℕ) (at : State) → stepped code n k result at ≡ put_fitting kind object place value at }
{
    if takes(kind, value) {
        Step::ask(Request::Put(object, place, value), OnReply::Done)
    } else {
        Step::fail(Fault::BadValue)
    }
}

/// The kind of a field.
fn kind_of(code: &Code, class: u32, place: u32) -> Kind
    ensures { result ≡ kind_of code.now.shape (ClassId.Plain class) place }
{
    let class = code.shape.classes.get(class as usize);
    match class.and_then(|class| class.fields.get(place as usize)) {
        Some(field) => field.kind,
        None => Kind::Ref,
    }
}

/// An object was seen of which a field is written: an array has none.
fn put_field_seen(code: &Code, reply: Reply, object: u64, field: FieldRef, value: Value) -> Step
    ensures takes { (frame : Frame) → Takes code.now (OnReply.PutField object field value) reply frame result frame }
{
    match reply {
        Reply::Seen(ClassId::Plain(class), _) => match lookup(
            field.places.get().as_slice(),
            class,
        ) {
            Some(place) => put_fitting(kind_of(code, class, place), object, place, value),
            None => Step::fail(Fault::NoSuchField),
        },
        Reply::Seen(_, _) => Step::fail(Fault::NoSuchField),
        _ => unwanted(reply),
    }
}

/// An object was seen of which an element is written.
fn put_element_seen(reply: Reply, object: u64, index: i64, value: Value) -> Step
    ensures takes { (code : Code) (frame : Frame) → Takes code (OnReply.PutElement object index value) reply frame result frame }
{
    match reply {
        Reply::Seen(ClassId::Array(kind), size) => match within(index, size) {
            Some(place) => put_fitting(kind, object, place, value),
            None => Step::fail(Fault::BadIndex),
        },
        Reply::Seen(_, _) => Step::fail(Fault::BadValue),
        _ => unwanted(reply),
    }
}

/// A reply is there.
pub(crate) fn hear(
    alloc: Global,
    code: &Code,
    frame: &mut Frame,
    reply: Reply,
    on: OnReply,
) -> Result<Step, NoMemory>
    ensures takes { IfOk result (λ step. Takes code.now on reply frame.old step frame.new) }
{
    match on {
        OnReply::Done => Ok(done(reply)),
        OnReply::Made => Ok(made(reply)),
        OnReply::Got => Ok(got(reply)),
        OnReply::Field(object, field) => Ok(field_seen(reply, object, field)),
        OnReply::Element(object, index) => Ok(element_seen(reply, object, index)),
        OnReply::Call(object, callees, args) => {
            call_seen(alloc, code, frame, reply, object, callees, args)
        }
        OnReply::PutField(object, field, value) => {
            Ok(put_field_seen(code, reply, object, field, value))
        }
        OnReply::PutElement(object, index, value) => {
            Ok(put_element_seen(reply, object, index, value))
        }
        OnReply::Entered(lock, grade, locked) => Ok(entered(reply, lock, grade, locked)),
        OnReply::Left(grade, end) => Ok(left(reply, grade, end)),
        OnReply::Settled(end) => Ok(settled(reply, end)),
        OnReply::Bind(root, value) => Ok(bind(reply, root, value)),
        OnReply::Waited(lock, ticks) => Ok(waited(reply, lock, ticks)),
        OnReply::Ticked(lock, ticks) => Ok(ticked(reply, lock, ticks)),
        OnReply::TimedOut(lock) => Ok(timed_out(reply, lock)),
        OnReply::Paused(then) => Ok(paused(reply, then)),
        OnReply::Map(call) => map_heard(alloc, reply, call),
    }
}
