//! How a map is called.
ghost use Rattle.std.specs.Prelude.{◌≡◌, ℕ, IfOk, None, Some};
ghost use Rattle.dso_machine.specs.declared.code.Code.{Code};
ghost use Rattle.dso_machine.specs.declared.continuation.Frame.{Frame};
ghost use Rattle.dso_machine.specs.declared.continuation.OnReply.{OnReply};
ghost use Rattle.dso_machine.specs.Continuation.{Takes, meant, stepped};
ghost use Rattle.dso_machine.specs.Maps as maps;
ghost use Rattle.dso_machine.specs.Outcome.{State};
ghost use Rattle.dso_map.specs.Calls.{ended_with, map_op, rest_of};

use crate::continuation::{End, Locked, Now, OnReply, Step, Task};
use crate::on_reply::unwanted;
use crate::operators::level_of;
use dso_base::{Fault, Grade, LockName, NoMemory, Reply, Request, Shared, Value};
use dso_map::{MapCall, MapOp, op_of};
use std::alloc::Global;

/// What a call of a map asks next, or its value at its end.
#[tactic(auto, using(crate::proofs::steps::Maps::gives_ended))]
pub(crate) fn ask_map(call: Shared<MapCall>) -> Now
    ensures is { (code : Code) (n k : ℕ) (at : State) → meant code n k result at ≡ maps.told call.object (rest_of call) at }
{
    match call.get().result() {
        Some(value) => Now::Have(End::Gives(value)),
        None => ask_on(call),
    }
}

/// What a call of a map asks next, which hasn't ended.
#[tactic(auto, using(crate::proofs::steps::Maps::asks_told, crate::proofs::steps::Maps::not_ended))]
fn ask_on(call: Shared<MapCall>) -> Now
    requires under_way { ended_with (rest_of call) ≡ None }
    ensures is { (code : Code) (n k : ℕ) (at : State) → meant code n k result at ≡ maps.told call.object (rest_of call) at }
{
    match call.get().next() {
        Some(request) => Now::Ask(request, OnReply::Map(call)),
        None => unreachable!(),
    }
}

/// A call of a map asked something of the map's fields.
#[tactic(auto, using(crate::proofs::steps::Maps::hears_told, crate::proofs::steps::Maps::not_told))]
pub(crate) fn map_heard(
    alloc: Global,
    reply: Reply,
    call: Shared<MapCall>,
) -> Result<Step, NoMemory>
    ensures takes { IfOk result (λ step. (code : Code) (frame : Frame) → Takes code (OnReply.Map call) reply frame step frame) }
{
    let mut call = *call.get();
    if call.accepts(reply) {
        call.answer(reply);
        Ok(Step::alone(ask_map(Shared::new(alloc, call)?)))
    } else {
        Ok(unwanted(reply))
    }
}

/// At which grade a call takes the map's monitor.
fn grade_of(op: MapOp) -> Grade
    ensures { result ≡ maps.grade_of op }
{
    match op {
        MapOp::Put(_, _) | MapOp::Remove(_) => Grade::Write,
        MapOp::Get(_) | MapOp::Has(_) | MapOp::Size => Grade::Read,
    }
}

/// The map's method of this place is called with these arguments, if they are of the right kinds.
#[tactic(auto, using(crate::proofs::steps::Maps::calls_map))]
pub(crate) fn call_map(
    alloc: Global,
    object: u64,
    place: usize,
    args: &[Value],
) -> Result<Step, NoMemory>
    ensures is { IfOk result (λ step. (code : Code) (n k : ℕ) (at : State) → stepped code n k step at ≡ maps.call_map object args.now (map_op place args.now) at) }
{
    match op_of(place, args) {
        Some(op) => enter_map(alloc, object, op),
        None => Ok(Step::fail(Fault::BadValue)),
    }
}

/// The monitor of a map is asked for, and then the call's first request. The map and the arguments are held to the call's end.
fn enter_map(alloc: Global, object: u64, op: MapOp) -> Result<Step, NoMemory>
    ensures is { IfOk result (λ step. (code : Code) (n k : ℕ) (at : State) → stepped code n k step at ≡ maps.call_map object (maps.args_of op) (Some op) at) }
{
    let lock = LockName::Mon(object);
    let grade = grade_of(op);
    let call = Shared::new(alloc, MapCall::new(object, op))?;
    let entered = OnReply::Entered(lock, grade, Locked::Map(call.clone()?));
    Ok(Step {
        now: Now::Ask(Request::Enter(lock, level_of(grade)), entered),
        then: Some(Task::Mapped(call)),
    })
}
