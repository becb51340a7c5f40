//! How a list of parts goes on.
ghost use Rattle.std.specs.Prelude.{◌<◌, IfOk};
ghost use Rattle.dso_machine.specs.declared.code.Code.{Code};
ghost use Rattle.dso_machine.specs.declared.continuation.Frame.{Frame};
ghost use Rattle.dso_machine.specs.declared.continuation.Now.{Now};
ghost use Rattle.dso_machine.specs.Continuation.{Opens};
ghost use Rattle.dso_machine.specs.Weight.{arguments_weight, step_weight};

use crate::continuation::{OnReply, OnValue, Step};
use crate::on_value::object_of;
use crate::rest::Rest;
use crate::{Expr, Places};
use dso_base::{Items, NoMemory, Request, Value};
use std::alloc::Global;

/// The next argument, or the call where none is left.
pub(crate) fn next_argument(
    alloc: Global,
    callees: Places,
    object: Value,
    before: Items<Value>,
    mut rest: Rest<Expr>,
) -> Result<Step, NoMemory>
    ensures opens { IfOk result (λ step. (code : Code) (frame : Frame) → Opens code (Now.Arguments callees object before rest) frame step) }
    ensures lighter { IfOk result (λ step. step_weight step < arguments_weight rest) }
{
    if let Some(argument) = rest.pop(alloc)? {
        let then = OnValue::Argument(callees, object, before, rest);
        return Ok(Step::evaluate(argument, then));
    }
    match object_of(object) {
        Ok(object) => {
            let call = OnReply::Call(object, callees, before);
            Ok(Step::ask(Request::Look(object), call))
        }
        Err(fault) => Ok(Step::fail(fault)),
    }
}
