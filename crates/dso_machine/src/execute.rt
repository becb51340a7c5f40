//! How the execution of a statement begins.
ghost use Rattle.std.specs.Prelude.{◌<◌, IfOk};
ghost use Rattle.dso_machine.specs.declared.code.Code.{Code};
ghost use Rattle.dso_machine.specs.declared.continuation.Frame.{Frame};
ghost use Rattle.dso_machine.specs.Continuation.{Executes};
ghost use Rattle.dso_machine.specs.Weight.{stmt_weight, step_weight};

use crate::Stmt;
use crate::continuation::{End, Monitor, Move, Now, OnValue, Step, Writing};
use dso_base::{NoMemory, Value};
use std::alloc::Global;

/// The execution of a statement begins. NoMemory: an allocation was refused.
#[tactic(auto, using(crate::proofs::forms::Beginnings::executing, crate::proofs::forms::Weights::weights))]
pub(crate) fn execute(alloc: Global, statement: &Stmt) -> Result<Step, NoMemory>
    ensures executes { IfOk result (λ step. (code : Code) (frame : Frame) → Executes code statement.now frame step) }
    ensures lighter { IfOk result (λ step. step_weight step < stmt_weight statement.now) }
{
    match statement {
        Stmt::Assign(variable, value) => Step::part(alloc, value, OnValue::Assign(*variable)),
        Stmt::PutField(object, field, value) => {
            let then = Writing::FieldOf(field.again(alloc)?, value.again(alloc)?);
            Step::part(alloc, object, OnValue::Write(then))
        }
        Stmt::PutElem(array, index, value) => {
            let then = Writing::ElementOf(index.again(alloc)?, value.again(alloc)?);
            Step::part(alloc, array, OnValue::Write(then))
        }
        Stmt::PutRoot(root, value) => Step::part(
            alloc,
            value,
            OnValue::Write(Writing::Root(*root)),
        ),
        Stmt::Eval(expr) => Ok(Step::alone(Now::Evaluate(expr.again(alloc)?))),
        Stmt::If(test, all, others) => Step::part(
            alloc,
            test,
            OnValue::If(all.again(alloc)?, others.again(alloc)?),
        ),
        Stmt::While(test, body) => {
            let turn = Move::Turn(test.again(alloc)?, body.again(alloc)?);
            Ok(Step::alone(Now::Pace(turn)))
        }
        Stmt::Sync(object, grade, body) => {
            let then = Monitor::Sync(*grade, body.again(alloc)?);
            Step::part(alloc, object, OnValue::Monitor(then))
        }
        Stmt::Wait(object) => Step::part(alloc, object, OnValue::Monitor(Monitor::Wait)),
        Stmt::TimedWait(object, ticks) => {
            let then = Monitor::TimedWait(ticks.again(alloc)?);
            Step::part(alloc, object, OnValue::Monitor(then))
        }
        Stmt::Notify(object) => Step::part(alloc, object, OnValue::Monitor(Monitor::Notify)),
        Stmt::NotifyAll(object) => Step::part(alloc, object, OnValue::Monitor(Monitor::NotifyAll)),
        Stmt::Print(value) => Step::part(alloc, value, OnValue::Print),
        Stmt::Return(None) => Ok(Step::have(End::Leaves(Value::Null))),
        Stmt::Return(Some(value)) => Step::part(alloc, value, OnValue::Return),
    }
}
