//! How the evaluation of an expression begins.
ghost use Rattle.std.specs.Prelude.{◌<◌, ◌≡◌, IfOk, length, slice_index_or};
ghost use Rattle.dso_base.specs.Shape.{fields_at};
ghost use Rattle.dso_machine.specs.declared.continuation.Now.{Now};
ghost use Rattle.dso_machine.specs.Continuation.{Opens};
ghost use Rattle.dso_machine.specs.Sound.{IsSoundCode};
ghost use Rattle.dso_machine.specs.Weight.{expr_weight, step_weight};

use crate::continuation::{Frame, Locked, OnReply, OnValue, Step};
use crate::rest::Rest;
use crate::{Code, Expr};
use dso_base::{ClassId, Grade, Level, LockName, NoMemory, Request, Value};
use std::alloc::Global;

impl Frame {
    /// The value of a variable.
    pub(crate) fn var(&self, index: u32) -> Value
        ensures { result ≡ slice_index_or self.now.vars index Value.Null }
    {
        self.vars
            .as_slice()
            .get(index as usize)
            .copied()
            .unwrap_or(Value::Null)
    }
}

/// How many fields a class has.
fn count_of_fields(code: &Code, class: u32) -> u32
    requires sound { IsSoundCode code.now }
    ensures { result ≡ length (fields_at code.now.shape class) }
{
    match code.shape.classes.get(class as usize) {
        Some(class) => class.fields.len() as u32,
        None => 0,
    }
}

/// The evaluation of an expression begins. NoMemory: an allocation was refused.
#[tactic(auto, using(crate::proofs::forms::Beginnings::evaluating, crate::proofs::forms::Weights::weights))]
pub(crate) fn evaluate(
    alloc: Global,
    code: &Code,
    frame: &Frame,
    expr: &Expr,
) -> Result<Step, NoMemory>
    requires sound { IsSoundCode code.now }
    ensures opens { IfOk result (λ step. Opens code.now (Now.Evaluate expr.now) frame.now step) }
    ensures lighter { IfOk result (λ step. step_weight step < expr_weight expr.now) }
{
    match expr {
        Expr::Const(value) => Ok(Step::give(*value)),
        Expr::Var(index) => Ok(Step::give(frame.var(*index))),
        Expr::This => Ok(Step::give(frame.this)),
        Expr::Root(root) => {
            let lock = LockName::Name(*root);
            let entered = OnReply::Entered(lock, Grade::Read, Locked::Read(*root));
            Ok(Step::ask(Request::Enter(lock, Level::Read), entered))
        }
        Expr::Field(object, field) => Step::part(
            alloc,
            object,
            OnValue::Field(field.again(alloc)?),
        ),
        Expr::Elem(array, index) => Step::part(alloc, array, OnValue::Array(index.again(alloc)?)),
        Expr::Call(object, callees, args) => {
            let then = OnValue::Object(callees.again(alloc)?, Rest::new(args.again(alloc)?));
            Step::part(alloc, object, then)
        }
        Expr::NewObject(class) => {
            let request = Request::New(ClassId::Plain(*class), count_of_fields(code, *class));
            Ok(Step::ask(request, OnReply::Made))
        }
        Expr::NewArray(kind, size) => Step::part(alloc, size, OnValue::Size(*kind)),
        Expr::Unary(op, operand) => Step::part(alloc, operand, OnValue::Operand(*op)),
        Expr::Binary(op, first, second) => {
            let then = OnValue::First(*op, second.again(alloc)?);
            Step::part(alloc, first, then)
        }
    }
}
