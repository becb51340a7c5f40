//! Expressions whose value is known at once, since they ask nothing.
ghost use Rattle.std.specs.Prelude.{◌≡◌, ◌<◌, IfSome, false};
ghost use Rattle.dso_machine.specs.declared.code.Code.{Code};
ghost use Rattle.dso_machine.specs.declared.continuation.Frame as table_frame;
ghost use Rattle.dso_machine.specs.declared.tree.Expr as tree;
ghost use Rattle.dso_machine.specs.declared.tree.Expr.TheVariants as e;
ghost use Rattle.dso_machine.specs.KnownValues.{Knows, is_lazy};
ghost use Rattle.dso_machine.specs.Weight.{expr_weight};

use crate::Expr;
use crate::continuation::Frame;
use crate::operators::{binary, unary};
use dso_base::{Fault, Op, Value};

/// How many levels of an expression are looked at. So what isn't known is found out in no time that grows with the expression.
const LEVELS: u32 = 8;

/// Whether the operator may do without its second operand.
fn is_lazy(op: Op) -> bool
    ensures { result ≡ is_lazy op }
{
    matches!(op, Op::And | Op::Or)
}

/// What a unary operation comes to, by what its operand comes to.
#[tactic(auto, using(crate::proofs::forms::Knowing::knowing))]
fn unary_outcome(op: Op, operand: Result<Value, Fault>) -> Result<Value, Fault>
    ensures { (code : Code) (frame : table_frame.Frame) (a : tree.Expr) → Knows code a frame operand → Knows code (e.Unary op a) frame result }
{
    match operand {
        Ok(value) => unary(op, value),
        Err(fault) => Err(fault),
    }
}

/// What a binary operation comes to, by what its operands come to.
#[tactic(auto, using(crate::proofs::forms::Knowing::knowing))]
fn binary_outcome(
    op: Op,
    first: Result<Value, Fault>,
    second: Result<Value, Fault>,
) -> Result<Value, Fault>
    requires eager { is_lazy op ≡ false }
    ensures { (code : Code) (frame : table_frame.Frame) (a b : tree.Expr) → Knows code a frame first → Knows code b frame second
        → Knows code (e.Binary op a b) frame result }
{
    match (first, second) {
        (Ok(left), Ok(right)) => binary(op, left, right),
        (Ok(_), Err(fault)) => Err(fault),
        (Err(fault), _) => Err(fault),
    }
}

/// What an expression of so many levels at most comes to in this frame, None where it may ask something.
#[tactic(auto, using(crate::proofs::forms::Knowing::knowing, crate::proofs::forms::Weights::weights))]
fn known_within(frame: &Frame, expr: &Expr, levels: u32) -> Option<Result<Value, Fault>>
    ensures knows { IfSome result (λ outcome. (code : Code) → Knows code expr.now frame.now outcome) }
    ensures heavy { IfSome result (λ outcome. 2 < expr_weight expr.now) }
{
    if levels == 0 {
        return None;
    }
    match expr {
        Expr::Const(value) => Some(Ok(*value)),
        Expr::Var(index) => Some(Ok(frame.var(*index))),
        Expr::This => Some(Ok(frame.this)),
        Expr::Unary(op, operand) => {
            let operand = known_within(frame, operand.get(), levels - 1)?;
            Some(unary_outcome(*op, operand))
        }
        Expr::Binary(op, first, second) if !is_lazy(*op) => {
            let first = known_within(frame, first.get(), levels - 1)?;
            let second = known_within(frame, second.get(), levels - 1)?;
            Some(binary_outcome(*op, first, second))
        }
        _ => None,
    }
}

/// What the expression comes to in this frame, None where it may ask something or has many levels.
pub(crate) fn known(frame: &Frame, expr: &Expr) -> Option<Result<Value, Fault>>
    ensures knows { IfSome result (λ outcome. (code : Code) → Knows code expr.now frame.now outcome) }
    ensures heavy { IfSome result (λ outcome. 2 < expr_weight expr.now) }
{
    known_within(frame, expr, LEVELS)
}
