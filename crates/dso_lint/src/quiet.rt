//! Blocks that publish nothing (`specs/Access.antt`, `specs/Quiet.antt`).
ghost use Rattle.std.specs.Prelude.{◌↔◌, IsTrue, List};
ghost use Rattle.dso_machine.specs.declared.tree.Stmt.{Stmt as Statement};
ghost use Rattle.dso_lint.specs.Access.{IsQuiet};
ghost use Rattle.dso_lint.specs.Lists.{Lists};
ghost use Rattle.dso_lint.specs.Trees.{StandsIn, Uses};
ghost use Rattle.dso_lint.specs.Quiet.{IsCall, Publishes};

use crate::fields::is_ref_field;
use dso_base::Shape;
use dso_machine::{Expr, Stmt};

/// Whether the expression is a call.
fn is_call(e: &Expr) -> bool
    ensures { IsTrue result ↔ IsCall e.now }
{
    match e {
        Expr::Call(_, _, _) => true,
        _ => false,
    }
}

/// Whether the statement itself writes to a root, an element, or a field of kind ref.
fn publishes(shape: &Shape, a: &Stmt) -> bool
    ensures { IsTrue result ↔ Publishes shape.now a.now }
{
    match a {
        Stmt::PutRoot(_, _) => true,
        Stmt::PutElem(_, _, _) => true,
        Stmt::PutField(_, field, _) => is_ref_field(shape, field),
        _ => false,
    }
}

/// Whether nothing is published by these statements, which evaluate these expressions.
pub(crate) fn is_quiet(shape: &Shape, statements: &[&Stmt], expressions: &[&Expr]) -> bool
    ensures { (block : List Statement) → Lists (λ a. StandsIn a block) statements.now → Lists (Uses block) expressions.now → IsTrue result ↔ IsQuiet shape.now block }
{
    for e in expressions {
        if is_call(e) {
            return false;
        }
    }
    for a in statements {
        if publishes(shape, a) {
            return false;
        }
    }
    true
}
