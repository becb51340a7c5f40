//! Good holds, as they are kept on the way down a body (`specs/Holds.antt`).
ghost use Rattle.std.specs.Prelude.{◌≡◌, ◌↔◌, ◌++◌, List, IfOk, IsTrue};
ghost use Rattle.dso_machine.specs.declared.tree.Stmt.{Stmt as Statement};
ghost use Rattle.dso_lint.specs.Access.{IsVariable};
ghost use Rattle.dso_lint.specs.Holds.{Assigns, IsAssigned, IsHeld, IsVariableOf, MayBy, hold_at};
ghost use Rattle.dso_lint.specs.Lists.{Lists};
ghost use Rattle.dso_lint.specs.Trees.{StandsIn};

use crate::fields::writes;
use dso_base::{Grade, NoMemory};
use dso_machine::{Expr, Stmt};
use std::alloc::Global;

/// What can be locked with a good hold: `this`, or a variable.
#[derive(Clone, Copy, Debug, PartialEq, Eq)]
pub(crate) enum Variable {
    This,
    Numbered(u32),
}

/// A good hold, and whether it allows writes.
#[derive(Clone, Copy, Debug, PartialEq, Eq)]
pub(crate) struct Hold {
    pub(crate) variable: Variable,
    pub(crate) writes: bool,
}

/// The variable that the expression is, if it is one.
pub(crate) fn variable_of(a: &Expr) -> Option<Variable>
    ensures { IsVariableOf a.now result }
{
    match a {
        Expr::Var(number) => Some(Variable::Numbered(*number)),
        Expr::This => Some(Variable::This),
        _ => None,
    }
}

/// Whether the expression is a variable.
pub(crate) fn is_variable(a: &Expr) -> bool
    ensures { IsTrue result ↔ IsVariable a.now }
{
    match a {
        Expr::Var(_) => true,
        Expr::This => true,
        _ => false,
    }
}

/// Whether the hold is on this variable, and for a write allows it.
fn is_on(hold: Hold, variable: Variable, write: bool) -> bool
    ensures { IsTrue result ↔ MayBy hold variable write }
{
    hold.variable == variable && (hold.writes || !write)
}

/// Whether one of the holds is on this variable, and for a write allows it.
pub(crate) fn is_held(holds: &[Hold], variable: Variable, write: bool) -> bool
    ensures { IsTrue result ↔ IsHeld holds.now variable write }
{
    for hold in holds {
        if is_on(*hold, variable, write) {
            return true;
        }
    }
    false
}

/// Whether the statement itself assigns the variable.
fn assigns(variable: Variable, a: &Stmt) -> bool
    ensures { IsTrue result ↔ Assigns variable a.now }
{
    match a {
        Stmt::Assign(number, _) => variable == Variable::Numbered(*number),
        _ => false,
    }
}

/// Whether one of these statements assigns the variable.
pub(crate) fn is_assigned(variable: Variable, statements: &[&Stmt]) -> bool
    ensures { (block : List Statement) → Lists (λ a. StandsIn a block) statements.now → IsTrue result ↔ IsAssigned block variable }
{
    for a in statements {
        if assigns(variable, a) {
            return true;
        }
    }
    false
}

/// The holds, and behind them one on this variable, if there is one, of a site at this grade.
pub(crate) fn with_hold(
    alloc: Global,
    holds: &[Hold],
    variable: Option<Variable>,
    grade: Grade,
) -> Result<Vec<Hold>, NoMemory>
    ensures { IfOk result (λ all. all.items ≡ holds.now ++ hold_at variable grade) }
{
    let mut all = Vec::new(alloc);
    all.extend_from_slice(holds)?;
    if let Some(variable) = variable {
        let writes = writes(grade);
        all.push(Hold { variable, writes })?;
    }
    Ok(all)
}
