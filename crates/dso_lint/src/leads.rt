//! From which methods calls lead to one that is marked (`specs/Leads.antt`).
ghost use Rattle.std.specs.Prelude.{◌≡◌, ◌↔◌, ◌+◌, ◌≤◌, ℕ, Bool, List, IfOk, IsTrue, OnOk, false, length, slice_index_or};
ghost use Rattle.dso_machine.specs.declared.code.Code.{Code as Program};
ghost use Rattle.dso_machine.specs.declared.tree.Stmt.{Stmt as Statement};
ghost use Rattle.dso_lint.specs.Callers.{AreCallers};
ghost use Rattle.dso_lint.specs.Leads.{AreLeading, CallsMarked, HasMarked, IsMarkedCall, LeadsSoFar, Within};
ghost use Rattle.dso_lint.specs.Lists.{Lists};
ghost use Rattle.dso_lint.specs.Marked.{AreTidy};
ghost use Rattle.dso_lint.specs.Trees.{Uses};

use crate::callers::Called;
use crate::marks::Marks;
use dso_base::NoMemory;
use dso_machine::Expr;

/// Marks the callers of the method that was found at this place, if there is one.
fn look_back(callers: &[Called], marks: &mut Marks, next: usize) -> Result<(), NoMemory>
    ensures { (code : Program) (begun : List Bool) (size : ℕ) → AreCallers code size (length code.methods) callers.now
        → LeadsSoFar code (Within begun) size next marks.old → OnOk result (LeadsSoFar code (Within begun) size (next + 1) marks.new) }
{
    if next >= marks.found.len() {
        return Ok(());
    }
    let number = marks.found[next];
    if number >= callers.len() {
        return Ok(());
    }
    marks.add_each(callers[number].by.as_slice())
}

/// Which methods are marked, or have calls that lead to one that is.
pub(crate) fn leading(callers: &[Called], begun: Marks) -> Result<Vec<bool>, NoMemory>
    ensures { (code : Program) → AreCallers code (length begun.marked.items) (length code.methods) callers.now → length code.methods ≤ length begun.marked.items
        → AreTidy begun → IfOk result (λ marked. AreLeading code (Within begun.marked.items) (length begun.marked.items) marked.items) }
{
    let mut marks = begun;
    for next in 0..marks.marked.len() {
        look_back(callers, &mut marks, next)?;
    }
    Ok(marks.marked)
}

/// Whether the number is one of those that are marked.
fn is_marked(marked: &[bool], number: usize) -> bool
    ensures { result ≡ slice_index_or marked.now number false }
{
    match marked.get(number) {
        Some(marked) => *marked,
        None => false,
    }
}

/// Whether one of these methods is marked.
fn has_marked(callees: &[(u32, u32)], marked: &[bool]) -> bool
    ensures { IsTrue result ↔ HasMarked marked.now callees.now }
{
    for callee in callees {
        if is_marked(marked, callee.1 as usize) {
            return true;
        }
    }
    false
}

/// Whether the expression is a call that may reach a method that is marked.
fn is_marked_call(e: &Expr, marked: &[bool]) -> bool
    ensures { IsTrue result ↔ IsMarkedCall marked.now e.now }
{
    match e {
        Expr::Call(_, callees, _) => has_marked(callees.get().as_slice(), marked),
        _ => false,
    }
}

/// Whether one of the expressions is a call that may reach a method that is marked.
pub(crate) fn calls_marked(expressions: &[&Expr], marked: &[bool]) -> bool
    ensures { (block : List Statement) → Lists (Uses block) expressions.now → IsTrue result ↔ CallsMarked marked.now block }
{
    for e in expressions {
        if is_marked_call(e, marked) {
            return true;
        }
    }
    false
}
