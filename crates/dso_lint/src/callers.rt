//! Which methods call each method (`specs/Callers.antt`).
ghost use Rattle.std.specs.Prelude.{◌≡◌, ◌+◌, ◌≤◌, List, [], IfOk, OnOk, length};
ghost use Rattle.dso_machine.specs.declared.code.Code.{Code as Program};
ghost use Rattle.dso_machine.specs.declared.tree.Stmt.{Stmt as Statement};
ghost use Rattle.dso_lint.specs.Callers.{AddsBody, AddsCaller, AddsCallers, AreCallers, AreUncalled};
ghost use Rattle.dso_lint.specs.Listed.{AreListed, routines};
ghost use Rattle.dso_lint.specs.Lists.{Lists};
ghost use Rattle.dso_lint.specs.Trees.{Uses};

use crate::listed::Listed;
use crate::marks::Marks;
use dso_base::NoMemory;
use dso_machine::Expr;
use std::alloc::Global;

/// How many methods a map has; their numbers are those behind the code's.
pub(crate) const MAP_METHODS: usize = 5;

/// The numbers of the methods that have a call which may reach one method, each once.
#[derive(Drop)]
pub(crate) struct Called {
    pub(crate) by: Vec<usize>,
}

/// No callers.
fn no_caller(alloc: Global) -> Called
    ensures { result.by.items ≡ [] }
{
    Called {
        by: Vec::new(alloc),
    }
}

/// Of so many methods none is called.
fn uncalled(alloc: Global, size: usize) -> Result<Vec<Called>, NoMemory>
    ensures { IfOk result (λ callers. AreUncalled size callers.items) }
{
    let mut callers = Vec::new(alloc);
    for _ in 0..size {
        callers.push(no_caller(alloc))?;
    }
    Ok(callers)
}

/// Adds the method of this number to those that call another one, if it does.
fn add_caller(called: &mut Called, number: usize, calls: bool) -> Result<(), NoMemory>
    ensures { OnOk result (AddsCaller number calls called.old called.new) }
{
    if !calls {
        return Ok(());
    }
    called.by.push(number)?;
    Ok(())
}

/// Adds the method of this number to the callers of each method that is marked.
fn add_callers(callers: &mut Vec<Called>, number: usize, marks: &Marks) -> Result<(), NoMemory>
    ensures { OnOk result (AddsCallers number marks.now.marked.items callers.old.items callers.new.items) }
{
    for called in 0..callers.len() {
        add_caller(&mut callers[called], number, marks.has(called))?;
    }
    Ok(())
}

/// Adds the method of this number, which evaluates these expressions, to the callers of each method that it calls.
fn add_body(
    alloc: Global,
    callers: &mut Vec<Called>,
    number: usize,
    expressions: &[&Expr],
) -> Result<(), NoMemory>
    ensures { (block : List Statement) → Lists (Uses block) expressions.now → OnOk result (AddsBody number block callers.old.items callers.new.items) }
{
    let mut marks = Marks::new(alloc, callers.len())?;
    marks.add_calls(expressions, None)?;
    add_callers(callers, number, &marks)
}

/// The callers of each of the code's methods and of a map's, by number.
pub(crate) fn callers_of(
    alloc: Global,
    bodies: &[Listed<'_>],
    methods: usize,
) -> Result<Vec<Called>, NoMemory>
    requires { methods ≤ length bodies.now }
    ensures { (code : Program) → AreListed (routines code) bodies.now → methods ≡ length code.methods
        → IfOk result (λ callers. AreCallers code (methods + 5) methods callers.items) }
{
    let mut callers = uncalled(alloc, methods + MAP_METHODS)?;
    for number in 0..methods {
        add_body(
            alloc,
            &mut callers,
            number,
            bodies[number].expressions.as_slice(),
        )?;
    }
    Ok(callers)
}
