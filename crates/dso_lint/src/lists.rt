//! The expressions and statements of a block, one after the other (`specs/Lists.antt`).
ghost use Rattle.std.specs.Prelude.{List, Contains, IfOk, OnOk};
ghost use Rattle.std.specs.Option.{option_to_list};
ghost use Rattle.dso_machine.specs.declared.tree.Expr as tree;
ghost use Rattle.dso_machine.specs.declared.tree.Stmt as stmt;
ghost use Rattle.dso_lint.specs.Lists.{Adds, Lists};
ghost use Rattle.dso_lint.specs.Trees.{Evaluates, IsPart, StandsIn, Uses, blocks};

use dso_base::NoMemory;
use dso_machine::{Branch, Expr, Stmt};
use std::alloc::Global;

/// Adds an expression and all that stand in it.
#[cycle(parts)]
fn add_parts<'a>(whole: &'a Expr, list: &mut Vec<&'a Expr>) -> Result<(), NoMemory>
    ensures { OnOk result (Adds (λ e. IsPart e whole.now) list.old.items list.new.items) }
{
    list.push(whole)?;
    match whole {
        Expr::Const(_) => Ok(()),
        Expr::Var(_) => Ok(()),
        Expr::This => Ok(()),
        Expr::Root(_) => Ok(()),
        Expr::NewObject(_) => Ok(()),
        Expr::Field(a, _) => add_parts(a.get(), list),
        Expr::NewArray(_, a) => add_parts(a.get(), list),
        Expr::Unary(_, a) => add_parts(a.get(), list),
        Expr::Elem(a, b) => {
            add_parts(a.get(), list)?;
            add_parts(b.get(), list)
        }
        Expr::Binary(_, a, b) => {
            add_parts(a.get(), list)?;
            add_parts(b.get(), list)
        }
        Expr::Call(a, _, args) => {
            add_parts(a.get(), list)?;
            add_all_parts(args.get().as_slice(), list)
        }
    }
}

/// Adds expressions and all that stand in them.
#[cycle(parts)]
fn add_all_parts<'a>(all: &'a [Branch<Expr>], list: &mut Vec<&'a Expr>) -> Result<(), NoMemory>
    ensures { OnOk result (Adds (λ e. (whole : tree.Expr) × Contains all.now whole × IsPart e whole) list.old.items list.new.items) }
{
    for whole in all {
        add_parts(whole.get(), list)?;
    }
    Ok(())
}

/// Adds what a return evaluates, if it has an expression.
fn add_returned<'a>(
    returned: &'a Option<Branch<Expr>>,
    list: &mut Vec<&'a Expr>,
) -> Result<(), NoMemory>
    ensures { OnOk result (Adds (λ e. (whole : tree.Expr) × Contains (option_to_list returned.now) whole × IsPart e whole) list.old.items list.new.items) }
{
    match returned {
        None => Ok(()),
        Some(e) => add_parts(e.get(), list),
    }
}

/// Adds the expressions that a statement evaluates.
fn add_evaluated<'a>(a: &'a Stmt, list: &mut Vec<&'a Expr>) -> Result<(), NoMemory>
    ensures { OnOk result (Adds (Evaluates a.now) list.old.items list.new.items) }
{
    match a {
        Stmt::Assign(_, e) => add_parts(e.get(), list),
        Stmt::PutRoot(_, e) => add_parts(e.get(), list),
        Stmt::Eval(e) => add_parts(e.get(), list),
        Stmt::Wait(e) => add_parts(e.get(), list),
        Stmt::Notify(e) => add_parts(e.get(), list),
        Stmt::NotifyAll(e) => add_parts(e.get(), list),
        Stmt::Print(e) => add_parts(e.get(), list),
        Stmt::If(e, _, _) => add_parts(e.get(), list),
        Stmt::While(e, _) => add_parts(e.get(), list),
        Stmt::Sync(e, _, _) => add_parts(e.get(), list),
        Stmt::PutField(e, _, b) => {
            add_parts(e.get(), list)?;
            add_parts(b.get(), list)
        }
        Stmt::TimedWait(e, b) => {
            add_parts(e.get(), list)?;
            add_parts(b.get(), list)
        }
        Stmt::PutElem(e, b, c) => {
            add_parts(e.get(), list)?;
            add_parts(b.get(), list)?;
            add_parts(c.get(), list)
        }
        Stmt::Return(e) => add_returned(e, list),
    }
}

/// Adds the statements of a block, at any depth.
#[cycle(statements)]
fn add_statements<'a>(block: &'a [Branch<Stmt>], list: &mut Vec<&'a Stmt>) -> Result<(), NoMemory>
    ensures { OnOk result (Adds (λ a. StandsIn a block.now) list.old.items list.new.items) }
{
    for a in block {
        let a = a.get();
        list.push(a)?;
        add_inner(a, list)?;
    }
    Ok(())
}

/// Adds the statements in the blocks of a statement.
#[cycle(statements)]
fn add_inner<'a>(a: &'a Stmt, list: &mut Vec<&'a Stmt>) -> Result<(), NoMemory>
    ensures { OnOk result (Adds (λ b. (inner : List stmt.Stmt) × Contains (blocks a.now) inner × StandsIn b inner) list.old.items list.new.items) }
{
    match a {
        Stmt::If(_, all, others) => {
            add_statements(all.get().as_slice(), list)?;
            add_statements(others.get().as_slice(), list)
        }
        Stmt::While(_, all) => add_statements(all.get().as_slice(), list),
        Stmt::Sync(_, _, all) => add_statements(all.get().as_slice(), list),
        Stmt::Assign(_, _) | Stmt::PutField(_, _, _) | Stmt::PutElem(_, _, _) => Ok(()),
        Stmt::PutRoot(_, _) | Stmt::Eval(_) | Stmt::Wait(_) | Stmt::TimedWait(_, _) => Ok(()),
        Stmt::Notify(_) | Stmt::NotifyAll(_) | Stmt::Print(_) | Stmt::Return(_) => Ok(()),
    }
}

/// The expressions that a statement evaluates, and all that stand in them.
pub(crate) fn expressions_of<'a>(alloc: Global, a: &'a Stmt) -> Result<Vec<&'a Expr>, NoMemory>
    ensures { IfOk result (λ list. Lists (Evaluates a.now) list.items) }
{
    let mut list = Vec::new(alloc);
    add_evaluated(a, &mut list)?;
    Ok(list)
}

/// The statements of a block, at any depth.
pub(crate) fn statements_in<'a>(
    alloc: Global,
    block: &'a [Branch<Stmt>],
) -> Result<Vec<&'a Stmt>, NoMemory>
    ensures { IfOk result (λ list. Lists (λ a. StandsIn a block.now) list.items) }
{
    let mut list = Vec::new(alloc);
    add_statements(block, &mut list)?;
    Ok(list)
}

/// The expressions that these statements evaluate, and all that stand in them.
pub(crate) fn expressions_in<'a>(
    alloc: Global,
    statements: &[&'a Stmt],
) -> Result<Vec<&'a Expr>, NoMemory>
    ensures { (block : List stmt.Stmt) → Lists (λ a. StandsIn a block) statements.now → IfOk result (λ list. Lists (Uses block) list.items) }
{
    let mut list = Vec::new(alloc);
    for a in statements {
        add_evaluated(a, &mut list)?;
    }
    Ok(list)
}
