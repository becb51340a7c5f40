//! Parts of trees once more, and copies of them where no owner more can be counted.
//!
//! A copy goes down at most as deep as the grammar nests, which is 64 levels.
ghost use Rattle.std.specs.Prelude.{◌≡◌, IfOk};

use crate::{Arguments, Block, Branch, Expr, Stmt, TreePart};
use dso_base::{Items, NoMemory};
use std::alloc::Global;

/// An expression once more.
#[cycle(expressions)]
fn expr_again(expr: &Branch<Expr>, alloc: Global) -> Result<Branch<Expr>, NoMemory>
    ensures { IfOk result (λ copy. copy ≡ expr.now) }
{
    match expr.counted() {
        Some(more) => Ok(more),
        None => Ok(Branch::new(alloc, copied_expr(expr.get(), alloc)?)?),
    }
}

/// A copy of an expression, which has the expressions in it once more.
#[cycle(expressions)]
fn copied_expr(expr: &Expr, alloc: Global) -> Result<Expr, NoMemory>
    ensures { IfOk result (λ copy. copy ≡ expr.now) }
{
    match expr {
        Expr::Const(value) => Ok(Expr::Const(*value)),
        Expr::Var(variable) => Ok(Expr::Var(*variable)),
        Expr::This => Ok(Expr::This),
        Expr::Root(root) => Ok(Expr::Root(*root)),
        Expr::Field(owner, field) => Ok(Expr::Field(
            expr_again(owner, alloc)?,
            field.again(alloc)?,
        )),
        Expr::Elem(array, index) => Ok(Expr::Elem(
            expr_again(array, alloc)?,
            expr_again(index, alloc)?,
        )),
        Expr::Call(owner, callees, args) => Ok(Expr::Call(
            expr_again(owner, alloc)?,
            callees.again(alloc)?,
            arguments_again(args, alloc)?,
        )),
        Expr::NewObject(class) => Ok(Expr::NewObject(*class)),
        Expr::NewArray(kind, length) => Ok(Expr::NewArray(*kind, expr_again(length, alloc)?)),
        Expr::Unary(op, operand) => Ok(Expr::Unary(*op, expr_again(operand, alloc)?)),
        Expr::Binary(op, left, right) => Ok(Expr::Binary(
            *op,
            expr_again(left, alloc)?,
            expr_again(right, alloc)?,
        )),
    }
}

/// The arguments of a call once more.
#[cycle(expressions)]
fn arguments_again(all: &Arguments, alloc: Global) -> Result<Arguments, NoMemory>
    ensures { IfOk result (λ copy. copy ≡ all.now) }
{
    match all.counted() {
        Some(more) => Ok(more),
        None => Ok(Branch::new(alloc, copied_arguments(all.get().as_slice(), alloc)?)?),
    }
}

/// A list of its own of expressions, each of them once more.
#[cycle(expressions)]
fn copied_arguments(all: &[Branch<Expr>], alloc: Global) -> Result<Items<Branch<Expr>>, NoMemory>
    ensures { IfOk result (λ copy. copy ≡ all.now) }
{
    let mut copy = Items::new(alloc);
    for one in all {
        copy.push(expr_again(one, alloc)?)?;
    }
    Ok(copy)
}

impl TreePart for Expr {
    fn copied(&self, alloc: Global) -> Result<Self, NoMemory> {
        copied_expr(self, alloc)
    }
}

impl TreePart for Items<Branch<Expr>> {
    fn copied(&self, alloc: Global) -> Result<Self, NoMemory> {
        copied_arguments(self.as_slice(), alloc)
    }
}

impl TreePart for Items<(u32, u32)> {
    fn copied(&self, alloc: Global) -> Result<Self, NoMemory> {
        copied_places(self.as_slice(), alloc)
    }
}

/// A list of its own of these places.
fn copied_places(all: &[(u32, u32)], alloc: Global) -> Result<Items<(u32, u32)>, NoMemory>
    ensures { IfOk result (λ copy. copy ≡ all.now) }
{
    let mut copy = Items::new(alloc);
    for place in all {
        copy.push(*place)?;
    }
    Ok(copy)
}

impl TreePart for Stmt {
    fn copied(&self, alloc: Global) -> Result<Self, NoMemory> {
        copied_stmt(self, alloc)
    }
}

impl TreePart for Items<Branch<Stmt>> {
    fn copied(&self, alloc: Global) -> Result<Self, NoMemory> {
        copied_block(self.as_slice(), alloc)
    }
}

/// A statement once more.
#[cycle(statements)]
fn stmt_again(stmt: &Branch<Stmt>, alloc: Global) -> Result<Branch<Stmt>, NoMemory>
    ensures { IfOk result (λ copy. copy ≡ stmt.now) }
{
    match stmt.counted() {
        Some(more) => Ok(more),
        None => Ok(Branch::new(alloc, copied_stmt(stmt.get(), alloc)?)?),
    }
}

/// A copy of a statement, which has the blocks in it once more.
#[cycle(statements)]
fn copied_stmt(stmt: &Stmt, alloc: Global) -> Result<Stmt, NoMemory>
    ensures { IfOk result (λ copy. copy ≡ stmt.now) }
{
    match stmt {
        Stmt::Assign(variable, value) => Ok(Stmt::Assign(*variable, value.again(alloc)?)),
        Stmt::PutField(owner, field, value) => {
            let field = field.again(alloc)?;
            Ok(Stmt::PutField(owner.again(alloc)?, field, value.again(alloc)?))
        }
        Stmt::PutElem(array, index, value) => {
            let index = index.again(alloc)?;
            Ok(Stmt::PutElem(array.again(alloc)?, index, value.again(alloc)?))
        }
        Stmt::PutRoot(root, value) => Ok(Stmt::PutRoot(*root, value.again(alloc)?)),
        Stmt::Eval(value) => Ok(Stmt::Eval(value.again(alloc)?)),
        Stmt::If(condition, then, otherwise) => {
            let then = block_again(then, alloc)?;
            Ok(Stmt::If(
                condition.again(alloc)?,
                then,
                block_again(otherwise, alloc)?,
            ))
        }
        Stmt::While(condition, block) => {
            let block = block_again(block, alloc)?;
            Ok(Stmt::While(condition.again(alloc)?, block))
        }
        Stmt::Sync(owner, grade, block) => {
            let block = block_again(block, alloc)?;
            Ok(Stmt::Sync(owner.again(alloc)?, *grade, block))
        }
        Stmt::Wait(owner) => Ok(Stmt::Wait(owner.again(alloc)?)),
        Stmt::TimedWait(owner, time) => Ok(Stmt::TimedWait(
            owner.again(alloc)?,
            time.again(alloc)?,
        )),
        Stmt::Notify(owner) => Ok(Stmt::Notify(owner.again(alloc)?)),
        Stmt::NotifyAll(owner) => Ok(Stmt::NotifyAll(owner.again(alloc)?)),
        Stmt::Print(value) => Ok(Stmt::Print(value.again(alloc)?)),
        Stmt::Return(None) => Ok(Stmt::Return(None)),
        Stmt::Return(Some(value)) => Ok(Stmt::Return(Some(value.again(alloc)?))),
    }
}

/// A block once more.
#[cycle(statements)]
fn block_again(all: &Block, alloc: Global) -> Result<Block, NoMemory>
    ensures { IfOk result (λ copy. copy ≡ all.now) }
{
    match all.counted() {
        Some(more) => Ok(more),
        None => Ok(Branch::new(alloc, copied_block(all.get().as_slice(), alloc)?)?),
    }
}

/// A list of its own of statements, each of them once more.
#[cycle(statements)]
fn copied_block(all: &[Branch<Stmt>], alloc: Global) -> Result<Items<Branch<Stmt>>, NoMemory>
    ensures { IfOk result (λ copy. copy ≡ all.now) }
{
    let mut copy = Items::new(alloc);
    for one in all {
        copy.push(stmt_again(one, alloc)?)?;
    }
    Ok(copy)
}
