//! The bodies of code with what stands in them, listed (`specs/Listed.antt`).
ghost use Rattle.std.specs.Prelude.{IfOk};
ghost use Rattle.dso_lint.specs.Listed.{AreListed, IsListed, routine_of, routine_of_block, routine_of_thread, routines};

use crate::lists::{expressions_in, statements_in};
use crate::sites::has_write_site;
use dso_base::{Grade, NoMemory};
use dso_machine::{Branch, Code, Expr, Method, Stmt, ThreadBody};
use std::alloc::Global;

/// A body, each statement that stands in it and each expression that one of them evaluates, listed, and whether it has
/// a `synchronized` statement that allows writes.
#[derive(Drop)]
pub(crate) struct Listed<'a> {
    pub(crate) block: &'a [Branch<Stmt>],
    pub(crate) statements: Vec<&'a Stmt>,
    pub(crate) expressions: Vec<&'a Expr>,
    pub(crate) writes: bool,
    pub(crate) params: u32,
    pub(crate) named: Option<(u32, Grade)>,
    pub(crate) synced: Option<Grade>,
}

/// A block that takes no lock around it, with what stands in it.
pub(crate) fn list_block<'a>(
    alloc: Global,
    block: &'a [Branch<Stmt>],
) -> Result<Listed<'a>, NoMemory>
    ensures { IfOk result (λ listed. IsListed listed (routine_of_block block.now)) }
{
    let statements = statements_in(alloc, block)?;
    let all = statements.as_slice();
    let expressions = expressions_in(alloc, all)?;
    let writes = has_write_site(all);
    Ok(Listed {
        block,
        statements,
        expressions,
        writes,
        params: 0,
        named: None,
        synced: None,
    })
}

/// The body of a method with what stands in it.
fn list_method<'a>(alloc: Global, method: &'a Method) -> Result<Listed<'a>, NoMemory>
    ensures { IfOk result (λ listed. IsListed listed (routine_of method.now)) }
{
    let mut listed = list_block(alloc, method.body.get().as_slice())?;
    listed.params = method.params;
    listed.named = method.named;
    listed.synced = method.synced;
    Ok(listed)
}

/// The body of a thread with what stands in it.
fn list_thread<'a>(alloc: Global, body: &'a ThreadBody) -> Result<Listed<'a>, NoMemory>
    ensures { IfOk result (λ listed. IsListed listed (routine_of_thread body.now)) }
{
    list_block(alloc, body.body.get().as_slice())
}

/// The bodies of all methods, and then those of all threads.
pub(crate) fn all_listed<'a>(alloc: Global, code: &'a Code) -> Result<Vec<Listed<'a>>, NoMemory>
    ensures { IfOk result (λ all. AreListed (routines code.now) all.items) }
{
    let mut all = Vec::new(alloc);
    let methods = code.methods.as_slice();
    for method in methods {
        let one = list_method(alloc, method)?;
        all.push(one)?;
    }
    let bodies = code.bodies.as_slice();
    for body in bodies {
        let one = list_thread(alloc, body)?;
        all.push(one)?;
    }
    Ok(all)
}
