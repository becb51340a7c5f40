//! Which methods calls may reach (`specs/Marked.antt`).
ghost use Rattle.std.specs.Prelude.{◌≡◌, ◌↔◌, ℕ, List, Contains, IfOk, IsTrue, OnOk, false, slice_index_or};
ghost use Rattle.dso_machine.specs.declared.tree.Stmt.{Stmt as Statement};
ghost use Rattle.dso_lint.specs.Lists.{Lists};
ghost use Rattle.dso_lint.specs.Marked.{Counts, HasCallTo, IsCallTo, IsCounted, IsFresh, MarksMore};
ghost use Rattle.dso_lint.specs.Trees.{Uses};

use crate::row::{Row, is_clean};
use dso_base::NoMemory;
use dso_machine::Expr;
use std::alloc::Global;

/// Numbers of methods: which are marked, and those that are, in the order in which they were found.
#[derive(Drop)]
pub(crate) struct Marks {
    pub(crate) marked: Vec<bool>,
    pub(crate) found: Vec<usize>,
}

/// Whether a call on this receiver counts: each where there is no row, else those whose receiver isn't clean.
fn counts(receiver: &Expr, row: Option<&Row>) -> bool
    ensures { IsTrue result ↔ Counts row.entry receiver.now }
{
    match row {
        None => true,
        Some(row) => !is_clean(receiver, row),
    }
}

impl Marks {
    /// Of so many numbers none.
    pub(crate) fn new(alloc: Global, size: usize) -> Result<Self, NoMemory>
        ensures { IfOk result (IsFresh size) }
    {
        Ok(Marks {
            marked: vec![in alloc; false; size]?,
            found: Vec::new(alloc),
        })
    }

    /// Whether the number is marked.
    pub(crate) fn has(&self, number: usize) -> bool
        ensures { result ≡ slice_index_or self.now.marked.items number false }
    {
        match self.marked.get(number) {
            Some(marked) => *marked,
            None => false,
        }
    }

    /// Marks a number, if it is one of these.
    fn add(&mut self, number: usize) -> Result<(), NoMemory>
        ensures { OnOk result (MarksMore (λ m. number ≡ m) self.old self.new) }
    {
        if number >= self.marked.len() {
            return Ok(());
        }
        if self.marked[number] {
            return Ok(());
        }
        self.found.push(number)?;
        self.marked[number] = true;
        Ok(())
    }

    /// Marks a number if that is wanted.
    pub(crate) fn add_if(&mut self, number: usize, wanted: bool) -> Result<(), NoMemory>
        ensures { OnOk result (MarksMore (λ m. (number ≡ m) × IsTrue wanted) self.old self.new) }
    {
        if !wanted {
            return Ok(());
        }
        self.add(number)
    }

    /// Marks each of these numbers.
    pub(crate) fn add_each(&mut self, numbers: &[usize]) -> Result<(), NoMemory>
        ensures { OnOk result (MarksMore (λ m. Contains numbers.now m) self.old self.new) }
    {
        for number in numbers {
            self.add(*number)?;
        }
        Ok(())
    }

    /// Marks each of these methods.
    fn add_all(&mut self, callees: &[(u32, u32)]) -> Result<(), NoMemory>
        ensures { OnOk result (MarksMore (λ m. (class : ℕ) × Contains callees.now (class, m)) self.old self.new) }
    {
        for callee in callees {
            self.add(callee.1 as usize)?;
        }
        Ok(())
    }

    /// Marks each of these methods, if a call on this receiver counts.
    fn add_counted(
        &mut self,
        receiver: &Expr,
        callees: &[(u32, u32)],
        row: Option<&Row>,
    ) -> Result<(), NoMemory>
        ensures { OnOk result (MarksMore (IsCounted row.entry receiver.now callees.now) self.old self.new) }
    {
        if !counts(receiver, row) {
            return Ok(());
        }
        self.add_all(callees)
    }

    /// Marks each method that the expression may reach, if it is a call that counts.
    fn add_call(&mut self, e: &Expr, row: Option<&Row>) -> Result<(), NoMemory>
        ensures { OnOk result (MarksMore (IsCallTo row.entry e.now) self.old self.new) }
    {
        match e {
            Expr::Call(receiver, callees, _) => {
                self.add_counted(receiver.get(), callees.get().as_slice(), row)
            }
            _ => Ok(()),
        }
    }

    /// Marks each method that one of these calls may reach, if the call counts.
    pub(crate) fn add_calls(
        &mut self,
        expressions: &[&Expr],
        row: Option<&Row>,
    ) -> Result<(), NoMemory>
        ensures { (block : List Statement) → Lists (Uses block) expressions.now → OnOk result (MarksMore (HasCallTo row.entry block) self.old self.new) }
    {
        for e in expressions {
            self.add_call(e, row)?;
        }
        Ok(())
    }
}
