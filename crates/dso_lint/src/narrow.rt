//! How the clean variables of a body are found (`specs/Narrowing.antt`).
ghost use Rattle.std.specs.Prelude.{◌≡◌, List, length};
ghost use Rattle.dso_machine.specs.declared.tree.Stmt.{Stmt as Statement};
ghost use Rattle.dso_machine.specs.declared.tree.Stmt.TheVariants as s;
ghost use Rattle.dso_lint.specs.Lists.{Lists};
ghost use Rattle.dso_lint.specs.Narrowing.{Narrows, NarrowsAt, Settles, Shrinks, Spoils};
ghost use Rattle.dso_lint.specs.Rows.{Covers, IsBelow, chosen_by};
ghost use Rattle.dso_lint.specs.Trees.{StandsIn};

use crate::row::{Row, is_clean};
use dso_machine::{Expr, Stmt};

/// Takes a variable out of the row, if it is a clean one of the row. Tells whether it was.
fn spoil(row: &mut Row, number: u32) -> bool
    ensures { Spoils row.old number row.new result }
{
    let place = number as usize;
    if place >= row.variables.len() {
        return false;
    }
    if !row.variables[place] {
        return false;
    }
    row.variables[place] = false;
    true
}

/// Takes out the variable that is assigned this value, if the value isn't clean. Tells whether it did.
fn narrow_assigned(number: u32, value: &Expr, row: &mut Row) -> bool
    ensures shrinks { Shrinks row.old row.new result }
    ensures right { NarrowsAt (s.Assign number value.now) row.old row.new result }
{
    if is_clean(value, row) {
        return false;
    }
    spoil(row, number)
}

/// Takes out the variable that the statement itself assigns, if what it assigns isn't clean. Tells whether it did.
fn narrow_at(a: &Stmt, row: &mut Row) -> bool
    ensures shrinks { Shrinks row.old row.new result }
    ensures right { NarrowsAt a.now row.old row.new result }
{
    match a {
        Stmt::Assign(number, value) => narrow_assigned(*number, value.get(), row),
        _ => false,
    }
}

/// Takes out each variable that is assigned what isn't clean. Tells whether there was one.
fn narrow(statements: &[&Stmt], row: &mut Row) -> bool
    ensures shrinks { Shrinks row.old row.new result }
    ensures right { (block : List Statement) → Lists (λ a. StandsIn a block) statements.now → Covers block row.old → Narrows block row.old row.new result }
{
    let mut changed = false;
    for a in statements {
        if narrow_at(a, row) {
            changed = true;
        }
    }
    changed
}

/// Takes out variables until each that is left is assigned only what is clean.
pub(crate) fn settle(statements: &[&Stmt], row: &mut Row)
    ensures this { row.new.this ≡ row.old.this }
    ensures number { length row.new.variables.items ≡ length row.old.variables.items }
    ensures below { IsBelow (chosen_by row.new) (chosen_by row.old) }
    ensures right { (block : List Statement) → Lists (λ a. StandsIn a block) statements.now → Covers block row.old → Settles block row.old row.new }
{
    let mut changed = true;
    while changed {
        changed = narrow(statements, row);
    }
}
