//! The clean variables of all bodies (`specs/CleanRows.antt`).
ghost use Rattle.std.specs.Prelude.{◌≡◌, ◌<◌, ◌≤◌, ℕ, List, IfOk, OnOk, length, slice_index_or, true, false};
ghost use Rattle.dso_machine.specs.declared.code.Code.{Code as Program};
ghost use Rattle.dso_lint.specs.CleanRows.{AreBelow, AreClean, AreFirst, HasRoom, HasRoomFor, IsFirst, LooksAt, MarksExposed, StillWait, Strips, TakesThis};
ghost use Rattle.dso_lint.specs.Listed.{AreListed, IsListed, routines};
ghost use Rattle.dso_lint.specs.Routines.{Routine};

use crate::listed::Listed;
use crate::marks::Marks;
use crate::narrow::settle;
use crate::row::Row;
use dso_base::NoMemory;
use dso_machine::Stmt;
use std::alloc::Global;

/// Makes room for a variable that is clean, as those before it that have none yet.
fn cover(variables: &mut Vec<bool>, number: u32) -> Result<(), NoMemory>
    ensures { OnOk result (HasRoom variables.old.items number variables.new.items) }
{
    while variables.len() <= number as usize {
        variables.push(true)?;
    }
    Ok(())
}

/// Makes room for the variable that the statement itself assigns, if it assigns one.
fn cover_assigned(variables: &mut Vec<bool>, a: &Stmt) -> Result<(), NoMemory>
    ensures { OnOk result (HasRoomFor a.now variables.old.items variables.new.items) }
{
    match a {
        Stmt::Assign(number, _) => cover(variables, *number),
        _ => Ok(()),
    }
}

/// A row in which all is clean but the parameters.
#[tactic(auto, using(crate::proofs::cleanness::FirstRows::first_none))]
fn first_row(alloc: Global, body: &Listed<'_>, this: bool) -> Result<Row, NoMemory>
    ensures { (routine : Routine) → IsListed body.now routine → IfOk result (IsFirst routine this) }
{
    let mut variables = vec![in alloc; false; body.params as usize]?;
    let statements = body.statements.as_slice();
    for a in statements {
        cover_assigned(&mut variables, a)?;
    }
    Ok(Row { variables, this })
}

/// Such a row for each body; the first so many are those of methods.
fn first_rows(alloc: Global, bodies: &[Listed<'_>], methods: usize) -> Result<Vec<Row>, NoMemory>
    ensures number { IfOk result (λ rows. length rows.items ≡ length bodies.now) }
    ensures first { (all : List Routine) → AreListed all bodies.now → IfOk result (λ rows. AreFirst all methods rows.items) }
{
    let mut rows = Vec::new(alloc);
    for number in 0..bodies.len() {
        let row = first_row(alloc, &bodies[number], number < methods)?;
        rows.push(row)?;
    }
    Ok(rows)
}

/// Marks the methods that the body may call on what isn't clean by its row.
fn exposed(alloc: Global, body: &Listed<'_>, row: &Row, methods: usize) -> Result<Marks, NoMemory>
    ensures { (routine : Routine) → IsListed body.now routine → IfOk result (MarksExposed routine row.now methods) }
{
    let mut marks = Marks::new(alloc, methods)?;
    marks.add_calls(body.expressions.as_slice(), Some(row))?;
    Ok(marks)
}

/// Takes the `this` of a row away if it is marked. Tells whether it was clean.
fn take_this(row: &mut Row, marked: bool) -> bool
    ensures { TakesThis marked row.old row.new result }
{
    if !marked {
        return false;
    }
    if !row.this {
        return false;
    }
    row.this = false;
    true
}

/// Takes the `this` of each marked row away. The numbers of those whose `this` was clean wait now.
fn strip(rows: &mut Vec<Row>, marks: &Marks, waiting: &mut Vec<usize>) -> Result<(), NoMemory>
    ensures { OnOk result (Strips marks.now.marked.items rows.old.items rows.new.items waiting.old.items waiting.new.items) }
{
    for number in 0..rows.len() {
        if take_this(&mut rows[number], marks.has(number)) {
            waiting.push(number)?;
        }
    }
    Ok(())
}

/// Looks at the body of this number: takes variables out of its row until each that is left is assigned only what is
/// clean, and takes the `this` of each method away that it may call on what isn't. Those that lose it wait now.
fn look(
    alloc: Global,
    body: &Listed<'_>,
    number: usize,
    rows: &mut Vec<Row>,
    methods: usize,
    waiting: &mut Vec<usize>,
) -> Result<(), NoMemory>
    requires { number < length rows.old.items }
    ensures wait { OnOk result (StillWait rows.old.items rows.new.items waiting.old.items waiting.new.items) }
    ensures looks { (routine : Routine) → IsListed body.now routine → OnOk result (LooksAt routine methods number rows.old.items rows.new.items waiting.old.items waiting.new.items) }
{
    settle(body.statements.as_slice(), &mut rows[number]);
    let marks = exposed(alloc, body, &rows[number], methods)?;
    strip(rows, &marks, waiting)
}

/// The numbers below this one.
fn numbers_below(alloc: Global, size: usize) -> Result<Vec<usize>, NoMemory>
    ensures { IfOk result (λ numbers. AreBelow size numbers.items) }
{
    let mut numbers = Vec::new(alloc);
    for number in 0..size {
        numbers.push(number)?;
    }
    Ok(numbers)
}

/// The clean variables of each body. A body is looked at again only where its own row has lost `this` since, so each
/// is looked at twice at most.
pub(crate) fn clean_rows(
    alloc: Global,
    bodies: &[Listed<'_>],
    methods: usize,
) -> Result<Vec<Row>, NoMemory>
    ensures { (code : Program) → AreListed (routines code) bodies.now → methods ≡ length code.methods → IfOk result (λ rows. AreClean code rows.items) }
{
    let mut rows = first_rows(alloc, bodies, methods)?;
    let mut waiting = numbers_below(alloc, bodies.len())?;
    while let Some(number) = waiting.pop() {
        look(
            alloc,
            &bodies[number],
            number,
            &mut rows,
            methods,
            &mut waiting,
        )?;
    }
    Ok(rows)
}
