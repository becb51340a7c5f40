//! The access rule of a body (`specs/Access.antt`, `specs/Scenes.antt`).
ghost use Rattle.std.specs.Prelude.{◌↔◌, List, IfOk, IsTrue, Some, slice_get};
ghost use Rattle.dso_base.specs.Shape.{fields_at};
ghost use Rattle.dso_base.specs.declared.lock.Grade.{Grade as Level};
ghost use Rattle.dso_machine.specs.declared.tree.Expr.TheVariants as x;
ghost use Rattle.dso_lint.specs.Access.{ByGuard, IsNamed, KeepsAccess};
ghost use Rattle.dso_lint.specs.Holds.{AreHolds, IsGoodHold};
ghost use Rattle.dso_lint.specs.Listed.{IsListed};
ghost use Rattle.dso_lint.specs.Routines.{Routine};
ghost use Rattle.dso_lint.specs.Rows.{chosen_by};
ghost use Rattle.dso_lint.specs.Scenes.{AllGuarded, InnerGuarded, IsGuardedIn, IsLockedIn, IsScene, MakesGuarded, ReadsGuarded, WritesGuarded};
ghost use Rattle.dso_lint.specs.Sites.{Site, own_sites};

use crate::fields::is_named;
use crate::holds::{Hold, Variable, is_assigned, is_held, is_variable, variable_of, with_hold};
use crate::listed::Listed;
use crate::lists::{expressions_in, expressions_of, statements_in};
use crate::quiet::is_quiet;
use crate::row::{Row, is_clean};
use dso_base::{ClassId, Grade, LockName, NoMemory, Shape};
use dso_machine::{Branch, Expr, FieldRef, Stmt};
use std::alloc::Global;

/// What the accesses at a place of a body are judged by: the shape, the clean variables and the named lock of the body,
/// and the good holds at the place.
#[derive(Clone, Copy)]
pub(crate) struct Scene<'a> {
    pub(crate) shape: &'a Shape,
    pub(crate) row: &'a Row,
    pub(crate) named: Option<(u32, Grade)>,
    pub(crate) holds: &'a [Hold],
}

/// Whether there is a good hold on the object, and for a write one that allows it.
fn is_locked(scene: &Scene<'_>, object: &Expr, write: bool) -> bool
    ensures { (sites : List Site) → IsScene scene.now sites → IsTrue result ↔ IsLockedIn scene.now sites object.now write }
{
    match variable_of(object) {
        Some(variable) => is_held(scene.holds, variable, write),
        None => false,
    }
}

/// Whether a field of a class is guarded, where its object is locked or not.
fn is_guarded_at(scene: &Scene<'_>, place: (u32, u32), locked: bool, write: bool) -> bool
    ensures { IsTrue result ↔ ByGuard (IsTrue locked) (IsNamed scene.now.named write) (slice_get (fields_at scene.now.shape.now place.0) place.1) }
{
    match scene.shape.guard(ClassId::Plain(place.0), 0, place.1) {
        LockName::Name(lock) => is_named(scene.named, write, lock),
        LockName::Mon(_) => locked,
    }
}

/// Whether the access of a field is guarded.
fn is_guarded(scene: &Scene<'_>, object: &Expr, field: &FieldRef, write: bool) -> bool
    ensures { (sites : List Site) → IsScene scene.now sites → IsTrue result ↔ IsGuardedIn scene.now sites object.now (Some field.now) write }
{
    if !is_variable(object) {
        return false;
    }
    let locked = is_locked(scene, object, write);
    let places = field.places.get().as_slice();
    for place in places {
        if !is_guarded_at(scene, *place, locked, write) {
            return false;
        }
    }
    true
}

/// Whether what the expression itself reads is guarded.
fn reads_guarded(scene: &Scene<'_>, e: &Expr) -> bool
    ensures { (sites : List Site) → IsScene scene.now sites → IsTrue result ↔ ReadsGuarded scene.now sites e.now }
{
    match e {
        Expr::Field(object, field) => is_guarded(scene, object.get(), field, false),
        Expr::Elem(array, _) => is_locked(scene, array.get(), false),
        _ => true,
    }
}

/// Whether what the statement itself writes is guarded.
fn writes_guarded(scene: &Scene<'_>, a: &Stmt) -> bool
    ensures { (sites : List Site) → IsScene scene.now sites → IsTrue result ↔ WritesGuarded scene.now sites a.now }
{
    match a {
        Stmt::PutField(object, field, _) => is_guarded(scene, object.get(), field, true),
        Stmt::PutElem(array, _, _) => is_locked(scene, array.get(), true),
        _ => true,
    }
}

/// Whether each access that the statement itself makes is guarded.
fn makes_guarded(alloc: Global, scene: &Scene<'_>, a: &Stmt) -> Result<bool, NoMemory>
    ensures { IfOk result (λ guarded. (sites : List Site) → IsScene scene.now sites → IsTrue guarded ↔ MakesGuarded scene.now sites a.now) }
{
    let list = expressions_of(alloc, a)?;
    let expressions = list.as_slice();
    for e in expressions {
        if !reads_guarded(scene, e) {
            return Ok(false);
        }
    }
    Ok(writes_guarded(scene, a))
}

/// The variable on which a site that locks this has a good hold in its block, if there is one.
fn good_hold(
    alloc: Global,
    scene: &Scene<'_>,
    lock: &Expr,
    block: &[Branch<Stmt>],
) -> Result<Option<Variable>, NoMemory>
    ensures { IfOk result (λ held. (grade : Level) → IsGoodHold scene.now.shape.now (chosen_by scene.now.row.now) (record { lock = lock.now; grade = grade; block = block.now }) held) }
{
    let Some(variable) = variable_of(lock) else {
        return Ok(None);
    };
    let list = statements_in(alloc, block)?;
    let statements = list.as_slice();
    if is_assigned(variable, statements) {
        return Ok(None);
    }
    if is_clean(lock, scene.row) {
        return Ok(Some(variable));
    }
    let expressions = expressions_in(alloc, statements)?;
    if is_quiet(scene.shape, statements, expressions.as_slice()) {
        return Ok(Some(variable));
    }
    Ok(None)
}

/// Whether each access in the block is guarded.
#[cycle(guarded)]
fn all_guarded(block: &[Branch<Stmt>], alloc: Global, scene: &Scene<'_>) -> Result<bool, NoMemory>
    ensures { IfOk result (λ guarded. (sites : List Site) → IsScene scene.now sites → IsTrue guarded ↔ AllGuarded scene.now sites block.now) }
{
    for a in block {
        let a = a.get();
        let made = makes_guarded(alloc, scene, a)?;
        if !made {
            return Ok(false);
        }
        let inner = inner_guarded(a, alloc, scene)?;
        if !inner {
            return Ok(false);
        }
    }
    Ok(true)
}

/// Whether each access in the blocks of a statement is guarded.
#[cycle(guarded)]
fn inner_guarded(a: &Stmt, alloc: Global, scene: &Scene<'_>) -> Result<bool, NoMemory>
    ensures { IfOk result (λ guarded. (sites : List Site) → IsScene scene.now sites → IsTrue guarded ↔ InnerGuarded scene.now sites a.now) }
{
    match a {
        Stmt::If(_, all, others) => {
            let first = all_guarded(all.get().as_slice(), alloc, scene)?;
            if !first {
                return Ok(false);
            }
            all_guarded(others.get().as_slice(), alloc, scene)
        }
        Stmt::While(_, all) => all_guarded(all.get().as_slice(), alloc, scene),
        Stmt::Sync(lock, grade, all) => {
            let block = all.get().as_slice();
            let held = good_hold(alloc, scene, lock.get(), block)?;
            let holds = with_hold(alloc, scene.holds, held, *grade)?;
            let inner = Scene {
                shape: scene.shape,
                row: scene.row,
                named: scene.named,
                holds: holds.as_slice(),
            };
            all_guarded(block, alloc, &inner)
        }
        Stmt::Assign(_, _) | Stmt::PutField(_, _, _) | Stmt::PutElem(_, _, _) => Ok(true),
        Stmt::PutRoot(_, _) | Stmt::Eval(_) | Stmt::Wait(_) | Stmt::TimedWait(_, _) => Ok(true),
        Stmt::Notify(_) | Stmt::NotifyAll(_) | Stmt::Print(_) | Stmt::Return(_) => Ok(true),
    }
}

/// `this`, if a synchronized method of this body has a good hold on it.
fn own_hold(shape: &Shape, row: &Row, body: &Listed<'_>) -> Option<Variable>
    ensures { (routine : Routine) → IsListed body.now routine → (grade : Level) → IsGoodHold shape.now (chosen_by row.now) (record { lock = x.This; grade = grade; block = routine.statements }) result }
{
    if row.this {
        return Some(Variable::This);
    }
    let statements = body.statements.as_slice();
    let expressions = body.expressions.as_slice();
    if is_quiet(shape, statements, expressions) {
        return Some(Variable::This);
    }
    None
}

/// The good hold on `this` around all of a body, if it has one.
fn own_holds(
    alloc: Global,
    shape: &Shape,
    row: &Row,
    body: &Listed<'_>,
) -> Result<Vec<Hold>, NoMemory>
    ensures { (routine : Routine) → IsListed body.now routine → IfOk result (λ holds. AreHolds shape.now (chosen_by row.now) holds.items (own_sites routine)) }
{
    let Some(grade) = body.synced else {
        return Ok(Vec::new(alloc));
    };
    let held = own_hold(shape, row, body);
    with_hold(alloc, &[], held, grade)
}

/// Whether the access rule holds in the body, by its clean variables.
pub(crate) fn keeps_access(
    alloc: Global,
    shape: &Shape,
    row: &Row,
    body: &Listed<'_>,
) -> Result<bool, NoMemory>
    ensures { (routine : Routine) → IsListed body.now routine → IfOk result (λ keeps. IsTrue keeps ↔ KeepsAccess shape.now (chosen_by row.now) routine) }
{
    let holds = own_holds(alloc, shape, row, body)?;
    let scene = Scene {
        shape,
        row,
        named: body.named,
        holds: holds.as_slice(),
    };
    all_guarded(body.block, alloc, &scene)
}
