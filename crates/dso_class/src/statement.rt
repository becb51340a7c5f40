//! Statements in numbers (`specs/Numbers.antt`).

ghost use Rattle.std.specs.Prelude.{◌≡◌, ℕ, List, map, [], ◌∷◌, ◌++◌, length, take, OnOk, ◌≤◌, Some};
ghost use Rattle.std.specs.Borrow.{Bor};
ghost use Rattle.dso_base.specs.declared.lock.Grade.{Grade};
ghost use Rattle.dso_machine.specs.declared.tree.Expr.{Expr};
ghost use Rattle.dso_syntax.specs.Grammar as grammar;
ghost use Rattle.dso_syntax.specs.ProgramGrammar as program;
ghost use Rattle.dso_syntax.specs.declared.tree.ExprForm.TheVariants as e;
ghost use Rattle.dso_syntax.specs.declared.tree.StmtForm.TheVariants as s;
ghost use Rattle.dso_class.specs.declared.place.Place.{Place};
ghost use Rattle.dso_class.specs.declared.scope.Scope.{Scope};
ghost use Rattle.dso_class.specs.Assignable.{AreAssignable, IsAssignable, IsTarget};
ghost use Rattle.dso_class.specs.Mentions as mention;
ghost use Rattle.dso_class.specs.Numbers.{MeansBlock, MeansExpr, MeansStmt};
ghost use Rattle.dso_class.specs.StatementWalk.{PutsField, PutsNamed};
ghost use Rattle.dso_class.specs.BodyWalk.{HeadMeans, Walks, known_in};
ghost use Rattle.dso_config_entries.specs.Words.{Word};

use crate::environment::Environment;
use crate::expression::{bare, expression};
use crate::fault::NameFault;
use crate::place::Place;
use crate::scope::Scope;
use crate::tables::field_ref;
use crate::uses::{Head, Role, alone, dotted};
use crate::variables::{know, synchronized, variable};
use dso_base::{Grade, Items, Word};
use dso_config_entries::Interner;
use dso_machine::{Block, Branch, Expr, Stmt};
use dso_syntax::{ExprForm, ExprTree, Ident, StmtForm, StmtTree};
use std::alloc::Global;

/// The expression of a statement in numbers, as a branch of the statement.
fn value_of<'a>(
    environment: Environment<'_, '_, 'a>,
    texts: &mut Interner<&'a [u8]>,
    tree: &'a ExprTree,
) -> Result<Branch<Expr>, NameFault>
    ensures { Walks environment.entry.place.now texts.old environment.entry.scope.now texts.new environment.entry.scope.now (λ owner. (mention.expression owner tree.now).mentions) (λ n a. MeansExpr n tree.now a) result }
{
    let value = expression(environment, texts, Role::Value, tree)?;
    Ok(Branch::new(environment.alloc, value)?)
}

/// A variable as it is declared: its name, and the value that it begins with.
#[derive(Clone, Copy)]
struct NewVariable<'a> {
    name: &'a Ident,
    value: &'a ExprTree,
}

/// A variable that is declared with its value. It is known from then on.
fn declared<'a>(
    alloc: Global,
    place: &Place<'_, 'a>,
    scope: &mut Scope<'a>,
    texts: &mut Interner<&'a [u8]>,
    declaration: NewVariable<'a>,
) -> Result<Stmt, NameFault>
    ensures walks { Walks place.now texts.old scope.old texts.new scope.new (λ owner known. mention.on declaration.entry.name.now.line (mention.variable declaration.entry.name.now.name) ∷ (mention.expression owner declaration.entry.value.now).mentions known) (λ n a. (line : ℕ) → MeansStmt n (program.statement line (s.Var declaration.entry.name.now declaration.entry.value.now)) a) result }
    ensures known { OnOk result (known_in scope.new ≡ declaration.entry.name.now.name ∷ known_in scope.old) }
{
    let number = variable(place, scope, declaration.name)?;
    let environment = Environment {
        alloc,
        place,
        scope,
    };
    let value = value_of(environment, texts, declaration.value)?;
    know(scope, declaration.name)?;
    Ok(Stmt::Assign(number, value))
}

/// A field of an object that is given a value.
fn field<'a>(
    alloc: Global,
    place: &Place<'_, 'a>,
    object: Branch<Expr>,
    name: &'a Word,
    value: Branch<Expr>,
) -> Result<Stmt, NameFault>
    ensures { (texts : List (Bor Word)) (scope : Scope) → Walks place.now texts scope texts scope (λ owner known. []) (λ n a. PutsField n object name.now value a) result }
{
    let field = field_ref(alloc, place.tables, name.as_slice())?;
    Ok(Stmt::PutField(object, field, value))
}

/// What stands behind a bare name and a dot is given a value: a root, or the field of a variable.
fn named<'a>(
    alloc: Global,
    place: &Place<'_, 'a>,
    head: Head,
    name: &'a Word,
    value: Branch<Expr>,
) -> Result<Stmt, NameFault>
    ensures { (texts : List (Bor Word)) (scope : Scope) → Walks place.now texts scope texts scope (λ owner known. []) (λ n a. (owner : Word) → HeadMeans owner name.now n head → PutsNamed n owner name.now value a) result }
{
    match head {
        Head::Root(number) => Ok(Stmt::PutRoot(number, value)),
        Head::Variable(number) => {
            let object = Branch::new(alloc, Expr::Var(number))?;
            field(alloc, place, object, name, value)
        }
    }
}

/// An assignment to a variable.
fn to_variable<'a>(
    environment: Environment<'_, '_, 'a>,
    texts: &mut Interner<&'a [u8]>,
    line: u32,
    name: &'a Word,
    value: &'a ExprTree,
) -> Result<Stmt, NameFault>
    ensures { Walks environment.entry.place.now texts.old environment.entry.scope.now texts.new environment.entry.scope.now (λ owner known. mention.on line (mention.alone known name.now) ∷ (mention.expression owner value.now).mentions known)
        (λ n a. (at : ℕ) → MeansStmt n (program.statement at (s.Assign (grammar.expression line (e.Name name.now)) value.now)) a) result }
{
    let number = alone(environment.scope, line, name)?;
    let value = value_of(environment, texts, value)?;
    Ok(Stmt::Assign(number, value))
}

/// A bare name, and its line.
#[derive(Clone, Copy)]
struct BareName<'a> {
    line: u32,
    word: &'a Word,
}

/// An assignment to what stands behind a bare name and a dot.
fn to_named<'a>(
    environment: Environment<'_, '_, 'a>,
    texts: &mut Interner<&'a [u8]>,
    owner: BareName<'a>,
    name: &'a Ident,
    value: &'a ExprTree,
) -> Result<Stmt, NameFault>
    ensures { Walks environment.entry.place.now texts.old environment.entry.scope.now texts.new environment.entry.scope.now (λ own known. mention.on owner.entry.line (mention.dotted known owner.entry.word.now name.now.name) ∷ (mention.expression own value.now).mentions known)
        (λ n a. (at from : ℕ) → MeansStmt n (program.statement at (s.Assign (grammar.expression from (e.Field (grammar.expression owner.entry.line (e.Name owner.entry.word.now)) name.now)) value.now)) a) result }
{
    let place = environment.place;
    let head = dotted(place, environment.scope, owner.line, owner.word, &name.name)?;
    let value = value_of(environment, texts, value)?;
    named(environment.alloc, place, head, &name.name, value)
}

/// An assignment to the field of an object.
fn to_field<'a>(
    environment: Environment<'_, '_, 'a>,
    texts: &mut Interner<&'a [u8]>,
    object: &'a ExprTree,
    name: &'a Ident,
    value: &'a ExprTree,
) -> Result<Stmt, NameFault>
    ensures { Walks environment.entry.place.now texts.old environment.entry.scope.now texts.new environment.entry.scope.now (λ owner known. (mention.expression owner object.now).mentions known ++ (mention.expression owner value.now).mentions known)
        (λ n a. (at from : ℕ) → MeansStmt n (program.statement at (s.Assign (grammar.expression from (e.Field object.now name.now)) value.now)) a) result }
{
    let object = value_of(environment, texts, object)?;
    let value = value_of(environment, texts, value)?;
    field(
        environment.alloc,
        environment.place,
        object,
        &name.name,
        value,
    )
}

/// An assignment to the element of an array.
fn to_element<'a>(
    environment: Environment<'_, '_, 'a>,
    texts: &mut Interner<&'a [u8]>,
    array: &'a ExprTree,
    index: &'a ExprTree,
    value: &'a ExprTree,
) -> Result<Stmt, NameFault>
    ensures { Walks environment.entry.place.now texts.old environment.entry.scope.now texts.new environment.entry.scope.now (λ owner known. (mention.expression owner array.now).mentions known ++ ((mention.expression owner index.now).mentions known ++ (mention.expression owner value.now).mentions known))
        (λ n a. (at from : ℕ) → MeansStmt n (program.statement at (s.Assign (grammar.expression from (e.Elem array.now index.now)) value.now)) a) result }
{
    let array = value_of(environment, texts, array)?;
    let index = value_of(environment, texts, index)?;
    let value = value_of(environment, texts, value)?;
    Ok(Stmt::PutElem(array, index, value))
}

/// An assignment, by what it assigns to.
fn assigned<'a>(
    environment: Environment<'_, '_, 'a>,
    texts: &mut Interner<&'a [u8]>,
    target: &'a ExprTree,
    value: &'a ExprTree,
) -> Result<Stmt, NameFault>
    requires { IsTarget target.now }
    ensures { Walks environment.entry.place.now texts.old environment.entry.scope.now texts.new environment.entry.scope.now (λ owner known. (mention.expression owner target.now).mentions known ++ (mention.expression owner value.now).mentions known)
        (λ n a. (at : ℕ) → MeansStmt n (program.statement at (s.Assign target.now value.now)) a) result }
{
    match &target.form {
        ExprForm::Name(name) => to_variable(environment, texts, target.line, name, value),
        ExprForm::Field(on, name) => match bare(on.get()) {
            Some(word) => {
                let owner = BareName {
                    line: on.get().line,
                    word,
                };
                to_named(environment, texts, owner, name, value)
            }
            None => to_field(environment, texts, on.get(), name, value),
        },
        ExprForm::Elem(on, at) => { to_element(environment, texts, on.get(), at.get(), value) }
        _ => unreachable!(),
    }
}

/// The head of a `synchronized` block: the level at which it locks, and the object.
fn lock<'a>(
    environment: Environment<'_, '_, 'a>,
    texts: &mut Interner<&'a [u8]>,
    line: u32,
    on: &'a ExprTree,
) -> Result<(Grade, Branch<Expr>), NameFault>
    ensures { Walks environment.entry.place.now texts.old environment.entry.scope.now texts.new environment.entry.scope.now (λ owner known. mention.on line (mention.synchronized owner.class owner.method) ∷ (mention.expression owner on.now).mentions known)
        (λ n pair. (n.grade ≡ Some pair.0) × MeansExpr n on.now pair.1) result }
{
    let grade = synchronized(environment.place, line)?;
    let object = value_of(environment, texts, on)?;
    Ok((grade, object))
}

/// A `wait` for so many ticks at most.
fn timed_wait<'a>(
    environment: Environment<'_, '_, 'a>,
    texts: &mut Interner<&'a [u8]>,
    on: &'a ExprTree,
    ticks: &'a ExprTree,
) -> Result<Stmt, NameFault>
    ensures { Walks environment.entry.place.now texts.old environment.entry.scope.now texts.new environment.entry.scope.now (λ owner known. (mention.expression owner on.now).mentions known ++ (mention.expression owner ticks.now).mentions known)
        (λ n a. (line : ℕ) → MeansStmt n (program.statement line (s.TimedWait on.now ticks.now)) a) result }
{
    let object = value_of(environment, texts, on)?;
    let ticks = value_of(environment, texts, ticks)?;
    Ok(Stmt::TimedWait(object, ticks))
}

/// A `return` with its value, or without one.
fn returned<'a>(
    environment: Environment<'_, '_, 'a>,
    texts: &mut Interner<&'a [u8]>,
    value: &'a Option<ExprTree>,
) -> Result<Stmt, NameFault>
    ensures { Walks environment.entry.place.now texts.old environment.entry.scope.now texts.new environment.entry.scope.now (λ owner. mention.answer owner value.now) (λ n a. (line : ℕ) → MeansStmt n (program.statement line (s.Return value.now)) a) result }
{
    match value {
        None => Ok(Stmt::Return(None)),
        Some(value) => {
            let value = value_of(environment, texts, value)?;
            Ok(Stmt::Return(Some(value)))
        }
    }
}

/// Lets only the first names be known that are known, so many of them.
fn forget(scope: &mut Scope<'_>, height: usize)
    requires { height ≤ length scope.old.known }
    ensures known { scope.new.known ≡ take height scope.old.known }
    ensures variables { scope.new.variables ≡ scope.old.variables }
{
    for _ in height..scope.known.len() {
        scope.known.pop();
    }
}

/// A statement in numbers.
#[cycle(statement)]
pub(crate) fn statement<'a>(
    alloc: Global,
    place: &Place<'_, 'a>,
    scope: &mut Scope<'a>,
    texts: &mut Interner<&'a [u8]>,
    tree: &'a StmtTree,
) -> Result<Stmt, NameFault>
    requires { IsAssignable tree.now }
    ensures walks { Walks place.now texts.old scope.old texts.new scope.new (λ owner. (mention.statement owner tree.now).mentions) (λ n a. MeansStmt n tree.now a) result }
    ensures known { (owner : mention.Owner) → OnOk result (known_in scope.new ≡ (mention.statement owner tree.now).names ++ known_in scope.old) }
{
    let environment = Environment {
        alloc,
        place,
        scope,
    };
    match &tree.form {
        StmtForm::Var(name, value) => {
            declared(alloc, place, scope, texts, NewVariable { name, value })
        }
        StmtForm::Assign(target, value) => assigned(environment, texts, target, value),
        StmtForm::Eval(value) => Ok(Stmt::Eval(value_of(environment, texts, value)?)),
        StmtForm::If(test, these, those) => {
            let test = value_of(environment, texts, test)?;
            let these = block(alloc, place, scope, texts, these.as_slice())?;
            let those = block(alloc, place, scope, texts, those.as_slice())?;
            Ok(Stmt::If(test, these, those))
        }
        StmtForm::While(test, these) => {
            let test = value_of(environment, texts, test)?;
            let these = block(alloc, place, scope, texts, these.as_slice())?;
            Ok(Stmt::While(test, these))
        }
        StmtForm::Sync(on, these) => {
            let (grade, object) = lock(environment, texts, tree.line, on)?;
            let these = block(alloc, place, scope, texts, these.as_slice())?;
            Ok(Stmt::Sync(object, grade, these))
        }
        StmtForm::Wait(on) => Ok(Stmt::Wait(value_of(environment, texts, on)?)),
        StmtForm::TimedWait(on, ticks) => timed_wait(environment, texts, on, ticks),
        StmtForm::Notify(on) => Ok(Stmt::Notify(value_of(environment, texts, on)?)),
        StmtForm::NotifyAll(on) => Ok(Stmt::NotifyAll(value_of(environment, texts, on)?)),
        StmtForm::Print(value) => Ok(Stmt::Print(value_of(environment, texts, value)?)),
        StmtForm::Return(value) => returned(environment, texts, value),
    }
}

/// The statements of a block in numbers. What they make known is known up to its end.
#[cycle(statement)]
pub(crate) fn block<'a>(
    alloc: Global,
    place: &Place<'_, 'a>,
    scope: &mut Scope<'a>,
    texts: &mut Interner<&'a [u8]>,
    trees: &'a [StmtTree],
) -> Result<Block, NameFault>
    requires { AreAssignable trees.now }
    ensures walks { Walks place.now texts.old scope.old texts.new scope.new (λ owner. mention.block (map (mention.statement owner) trees.now)) (λ n all. MeansBlock n trees.now all) result }
    ensures known { OnOk result (known_in scope.new ≡ known_in scope.old) }
{
    let height = scope.known.len();
    let mut all = Items::new(alloc);
    for tree in trees {
        let one = statement(alloc, place, scope, texts, tree)?;
        all.push(Branch::new(alloc, one)?)?;
    }
    forget(scope, height);
    Ok(Branch::new(alloc, all)?)
}
