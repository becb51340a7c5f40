//! Expressions in numbers (`specs/Numbers.antt`).

ghost use Rattle.std.specs.Prelude.{◌≡◌, List, map, length, None, IfSome, IfNone, ℕ, [], ◌∷◌, if◌then◌else◌};
ghost use Rattle.std.specs.Borrow.{Bor};
ghost use Rattle.dso_syntax.specs.Grammar as grammar;
ghost use Rattle.dso_syntax.specs.declared.tree.ExprForm.TheVariants as e;
ghost use Rattle.dso_machine.specs.declared.tree.Expr.TheVariants as x;
ghost use Rattle.dso_base.specs.declared.value.Value.TheVariants as value;
ghost use Rattle.dso_syntax.specs.declared.tree.ExprTree.{ExprTree};
ghost use Rattle.dso_syntax.specs.declared.tree.Ident.{Ident};
ghost use Rattle.dso_class.specs.declared.place.Place.{Place};
ghost use Rattle.dso_class.specs.declared.scope.Scope.{Scope};
ghost use Rattle.dso_class.specs.Mentions as mention;
ghost use Rattle.dso_class.specs.Mentions.{all_of, qualifier_mentions, on};
ghost use Rattle.dso_class.specs.Numbers.{MeansExpr, MeansExprs};
ghost use Rattle.dso_class.specs.BodyWalk.{IsMade, MeansField, Walks, bare_used, used};
ghost use Rattle.dso_config_entries.specs.Words.{Word};

use crate::environment::Environment;
use crate::fault::NameFault;
use crate::place::Place;
use crate::scope::Scope;
use crate::tables::field_ref;
use crate::texts::text;
use crate::uses::{Head, Role, alone, call, called, dotted, new_object, this};
use dso_base::{Items, Kind, Op, Value, Word};
use dso_config_entries::Interner;
use dso_machine::{Arguments, Branch, Expr};
use dso_syntax::{ExprForm, ExprTree, Ident};
use std::alloc::Global;

/// A number in numbers.
fn long(number: &i64) -> Expr
    ensures { result ≡ x.Const (value.Long number.now) }
{
    Expr::Const(Value::Long(*number))
}

/// A text literal in numbers.
fn literal<'a>(
    texts: &mut Interner<&'a [u8]>,
    line: u32,
    content: &'a Word,
) -> Result<Expr, NameFault>
    ensures { (place : Place) (scope : Scope) → Walks place texts.old scope texts.new scope (λ owner known. on line (mention.text content.now) ∷ []) (λ n a. MeansExpr n (grammar.expression line (e.Text content.now)) a) result }
{
    Ok(Expr::Const(Value::Text(text(texts, line, content)?)))
}

/// `this` in numbers.
fn own(place: &Place<'_, '_>, line: u32) -> Result<Expr, NameFault>
    ensures { (texts : List (Bor Word)) (scope : Scope) → Walks place.now texts scope texts scope (λ owner known. if owner.in_thread then on line mention.this ∷ [] else []) (λ n a. MeansExpr n (grammar.expression line e.This) a) result }
{
    this(place, line)?;
    Ok(Expr::This)
}

/// A new object in numbers.
fn object<'a>(place: &Place<'_, 'a>, line: u32, name: &'a Ident) -> Result<Expr, NameFault>
    ensures { (texts : List (Bor Word)) (scope : Scope) → Walks place.now texts scope texts scope (λ owner known. on name.now.line (mention.new name.now.name) ∷ []) (λ n a. MeansExpr n (grammar.expression line (e.NewObject name.now)) a) result }
{
    Ok(Expr::NewObject(new_object(place, name)?))
}

/// A bare name in its role: the variable.
fn name<'a>(
    place: &Place<'_, 'a>,
    scope: &Scope<'a>,
    role: Role,
    line: u32,
    name: &'a Word,
) -> Result<Expr, NameFault>
    ensures { (texts : List (Bor Word)) → Walks place.now texts scope.now texts scope.now (λ owner. bare_used role line name.now) (λ n a. MeansExpr n (grammar.expression line (e.Name name.now)) a) result }
{
    match role {
        Role::Value => Ok(Expr::Var(alone(scope, line, name)?)),
        Role::Object => Ok(Expr::Var(called(place, scope, line, name)?)),
    }
}

/// The name that an expression is, None where it is no bare name.
pub(crate) fn bare(tree: &ExprTree) -> Option<&Word>
    ensures name { IfSome result (λ word. tree.now.form ≡ e.Name word.now) }
    ensures other { (owner : mention.Owner) → IfNone result ((mention.expression owner tree.now).bare ≡ None) }
{
    match &tree.form {
        ExprForm::Name(word) => Some(word),
        _ => None,
    }
}

/// The field of an object.
fn field<'a>(
    alloc: Global,
    place: &Place<'_, 'a>,
    object: Expr,
    name: &'a Word,
) -> Result<Expr, NameFault>
    ensures { (texts : List (Bor Word)) (scope : Scope) → Walks place.now texts scope texts scope (λ owner known. []) (λ n a. MeansField n object name.now a) result }
{
    let field = field_ref(alloc, place.tables, name.as_slice())?;
    Ok(Expr::Field(Branch::new(alloc, object)?, field))
}

/// A bare name, a dot and a name: a root, or the field of a variable.
fn of_name<'a>(
    environment: Environment<'_, '_, 'a>,
    line: u32,
    owner: &'a Word,
    name: &'a Word,
) -> Result<Expr, NameFault>
    ensures { (texts : List (Bor Word)) → Walks environment.entry.place.now texts environment.entry.scope.now texts environment.entry.scope.now (λ own known. on line (mention.dotted known owner.now name.now) ∷ []) (λ n a. (at : ℕ) (word : Ident) → word.name ≡ name.now → MeansExpr n (grammar.expression at (e.Field (grammar.expression line (e.Name owner.now)) word)) a) result }
{
    let place = environment.place;
    match dotted(place, environment.scope, line, owner, name)? {
        Head::Root(number) => Ok(Expr::Root(number)),
        Head::Variable(number) => field(environment.alloc, place, Expr::Var(number), name),
    }
}

/// A call of these methods.
fn call_of(
    alloc: Global,
    object: Expr,
    methods: Items<(u32, u32)>,
    arguments: Arguments,
) -> Result<Expr, NameFault>
    ensures { IsMade result (x.Call object methods arguments) }
{
    let object = Branch::new(alloc, object)?;
    let methods = Branch::new(alloc, methods)?;
    Ok(Expr::Call(object, methods, arguments))
}

/// An operand behind its operator.
fn unary(alloc: Global, op: Op, operand: Expr) -> Result<Expr, NameFault>
    ensures { IsMade result (x.Unary op operand) }
{
    Ok(Expr::Unary(op, Branch::new(alloc, operand)?))
}

/// A new array of this size.
fn array(alloc: Global, kind: Kind, size: Expr) -> Result<Expr, NameFault>
    ensures { IsMade result (x.NewArray kind size) }
{
    Ok(Expr::NewArray(kind, Branch::new(alloc, size)?))
}

/// The element of an array.
fn element(alloc: Global, array: Expr, index: Expr) -> Result<Expr, NameFault>
    ensures { IsMade result (x.Elem array index) }
{
    Ok(Expr::Elem(Branch::new(alloc, array)?, Branch::new(alloc, index)?))
}

/// Two operands with an operator between them.
fn binary(alloc: Global, op: Op, left: Expr, right: Expr) -> Result<Expr, NameFault>
    ensures { IsMade result (x.Binary op left right) }
{
    Ok(Expr::Binary(op, Branch::new(alloc, left)?, Branch::new(alloc, right)?))
}

/// An expression in numbers.
#[cycle(expression)]
pub(crate) fn expression<'a>(
    environment: Environment<'_, '_, 'a>,
    texts: &mut Interner<&'a [u8]>,
    role: Role,
    tree: &'a ExprTree,
) -> Result<Expr, NameFault>
    ensures { Walks environment.entry.place.now texts.old environment.entry.scope.now texts.new environment.entry.scope.now (λ owner. used role (mention.expression owner tree.now)) (λ n a. MeansExpr n tree.now a) result }
{
    let alloc = environment.alloc;
    let place = environment.place;
    match &tree.form {
        ExprForm::Number(value) => Ok(long(value)),
        ExprForm::Text(content) => literal(texts, tree.line, content),
        ExprForm::Truth(truth) => Ok(Expr::Const(Value::Bool(*truth))),
        ExprForm::Null => Ok(Expr::Const(Value::Null)),
        ExprForm::This => own(place, tree.line),
        ExprForm::Name(word) => name(place, environment.scope, role, tree.line, word),
        ExprForm::Paren(inner) => expression(environment, texts, Role::Value, inner.get()),
        ExprForm::NewObject(class) => object(place, tree.line, class),
        ExprForm::NewArray(kind, size) => new_array(environment, texts, *kind, size.get()),
        ExprForm::Field(on, word) => of_field(environment, texts, on.get(), word),
        ExprForm::Call(on, word, trees) => {
            let on = expression(environment, texts, Role::Object, on.get())?;
            call_on(environment, texts, word, trees.as_slice(), on)
        }
        ExprForm::Elem(on, at) => {
            let on = expression(environment, texts, Role::Value, on.get())?;
            let at = expression(environment, texts, Role::Value, at.get())?;
            element(alloc, on, at)
        }
        ExprForm::Unary(op, operand) => operation(environment, texts, *op, operand.get()),
        ExprForm::Binary(op, left, right) => {
            let left = expression(environment, texts, Role::Value, left.get())?;
            let right = expression(environment, texts, Role::Value, right.get())?;
            binary(alloc, *op, left, right)
        }
    }
}

/// What stands before a dot and the name of a field, and both together.
#[cycle(expression)]
fn of_field<'a>(
    environment: Environment<'_, '_, 'a>,
    texts: &mut Interner<&'a [u8]>,
    on: &'a ExprTree,
    word: &'a Ident,
) -> Result<Expr, NameFault>
    ensures { Walks environment.entry.place.now texts.old environment.entry.scope.now texts.new environment.entry.scope.now (λ owner. qualifier_mentions (mention.expression owner on.now).bare (mention.expression owner on.now).mentions word.now.name) (λ n a. (line : ℕ) → MeansExpr n (grammar.expression line (e.Field on.now word.now)) a) result }
{
    match bare(on) {
        Some(owner) => of_name(environment, on.line, owner, &word.name),
        None => {
            let on = expression(environment, texts, Role::Value, on)?;
            field(environment.alloc, environment.place, on, &word.name)
        }
    }
}

/// A call of the methods of this name on an object.
#[cycle(expression)]
fn call_on<'a>(
    environment: Environment<'_, '_, 'a>,
    texts: &mut Interner<&'a [u8]>,
    word: &'a Ident,
    trees: &'a [ExprTree],
    object: Expr,
) -> Result<Expr, NameFault>
    ensures { Walks environment.entry.place.now texts.old environment.entry.scope.now texts.new environment.entry.scope.now (λ owner known. on word.now.line (mention.call word.now.name (length trees.now)) ∷ all_of (map (mention.expression owner) trees.now) known) (λ n a. (line : ℕ) (tree : ExprTree) → MeansExpr n tree object → MeansExpr n (grammar.expression line (e.Call tree word.now trees.now)) a) result }
{
    let alloc = environment.alloc;
    let methods = call(alloc, environment.place, word, trees.len())?;
    let arguments = expressions(environment, texts, trees)?;
    call_of(alloc, object, methods, arguments)
}

/// A new array of the size that an expression tells.
#[cycle(expression)]
fn new_array<'a>(
    environment: Environment<'_, '_, 'a>,
    texts: &mut Interner<&'a [u8]>,
    kind: Kind,
    size: &'a ExprTree,
) -> Result<Expr, NameFault>
    ensures { Walks environment.entry.place.now texts.old environment.entry.scope.now texts.new environment.entry.scope.now (λ owner. (mention.expression owner size.now).mentions) (λ n a. (line : ℕ) → MeansExpr n (grammar.expression line (e.NewArray kind size.now)) a) result }
{
    let size = expression(environment, texts, Role::Value, size)?;
    array(environment.alloc, kind, size)
}

/// An operator and the expression behind it.
#[cycle(expression)]
fn operation<'a>(
    environment: Environment<'_, '_, 'a>,
    texts: &mut Interner<&'a [u8]>,
    op: Op,
    operand: &'a ExprTree,
) -> Result<Expr, NameFault>
    ensures { Walks environment.entry.place.now texts.old environment.entry.scope.now texts.new environment.entry.scope.now (λ owner. (mention.expression owner operand.now).mentions) (λ n a. (line : ℕ) → MeansExpr n (grammar.expression line (e.Unary op operand.now)) a) result }
{
    let operand = expression(environment, texts, Role::Value, operand)?;
    unary(environment.alloc, op, operand)
}

/// The arguments of a call, one behind the other.
#[cycle(expression)]
fn expressions<'a>(
    environment: Environment<'_, '_, 'a>,
    texts: &mut Interner<&'a [u8]>,
    trees: &'a [ExprTree],
) -> Result<Arguments, NameFault>
    ensures { Walks environment.entry.place.now texts.old environment.entry.scope.now texts.new environment.entry.scope.now (λ owner. all_of (map (mention.expression owner) trees.now)) (λ n all. MeansExprs n trees.now all) result }
{
    let alloc = environment.alloc;
    let mut all = Items::new(alloc);
    for tree in trees {
        let one = expression(environment, texts, Role::Value, tree)?;
        all.push(Branch::new(alloc, one)?)?;
    }
    Ok(Branch::new(alloc, all)?)
}
