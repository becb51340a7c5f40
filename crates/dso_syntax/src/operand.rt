//! The parts of an expression that hold no whole expression: what stands before one and behind it
//! (`specs/OperandReader.antt`).

ghost use Rattle.std.specs.Prelude.{◌≡◌, ◌+◌, ◌<◌, ◌≤◌, None, IfOk};
ghost use Rattle.dso_syntax.specs.Grammar as grammar;
ghost use Rattle.dso_syntax.specs.OperandReader as operand;
ghost use Rattle.dso_syntax.specs.ExpressionReader as reader;
ghost use Rattle.dso_syntax.specs.declared.tree.ExprForm.TheVariants as e;
ghost use Rattle.dso_tokens.specs.Gives.{Gives, input};

use crate::names::take_name;
use crate::plain::plain_at;
use crate::tree::{ExprForm, ExprTree, Ident};
use dso_base::{Boxed, Items, Kind, Op};
use dso_tokens::{
    Keyword, Mark, Rest, Stop, Token, close_mark, enter, is_mark, is_wide, kind_at, open_mark,
    take_any, take_keyword, take_mark,
};
use std::alloc::{AllocFailed, Global};

/// A bracket that a primary expression opened, with the line where it begins.
#[derive(Clone, Copy)]
pub enum Bracket {
    Paren(u32),
    Array(u32, Kind),
}

impl Bracket {
    /// The symbol that closes it.
    fn closing(self) -> Mark
        ensures { result ≡ operand.closing_of self }
    {
        match self {
            Bracket::Paren(_) => Mark::CloseParen,
            Bracket::Array(_, _) => Mark::CloseBracket,
        }
    }
}

/// What a primary expression is so far: done, or behind a bracket that holds an expression.
#[derive(Drop)]
pub enum Part {
    Done(ExprTree),
    Inside(Bracket),
}

/// A suffix of an expression: a field, a call from its arguments on, an element from its index on.
#[derive(Drop)]
pub enum Suffix {
    Field(Ident),
    Call(Ident),
    Element,
}

/// Takes a token that opens a level.
pub fn entered<'t>(rest: Rest<'t>) -> Result<(&'t Token, Rest<'t>), Stop<'t>>
    ensures gives { Gives (λ t. t.now) result (operand.entered (input rest.entry)) }
    ensures room { IfOk result (λ p. p.1.room < rest.entry.room) }
{
    let ((), rest) = enter(rest)?;
    take_any(rest)
}

/// A primary expression up to the expression that it holds, or whole.
pub fn opened<'t>(alloc: Global, rest: Rest<'t>) -> Result<(Part, Rest<'t>), Stop<'t>>
    ensures gives { Gives (λ a. a) result (operand.opened (input rest.entry)) }
    ensures room { IfOk result (λ p. p.1.room + operand.held p.0 ≤ rest.entry.room) }
{
    let Some(form) = plain_at(alloc, rest.tokens)? else {
        return opened_bracket(alloc, rest);
    };
    let (token, rest) = take_any(rest)?;
    let line = token.line;
    Ok((Part::Done(ExprTree { line, form }), rest))
}

/// An expression in parentheses or behind `new`, up to the expression that it holds, or whole.
fn opened_bracket<'t>(alloc: Global, rest: Rest<'t>) -> Result<(Part, Rest<'t>), Stop<'t>>
    ensures gives { Gives (λ a. a) result (operand.opened_of None (input rest.entry)) }
    ensures room { IfOk result (λ p. p.1.room + operand.held p.0 ≤ rest.entry.room) }
{
    if is_mark(Mark::OpenParen, rest.tokens) {
        let (token, rest) = open_mark(Mark::OpenParen, rest)?;
        return Ok((Part::Inside(Bracket::Paren(token.line)), rest));
    }
    if is_wide(rest.tokens) {
        return Err(Stop::TooWide(rest.tokens));
    }
    let (new, rest) = take_keyword(Keyword::New, rest)?;
    made(alloc, new.line, rest)
}

/// What stands behind `new`, up to the bracket of an array.
fn made<'t>(alloc: Global, line: u32, rest: Rest<'t>) -> Result<(Part, Rest<'t>), Stop<'t>>
    ensures gives { Gives (λ a. a) result (operand.made line (input rest.entry)) }
    ensures room { IfOk result (λ p. p.1.room + operand.held p.0 ≤ rest.entry.room) }
{
    if let Some(kind) = kind_at(rest.tokens) {
        let (_, rest) = take_any(rest)?;
        let (_, rest) = open_mark(Mark::OpenBracket, rest)?;
        return Ok((Part::Inside(Bracket::Array(line, kind)), rest));
    }
    let (name, rest) = take_name(alloc, rest)?;
    let (_, rest) = open_mark(Mark::OpenParen, rest)?;
    let (_, rest) = close_mark(Mark::CloseParen, rest)?;
    let form = ExprForm::NewObject(name);
    Ok((Part::Done(ExprTree { line, form }), rest))
}

/// The closing bracket behind an expression, and what both make.
pub fn closed<'t>(
    alloc: Global,
    bracket: Bracket,
    a: ExprTree,
    rest: Rest<'t>,
) -> Result<(ExprTree, Rest<'t>), Stop<'t>>
    requires { rest.room < 4294967295 }
    ensures gives { Gives (λ a. a) result (operand.closed bracket a (input rest.entry)) }
    ensures room { IfOk result (λ p. p.1.room ≤ rest.entry.room + 1) }
{
    let (_, rest) = close_mark(bracket.closing(), rest)?;
    Ok((enclosed(alloc, bracket, a)?, rest))
}

/// What a bracket makes of the expression in it.
fn enclosed(alloc: Global, bracket: Bracket, a: ExprTree) -> Result<ExprTree, AllocFailed<ExprTree>>
    ensures { IfOk result (λ whole. whole ≡ operand.enclosed bracket a) }
{
    let a = Boxed::new(alloc, a)?;
    match bracket {
        Bracket::Paren(line) => Ok(ExprTree {
            line,
            form: ExprForm::Paren(a),
        }),
        Bracket::Array(line, kind) => Ok(ExprTree {
            line,
            form: ExprForm::NewArray(kind, a),
        }),
    }
}

/// Whether a suffix is next.
pub fn begins_suffix(tokens: &[Token]) -> bool
    ensures { result ≡ operand.begins_suffix (reader.next_mark tokens.now) }
{
    is_mark(Mark::Dot, tokens) || is_mark(Mark::OpenBracket, tokens)
}

/// Takes a suffix, up to the expressions that it holds.
pub fn take_suffix<'t>(alloc: Global, rest: Rest<'t>) -> Result<(Suffix, Rest<'t>), Stop<'t>>
    ensures gives { Gives (λ suffix. suffix) result (operand.take_suffix (input rest.entry)) }
    ensures room { IfOk result (λ p. p.1.room < rest.entry.room) }
{
    if is_mark(Mark::Dot, rest.tokens) {
        return named(alloc, rest);
    }
    let (_, rest) = open_mark(Mark::OpenBracket, rest)?;
    Ok((Suffix::Element, rest))
}

/// A dot and a name, and the parenthesis of a call.
fn named<'t>(alloc: Global, rest: Rest<'t>) -> Result<(Suffix, Rest<'t>), Stop<'t>>
    ensures gives { Gives (λ suffix. suffix) result (operand.named (input rest.entry)) }
    ensures room { IfOk result (λ p. p.1.room < rest.entry.room) }
{
    let (_, rest) = open_mark(Mark::Dot, rest)?;
    let (name, rest) = take_name(alloc, rest)?;
    if !is_mark(Mark::OpenParen, rest.tokens) {
        return Ok((Suffix::Field(name), rest));
    }
    let (_, rest) = open_mark(Mark::OpenParen, rest)?;
    Ok((Suffix::Call(name), rest))
}

/// The field of this name.
pub fn field(alloc: Global, a: ExprTree, name: Ident) -> Result<ExprTree, AllocFailed<ExprTree>>
    ensures { IfOk result (λ field. field ≡ grammar.expression (grammar.line_of a) (e.Field a name)) }
{
    let line = a.line;
    let form = ExprForm::Field(Boxed::new(alloc, a)?, name);
    Ok(ExprTree { line, form })
}

/// The parenthesis behind the arguments of a call, and the call.
pub fn called<'t>(
    alloc: Global,
    a: ExprTree,
    name: Ident,
    all: Items<ExprTree>,
    rest: Rest<'t>,
) -> Result<(ExprTree, Rest<'t>), Stop<'t>>
    requires { rest.room < 4294967295 }
    ensures gives { Gives (λ a. a) result (operand.called a name all (input rest.entry)) }
    ensures room { IfOk result (λ p. p.1.room ≤ rest.entry.room + 1) }
{
    let (_, rest) = close_mark(Mark::CloseParen, rest)?;
    Ok((call(alloc, a, name, all)?, rest))
}

/// The call of a method with its arguments.
fn call(
    alloc: Global,
    a: ExprTree,
    name: Ident,
    all: Items<ExprTree>,
) -> Result<ExprTree, AllocFailed<ExprTree>>
    ensures { IfOk result (λ call. call ≡ grammar.expression (grammar.line_of a) (e.Call a name all)) }
{
    let line = a.line;
    let form = ExprForm::Call(Boxed::new(alloc, a)?, name, all);
    Ok(ExprTree { line, form })
}

/// The bracket behind an index, and the element.
pub fn indexed<'t>(
    alloc: Global,
    a: ExprTree,
    at: ExprTree,
    rest: Rest<'t>,
) -> Result<(ExprTree, Rest<'t>), Stop<'t>>
    ensures gives { Gives (λ a. a) result (operand.indexed a at (input rest.entry)) }
    ensures room { IfOk result (λ p. p.1.room ≤ rest.entry.room) }
{
    let (_, rest) = take_mark(Mark::CloseBracket, rest)?;
    Ok((element(alloc, a, at)?, rest))
}

/// The element of an array at an index.
fn element(alloc: Global, a: ExprTree, at: ExprTree) -> Result<ExprTree, AllocFailed<ExprTree>>
    ensures { IfOk result (λ element. element ≡ grammar.expression (grammar.line_of a) (e.Elem a at)) }
{
    let line = a.line;
    let form = ExprForm::Elem(Boxed::new(alloc, a)?, Boxed::new(alloc, at)?);
    Ok(ExprTree { line, form })
}

/// An operand behind its sign.
pub fn signed(
    alloc: Global,
    line: u32,
    op: Op,
    operand: ExprTree,
) -> Result<ExprTree, AllocFailed<ExprTree>>
    ensures { IfOk result (λ a. a ≡ grammar.expression line (e.Unary op operand)) }
{
    let form = ExprForm::Unary(op, Boxed::new(alloc, operand)?);
    Ok(ExprTree { line, form })
}

/// Two operands with an operator between them.
pub fn binary(
    alloc: Global,
    op: Op,
    left: ExprTree,
    right: ExprTree,
) -> Result<ExprTree, AllocFailed<ExprTree>>
    ensures { IfOk result (λ a. a ≡ grammar.expression (grammar.line_of left) (e.Binary op left right)) }
{
    let line = left.line;
    let form = ExprForm::Binary(op, Boxed::new(alloc, left)?, Boxed::new(alloc, right)?);
    Ok(ExprTree { line, form })
}
