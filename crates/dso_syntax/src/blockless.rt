//! The parts of statements that hold no block (`specs/ProgramReader.antt`).

ghost use Rattle.std.specs.Prelude.{◌≡◌, ◌+◌, ◌≤◌, [], ◌∷◌, IfOk};
ghost use Rattle.dso_syntax.specs.StatementLevels as blocks;
ghost use Rattle.dso_syntax.specs.ProgramGrammar as program;
ghost use Rattle.dso_syntax.specs.ProgramReader as reader;
ghost use Rattle.dso_syntax.specs.declared.tree.ExprForm.{out-ExprForm};
ghost use Rattle.dso_tokens.specs.Gives.{Gives, input};

use crate::expression::whole;
use crate::limits::{MOST_LEVELS, PARSER_LEVELS};
use crate::names::take_name;
use crate::tree::{ExprForm, ExprTree, StmtForm, StmtTree};
use dso_base::Items;
use dso_tokens::{
    Keyword, Mark, Rest, Stop, Token, close_mark, enter, is_keyword, is_mark, open_mark, take_any,
    take_keyword, take_mark,
};
use std::alloc::{AllocFailed, Global};

/// A statement of one word and an expression in parentheses.
#[derive(Clone, Copy)]
pub enum Command {
    Notify,
    NotifyAll,
    Print,
}

impl Command {
    /// The statement's form with its expression.
    fn form(self, a: ExprTree) -> StmtForm
        ensures { result ≡ blocks.command_form self a }
    {
        match self {
            Command::Notify => StmtForm::Notify(a),
            Command::NotifyAll => StmtForm::NotifyAll(a),
            Command::Print => StmtForm::Print(a),
        }
    }
}

/// A statement of one word, an expression in parentheses and a block.
#[derive(Clone, Copy)]
pub enum Guarding {
    While,
    Sync,
}

impl Guarding {
    /// The statement's form with its expression and its block.
    pub fn form(self, a: ExprTree, all: Items<StmtTree>) -> StmtForm
        ensures { result ≡ blocks.guarding_of self a all }
    {
        match self {
            Guarding::While => StmtForm::While(a, all),
            Guarding::Sync => StmtForm::Sync(a, all),
        }
    }
}

/// What stands behind the block of an `if`: nothing of it, an `else` before a block, an `else` before an `if`.
#[derive(Clone, Copy)]
pub enum Else {
    Nothing,
    Block,
    Chained,
}

/// An expression.
fn expression<'t>(alloc: Global, rest: Rest<'t>) -> Result<(ExprTree, Rest<'t>), Stop<'t>>
    requires { rest.room ≤ MOST_LEVELS }
    ensures gives { Gives (λ a. a) result (blocks.expr (input rest.entry)) }
    ensures room { IfOk result (λ p. p.1.room ≡ rest.entry.room) }
{
    whole(alloc, PARSER_LEVELS, rest)
}

/// An expression in parentheses.
fn parenthesized<'t>(alloc: Global, rest: Rest<'t>) -> Result<(ExprTree, Rest<'t>), Stop<'t>>
    requires { rest.room ≤ MOST_LEVELS }
    ensures gives { Gives (λ a. a) result (blocks.parenthesized (input rest.entry)) }
    ensures room { IfOk result (λ p. p.1.room ≡ rest.entry.room) }
{
    let (_, rest) = open_mark(Mark::OpenParen, rest)?;
    let (a, rest) = expression(alloc, rest)?;
    let (_, rest) = close_mark(Mark::CloseParen, rest)?;
    Ok((a, rest))
}

/// The word that is next, by its line, and an expression in parentheses.
pub fn guard<'t>(alloc: Global, rest: Rest<'t>) -> Result<((u32, ExprTree), Rest<'t>), Stop<'t>>
    requires { rest.room ≤ MOST_LEVELS }
    ensures gives { Gives (λ p. p) result (blocks.guard (input rest.entry)) }
    ensures room { IfOk result (λ p. p.1.room ≡ rest.entry.room) }
{
    let (word, rest) = take_any(rest)?;
    let line = word.line;
    let (a, rest) = parenthesized(alloc, rest)?;
    Ok(((line, a), rest))
}

/// An `if`, by its line, and its condition.
pub fn condition<'t>(alloc: Global, rest: Rest<'t>) -> Result<((u32, ExprTree), Rest<'t>), Stop<'t>>
    requires { rest.room ≤ MOST_LEVELS }
    ensures gives { Gives (λ p. p) result (blocks.condition (input rest.entry)) }
    ensures room { IfOk result (λ p. p.1.room ≡ rest.entry.room) }
{
    let (word, rest) = take_keyword(Keyword::If, rest)?;
    let line = word.line;
    let (a, rest) = parenthesized(alloc, rest)?;
    Ok(((line, a), rest))
}

/// An `else`, if there is one, and the level that an `if` behind it opens.
pub fn else_part<'t>(rest: Rest<'t>) -> Result<(Else, Rest<'t>), Stop<'t>>
    ensures gives { Gives (λ a. a) result (blocks.else_part (input rest.entry)) }
    ensures room { IfOk result (λ p. p.1.room + blocks.held p.0 ≡ rest.entry.room) }
{
    if !is_keyword(Keyword::Else, rest.tokens) {
        return Ok((Else::Nothing, rest));
    }
    let (_, rest) = take_any(rest)?;
    if !is_keyword(Keyword::If, rest.tokens) {
        return Ok((Else::Block, rest));
    }
    let ((), rest) = enter(rest)?;
    Ok((Else::Chained, rest))
}

/// The list of one statement.
pub fn alone(alloc: Global, statement: StmtTree) -> Result<Items<StmtTree>, AllocFailed<StmtTree>>
    ensures { IfOk result (λ all. all ≡ statement ∷ []) }
{
    let mut all = Items::new(alloc);
    all.push(statement)?;
    Ok(all)
}

/// A statement of one word and an expression in parentheses.
pub fn command_statement<'t>(
    alloc: Global,
    command: Command,
    rest: Rest<'t>,
) -> Result<(StmtTree, Rest<'t>), Stop<'t>>
    requires { rest.room ≤ MOST_LEVELS }
    ensures gives { Gives (λ a. a) result (blocks.simple (reader.command (blocks.command_form command)) (input rest.entry)) }
    ensures room { IfOk result (λ p. p.1.room ≡ rest.entry.room) }
{
    let (word, rest) = take_any(rest)?;
    let line = word.line;
    let (a, rest) = parenthesized(alloc, rest)?;
    let (_, rest) = take_mark(Mark::Semicolon, rest)?;
    let form = command.form(a);
    Ok((StmtTree { line, form }, rest))
}

/// A `wait`, with or without a number of ticks.
pub fn waiting<'t>(alloc: Global, rest: Rest<'t>) -> Result<(StmtTree, Rest<'t>), Stop<'t>>
    requires { rest.room ≤ MOST_LEVELS }
    ensures gives { Gives (λ a. a) result (blocks.waiting (input rest.entry)) }
    ensures room { IfOk result (λ p. p.1.room ≡ rest.entry.room) }
{
    let (word, rest) = take_any(rest)?;
    let (_, rest) = open_mark(Mark::OpenParen, rest)?;
    let (a, rest) = expression(alloc, rest)?;
    behind_waited(alloc, word.line, a, rest)
}

/// What stands behind what a `wait` waits on: its number of ticks, if there is one, and its end.
fn behind_waited<'t>(
    alloc: Global,
    line: u32,
    a: ExprTree,
    rest: Rest<'t>,
) -> Result<(StmtTree, Rest<'t>), Stop<'t>>
    requires { rest.room ≤ MOST_LEVELS }
    ensures gives { Gives (λ a. a) result (blocks.behind_waited line a (input rest.entry)) }
    ensures room { IfOk result (λ p. p.1.room ≡ rest.entry.room + 1) }
{
    if !is_mark(Mark::Comma, rest.tokens) {
        let (_, rest) = wait_end(rest)?;
        let form = StmtForm::Wait(a);
        return Ok((StmtTree { line, form }, rest));
    }
    let (_, rest) = take_any(rest)?;
    let (ticks, rest) = expression(alloc, rest)?;
    let (_, rest) = wait_end(rest)?;
    let form = StmtForm::TimedWait(a, ticks);
    Ok((StmtTree { line, form }, rest))
}

/// The end of a `wait`, from the closing parenthesis on.
fn wait_end<'t>(rest: Rest<'t>) -> Result<(&'t Token, Rest<'t>), Stop<'t>>
    requires { rest.room ≤ MOST_LEVELS }
    ensures gives { Gives (λ t. t.now) result (blocks.wait_end (input rest.entry)) }
    ensures room { IfOk result (λ p. p.1.room ≡ rest.entry.room + 1) }
{
    let (_, rest) = close_mark(Mark::CloseParen, rest)?;
    take_mark(Mark::Semicolon, rest)
}

/// A new variable.
pub fn variable<'t>(alloc: Global, rest: Rest<'t>) -> Result<(StmtTree, Rest<'t>), Stop<'t>>
    requires { rest.room ≤ MOST_LEVELS }
    ensures gives { Gives (λ a. a) result (blocks.simple reader.variable (input rest.entry)) }
    ensures room { IfOk result (λ p. p.1.room ≡ rest.entry.room) }
{
    let (word, rest) = take_any(rest)?;
    let line = word.line;
    let (name, rest) = take_name(alloc, rest)?;
    let (_, rest) = take_mark(Mark::Assign, rest)?;
    let (a, rest) = expression(alloc, rest)?;
    let (_, rest) = take_mark(Mark::Semicolon, rest)?;
    let form = StmtForm::Var(name, a);
    Ok((StmtTree { line, form }, rest))
}

/// A `return`.
pub fn returned<'t>(alloc: Global, rest: Rest<'t>) -> Result<(StmtTree, Rest<'t>), Stop<'t>>
    requires { rest.room ≤ MOST_LEVELS }
    ensures gives { Gives (λ a. a) result (blocks.simple reader.returned (input rest.entry)) }
    ensures room { IfOk result (λ p. p.1.room ≡ rest.entry.room) }
{
    let (word, rest) = take_any(rest)?;
    let line = word.line;
    if is_mark(Mark::Semicolon, rest.tokens) {
        let (_, rest) = take_any(rest)?;
        let form = StmtForm::Return(None);
        return Ok((StmtTree { line, form }, rest));
    }
    let (a, rest) = expression(alloc, rest)?;
    let (_, rest) = take_mark(Mark::Semicolon, rest)?;
    let form = StmtForm::Return(Some(a));
    Ok((StmtTree { line, form }, rest))
}

/// Whether a value can be assigned to this: a variable, a field or an element.
fn is_place(form: &ExprForm) -> bool
    ensures { result ≡ program.is_place (out-ExprForm form.now) }
{
    match form {
        ExprForm::Name(_) | ExprForm::Field(_, _) | ExprForm::Elem(_, _) => true,
        _ => false,
    }
}

/// A statement that begins with an expression.
pub fn led_by_expression<'t>(
    alloc: Global,
    rest: Rest<'t>,
) -> Result<(StmtTree, Rest<'t>), Stop<'t>>
    requires { rest.room ≤ MOST_LEVELS }
    ensures gives { Gives (λ a. a) result (blocks.simple reader.plain (input rest.entry)) }
    ensures room { IfOk result (λ p. p.1.room ≡ rest.entry.room) }
{
    let (a, rest) = expression(alloc, rest)?;
    behind_expression(alloc, a, rest)
}

/// What stands behind an expression that leads a statement.
fn behind_expression<'t>(
    alloc: Global,
    a: ExprTree,
    rest: Rest<'t>,
) -> Result<(StmtTree, Rest<'t>), Stop<'t>>
    requires { rest.room ≤ MOST_LEVELS }
    ensures gives { Gives (λ a. a) result (reader.behind_expression blocks.expr a (input rest.entry)) }
    ensures room { IfOk result (λ p. p.1.room ≡ rest.entry.room) }
{
    let line = a.line;
    if !is_mark(Mark::Assign, rest.tokens) {
        let (_, rest) = take_mark(Mark::Semicolon, rest)?;
        let form = StmtForm::Eval(a);
        return Ok((StmtTree { line, form }, rest));
    }
    if !is_place(&a.form) {
        return Err(Stop::Unexpected(rest.tokens));
    }
    let (_, rest) = take_any(rest)?;
    let (b, rest) = expression(alloc, rest)?;
    let (_, rest) = take_mark(Mark::Semicolon, rest)?;
    let form = StmtForm::Assign(a, b);
    Ok((StmtTree { line, form }, rest))
}
