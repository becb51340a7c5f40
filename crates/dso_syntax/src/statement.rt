//! Statements and blocks: read from token to token (`specs/ProgramReader.antt`).
//!
//! `levels` bounds how many levels are opened within, and so how deep the functions call each other.

ghost use Rattle.std.specs.Prelude.{◌≡◌, ◌≤◌, length, IfOk};
ghost use Rattle.dso_syntax.specs.StatementLevels as parser;
ghost use Rattle.dso_syntax.specs.ProgramReader as reader;
ghost use Rattle.dso_tokens.specs.Gives.{Gives, input};

use crate::blockless::{
    Command, Else, Guarding, alone, command_statement, condition, else_part, guard,
    led_by_expression, returned, variable, waiting,
};
use crate::limits::{MOST_LEVELS, PARSER_LEVELS};
use crate::tree::{StmtForm, StmtTree};
use dso_base::Items;
use dso_tokens::{Keyword, Mark, Rest, Stop, close_mark, is_mark, next_keyword, open_mark};
use std::alloc::Global;

/// Statements in braces.
#[tactic(auto, using(crate::proofs::parser::StatementReturns::block_none, crate::proofs::parser::StatementReturns::block_open_stops, crate::proofs::parser::StatementReturns::block_stops, crate::proofs::parser::StatementReturns::block_close_stops, crate::proofs::parser::StatementReturns::block_goes))]
#[cycle(statement)]
pub fn block<'t>(
    alloc: Global,
    levels: u32,
    rest: Rest<'t>,
) -> Result<(Items<StmtTree>, Rest<'t>), Stop<'t>>
    requires levels { levels ≤ PARSER_LEVELS }
    requires room { rest.room ≤ MOST_LEVELS }
    ensures gives { Gives (λ all. all) result (parser.block levels (input rest.entry)) }
    ensures room { IfOk result (λ p. p.1.room ≡ rest.entry.room) }
{
    if levels == 0 {
        return Err(Stop::Unexpected(rest.tokens));
    }
    let (_, inner) = open_mark(Mark::OpenBrace, rest)?;
    let (all, behind) = statements(alloc, levels - 1, inner)?;
    let (_, behind) = close_mark(Mark::CloseBrace, behind)?;
    Ok((all, behind))
}

/// Statements up to the closing brace.
#[cycle(statement)]
fn statements<'t>(
    alloc: Global,
    levels: u32,
    rest: Rest<'t>,
) -> Result<(Items<StmtTree>, Rest<'t>), Stop<'t>>
    requires levels { levels ≤ PARSER_LEVELS }
    requires room { rest.room ≤ MOST_LEVELS }
    ensures gives { Gives (λ all. all) result (reader.until_brace (parser.statement levels) (length rest.entry.tokens.now) (input rest.entry)) }
    ensures room { IfOk result (λ p. p.1.room ≡ rest.entry.room) }
{
    let mut all = Items::new(alloc);
    let mut left = rest;
    for _ in 0..rest.tokens.len() {
        if is_mark(Mark::CloseBrace, left.tokens) {
            return Ok((all, left));
        }
        let (a, behind) = statement(alloc, levels, left)?;
        all.push(a)?;
        left = behind;
    }
    if is_mark(Mark::CloseBrace, left.tokens) {
        return Ok((all, left));
    }
    Err(Stop::Unexpected(left.tokens))
}

/// One statement.
#[tactic(auto, using(crate::proofs::parser::StatementReturns::statement_variable, crate::proofs::parser::StatementReturns::statement_if, crate::proofs::parser::StatementReturns::statement_guarded, crate::proofs::parser::StatementReturns::statement_command, crate::proofs::parser::StatementReturns::statement_waiting, crate::proofs::parser::StatementReturns::statement_returned, crate::proofs::parser::StatementReturns::statement_plain))]
#[cycle(statement)]
fn statement<'t>(
    alloc: Global,
    levels: u32,
    rest: Rest<'t>,
) -> Result<(StmtTree, Rest<'t>), Stop<'t>>
    requires levels { levels ≤ PARSER_LEVELS }
    requires room { rest.room ≤ MOST_LEVELS }
    ensures gives { Gives (λ a. a) result (parser.statement levels (input rest.entry)) }
    ensures room { IfOk result (λ p. p.1.room ≡ rest.entry.room) }
{
    match next_keyword(rest.tokens) {
        Some(Keyword::Var) => variable(alloc, rest),
        Some(Keyword::If) => conditional(alloc, levels, levels, rest),
        Some(Keyword::While) => guarded(alloc, levels, Guarding::While, rest),
        Some(Keyword::Synchronized) => guarded(alloc, levels, Guarding::Sync, rest),
        Some(Keyword::Wait) => waiting(alloc, rest),
        Some(Keyword::Notify) => command_statement(alloc, Command::Notify, rest),
        Some(Keyword::NotifyAll) => command_statement(alloc, Command::NotifyAll, rest),
        Some(Keyword::Print) => command_statement(alloc, Command::Print, rest),
        Some(Keyword::Return) => returned(alloc, rest),
        _ => led_by_expression(alloc, rest),
    }
}

/// A statement of one word, an expression in parentheses and a block.
#[tactic(auto, using(crate::proofs::parser::StatementReturns::guarded_head_stops, crate::proofs::parser::StatementReturns::guarded_stops, crate::proofs::parser::StatementReturns::guarded_goes))]
#[cycle(statement)]
fn guarded<'t>(
    alloc: Global,
    levels: u32,
    which: Guarding,
    rest: Rest<'t>,
) -> Result<(StmtTree, Rest<'t>), Stop<'t>>
    requires levels { levels ≤ PARSER_LEVELS }
    requires room { rest.room ≤ MOST_LEVELS }
    ensures gives { Gives (λ a. a) result (parser.guarded levels which (input rest.entry)) }
    ensures room { IfOk result (λ p. p.1.room ≡ rest.entry.room) }
{
    let ((line, a), inner) = guard(alloc, rest)?;
    let (all, behind) = block(alloc, levels, inner)?;
    let form = which.form(a, all);
    Ok((StmtTree { line, form }, behind))
}

/// An `if`. The last number bounds how many are chained.
#[tactic(auto, using(crate::proofs::parser::StatementReturns::chain_head_stops, crate::proofs::parser::StatementReturns::chain_block_stops, crate::proofs::parser::StatementReturns::chain_stops, crate::proofs::parser::StatementReturns::chain_goes))]
#[cycle(statement)]
fn conditional<'t>(
    alloc: Global,
    levels: u32,
    more: u32,
    rest: Rest<'t>,
) -> Result<(StmtTree, Rest<'t>), Stop<'t>>
    requires levels { levels ≤ PARSER_LEVELS }
    requires room { rest.room ≤ MOST_LEVELS }
    ensures gives { Gives (λ a. a) result (parser.chain levels more (input rest.entry)) }
    ensures room { IfOk result (λ p. p.1.room ≡ rest.entry.room) }
{
    let ((line, a), inner) = condition(alloc, rest)?;
    let (all, inner) = block(alloc, levels, inner)?;
    let (others, behind) = otherwise(alloc, levels, more, inner)?;
    let form = StmtForm::If(a, all, others);
    Ok((StmtTree { line, form }, behind))
}

/// The statements of the `else` of an `if`, none where it has none.
#[tactic(auto, using(crate::proofs::parser::StatementReturns::otherwise_head_stops, crate::proofs::parser::StatementReturns::otherwise_none, crate::proofs::parser::StatementReturns::otherwise_block, crate::proofs::parser::StatementReturns::otherwise_last, crate::proofs::parser::StatementReturns::otherwise_stops, crate::proofs::parser::StatementReturns::otherwise_goes))]
#[cycle(statement)]
fn otherwise<'t>(
    alloc: Global,
    levels: u32,
    more: u32,
    rest: Rest<'t>,
) -> Result<(Items<StmtTree>, Rest<'t>), Stop<'t>>
    requires levels { levels ≤ PARSER_LEVELS }
    requires room { rest.room ≤ MOST_LEVELS }
    ensures gives { Gives (λ all. all) result (parser.otherwise levels more (input rest.entry)) }
    ensures room { IfOk result (λ p. p.1.room ≡ rest.entry.room) }
{
    let (next, inner) = else_part(rest)?;
    match next {
        Else::Nothing => Ok((Items::new(alloc), inner)),
        Else::Block => block(alloc, levels, inner),
        Else::Chained => {
            if more == 0 {
                return Err(Stop::Unexpected(inner.tokens));
            }
            let (other, behind) = conditional(alloc, levels, more - 1, inner)?;
            let others = alone(alloc, other)?;
            let rest = Rest {
                tokens: behind.tokens,
                room: behind.room + 1,
            };
            Ok((others, rest))
        }
    }
}
