//! Expressions: read from token to token, the operators by their ranks (`specs/ExpressionReader.antt`).
//!
//! `levels` bounds how many levels are opened within, and so how deep the functions call each other.

ghost use Rattle.std.specs.Prelude.{◌≡◌, ◌+◌, ◌<◌, ◌≤◌, length, IfOk};
ghost use Rattle.dso_syntax.specs.ExpressionLevels as parser;
ghost use Rattle.dso_syntax.specs.ExpressionReader as reader;
ghost use Rattle.dso_tokens.specs.Gives.{Gives, input};

use crate::limits::{MOST_LEVELS, PARSER_LEVELS};
use crate::operand::{
    Part, Suffix, begins_suffix, binary, called, closed, entered, field, indexed, opened, signed,
    take_suffix,
};
use crate::tree::ExprTree;
use dso_base::Items;
use dso_tokens::{Mark, Rest, Stop, is_mark, operator_at, sign_at, take_any};
use std::alloc::Global;

const TOP_RANK: u32 = 6;

/// A whole expression.
#[tactic(auto, using(crate::proofs::parser::ExpressionReturns::whole_none, crate::proofs::parser::ExpressionReturns::whole_goes, crate::proofs::parser::ExpressionReturns::whole_stops))]
#[cycle(expression)]
pub fn whole<'t>(
    alloc: Global,
    levels: u32,
    rest: Rest<'t>,
) -> Result<(ExprTree, Rest<'t>), Stop<'t>>
    requires levels { levels ≤ PARSER_LEVELS }
    requires room { rest.room ≤ MOST_LEVELS }
    ensures gives { Gives (λ a. a) result (parser.whole levels (input rest.entry)) }
    ensures room { IfOk result (λ p. p.1.room ≡ rest.entry.room) }
{
    if levels == 0 {
        return Err(Stop::Unexpected(rest.tokens));
    }
    let (a, behind) = climb(alloc, levels - 1, TOP_RANK, rest)?;
    Ok((
        a,
        Rest {
            tokens: behind.tokens,
            room: rest.room,
        },
    ))
}

/// An expression of a rank.
#[tactic(auto, using(crate::proofs::parser::ExpressionReturns::climb_flat, crate::proofs::parser::ExpressionReturns::climb_goes, crate::proofs::parser::ExpressionReturns::climb_stops))]
#[cycle(expression)]
fn climb<'t>(
    alloc: Global,
    levels: u32,
    rank: u32,
    rest: Rest<'t>,
) -> Result<(ExprTree, Rest<'t>), Stop<'t>>
    requires levels { levels ≤ PARSER_LEVELS }
    requires room { rest.room ≤ MOST_LEVELS }
    ensures gives { Gives (λ a. a) result (parser.climb levels rank (input rest.entry)) }
    ensures room { IfOk result (λ p. p.1.room ≤ rest.entry.room) }
{
    if rank == 0 {
        return unary(alloc, levels, levels, rest);
    }
    let (left, behind) = climb(alloc, levels, rank - 1, rest)?;
    operations(alloc, levels, rank - 1, levels, left, behind)
}

/// The operators of a rank behind an operand, with their operands.
#[tactic(auto, using(crate::proofs::parser::ExpressionReturns::operations_none, crate::proofs::parser::ExpressionReturns::operations_enter_stops, crate::proofs::parser::ExpressionReturns::operations_stops, crate::proofs::parser::ExpressionReturns::operations_last, crate::proofs::parser::ExpressionReturns::operations_goes))]
#[cycle(expression)]
fn operations<'t>(
    alloc: Global,
    levels: u32,
    rank: u32,
    more: u32,
    left: ExprTree,
    rest: Rest<'t>,
) -> Result<(ExprTree, Rest<'t>), Stop<'t>>
    requires levels { levels ≤ PARSER_LEVELS }
    requires room { rest.room ≤ MOST_LEVELS }
    ensures gives { Gives (λ a. a) result (parser.operations levels rank more left (input rest.entry)) }
    ensures room { IfOk result (λ p. p.1.room ≤ rest.entry.room) }
{
    let Some(op) = operator_at(rank, rest.tokens) else {
        return Ok((left, rest));
    };
    let (_, inner) = entered(rest)?;
    let (right, behind) = climb(alloc, levels, rank, inner)?;
    if more == 0 {
        return Err(Stop::Unexpected(behind.tokens));
    }
    let both = binary(alloc, op, left, right)?;
    operations(alloc, levels, rank, more - 1, both, behind)
}

/// An operand with the signs before it.
#[tactic(auto, using(crate::proofs::parser::ExpressionReturns::unary_primary_stops, crate::proofs::parser::ExpressionReturns::unary_plain, crate::proofs::parser::ExpressionReturns::unary_enter_stops, crate::proofs::parser::ExpressionReturns::unary_last, crate::proofs::parser::ExpressionReturns::unary_stops, crate::proofs::parser::ExpressionReturns::unary_goes))]
#[cycle(expression)]
fn unary<'t>(
    alloc: Global,
    levels: u32,
    more: u32,
    rest: Rest<'t>,
) -> Result<(ExprTree, Rest<'t>), Stop<'t>>
    requires levels { levels ≤ PARSER_LEVELS }
    requires room { rest.room ≤ MOST_LEVELS }
    ensures gives { Gives (λ a. a) result (parser.unary levels more (input rest.entry)) }
    ensures room { IfOk result (λ p. p.1.room ≤ rest.entry.room) }
{
    let Some(op) = sign_at(rest.tokens) else {
        let (a, behind) = primary(alloc, levels, rest)?;
        return suffixes(alloc, levels, levels, a, behind);
    };
    let (sign, inner) = entered(rest)?;
    if more == 0 {
        return Err(Stop::Unexpected(inner.tokens));
    }
    let (operand, behind) = unary(alloc, levels, more - 1, inner)?;
    let a = signed(alloc, sign.line, op, operand)?;
    let rest = Rest {
        tokens: behind.tokens,
        room: behind.room + 1,
    };
    Ok((a, rest))
}

/// A primary expression: one that is done, or one in a bracket.
#[tactic(auto, using(crate::proofs::parser::ExpressionReturns::primary_open_stops, crate::proofs::parser::ExpressionReturns::primary_done, crate::proofs::parser::ExpressionReturns::primary_stops, crate::proofs::parser::ExpressionReturns::primary_goes))]
#[cycle(expression)]
fn primary<'t>(alloc: Global, levels: u32, rest: Rest<'t>) -> Result<(ExprTree, Rest<'t>), Stop<'t>>
    requires levels { levels ≤ PARSER_LEVELS }
    requires room { rest.room ≤ MOST_LEVELS }
    ensures gives { Gives (λ a. a) result (parser.primary levels (input rest.entry)) }
    ensures room { IfOk result (λ p. p.1.room ≤ rest.entry.room) }
{
    let (part, inner) = opened(alloc, rest)?;
    match part {
        Part::Done(a) => Ok((a, inner)),
        Part::Inside(bracket) => {
            let (a, behind) = whole(alloc, levels, inner)?;
            closed(alloc, bracket, a, behind)
        }
    }
}

/// The suffixes behind an expression: fields, calls, elements.
#[tactic(auto, using(crate::proofs::parser::ExpressionReturns::suffixes_nothing, crate::proofs::parser::ExpressionReturns::suffixes_deep, crate::proofs::parser::ExpressionReturns::suffixes_take_stops, crate::proofs::parser::ExpressionReturns::suffixes_stops, crate::proofs::parser::ExpressionReturns::suffixes_goes))]
#[cycle(expression)]
fn suffixes<'t>(
    alloc: Global,
    levels: u32,
    more: u32,
    a: ExprTree,
    rest: Rest<'t>,
) -> Result<(ExprTree, Rest<'t>), Stop<'t>>
    requires levels { levels ≤ PARSER_LEVELS }
    requires room { rest.room ≤ MOST_LEVELS }
    ensures gives { Gives (λ a. a) result (parser.suffixes levels more a (input rest.entry)) }
    ensures room { IfOk result (λ p. p.1.room ≤ rest.entry.room) }
{
    if !begins_suffix(rest.tokens) {
        return Ok((a, rest));
    }
    if more == 0 {
        return Err(Stop::TooDeep(rest.tokens));
    }
    let (suffix, inner) = take_suffix(alloc, rest)?;
    let (longer, behind) = suffixed(alloc, levels, suffix, a, inner)?;
    suffixes(alloc, levels, more - 1, longer, behind)
}

/// An expression with one suffix, from behind what `take_suffix` takes of it.
#[tactic(auto, using(crate::proofs::parser::ExpressionReturns::suffixed_field, crate::proofs::parser::ExpressionReturns::suffixed_call_stops, crate::proofs::parser::ExpressionReturns::suffixed_call, crate::proofs::parser::ExpressionReturns::suffixed_element_stops, crate::proofs::parser::ExpressionReturns::suffixed_element))]
#[cycle(expression)]
fn suffixed<'t>(
    alloc: Global,
    levels: u32,
    suffix: Suffix,
    a: ExprTree,
    rest: Rest<'t>,
) -> Result<(ExprTree, Rest<'t>), Stop<'t>>
    requires levels { levels ≤ PARSER_LEVELS }
    requires room { rest.room ≤ MOST_LEVELS }
    ensures gives { Gives (λ a. a) result (parser.suffixed levels suffix a (input rest.entry)) }
    ensures room { IfOk result (λ p. p.1.room ≤ rest.entry.room + 1) }
{
    match suffix {
        Suffix::Field(name) => {
            let field = field(alloc, a, name)?;
            Ok((field, rest))
        }
        Suffix::Call(name) => {
            let (all, behind) = arguments(alloc, levels, rest)?;
            called(alloc, a, name, all, behind)
        }
        Suffix::Element => {
            let (at, behind) = whole(alloc, levels, rest)?;
            indexed(alloc, a, at, behind)
        }
    }
}

/// The arguments of a call, up to the closing parenthesis.
#[tactic(auto, using(crate::proofs::parser::ExpressionReturns::arguments_none, crate::proofs::parser::ExpressionReturns::arguments_some))]
#[cycle(expression)]
fn arguments<'t>(
    alloc: Global,
    levels: u32,
    rest: Rest<'t>,
) -> Result<(Items<ExprTree>, Rest<'t>), Stop<'t>>
    requires levels { levels ≤ PARSER_LEVELS }
    requires room { rest.room ≤ MOST_LEVELS }
    ensures gives { Gives (λ all. all) result (parser.arguments levels (input rest.entry)) }
    ensures room { IfOk result (λ p. p.1.room ≡ rest.entry.room) }
{
    if is_mark(Mark::CloseParen, rest.tokens) {
        return Ok((Items::new(alloc), rest));
    }
    listed(alloc, levels, rest)
}

/// One argument or more, with commas between them.
#[cycle(expression)]
fn listed<'t>(
    alloc: Global,
    levels: u32,
    rest: Rest<'t>,
) -> Result<(Items<ExprTree>, Rest<'t>), Stop<'t>>
    requires levels { levels ≤ PARSER_LEVELS }
    requires room { rest.room ≤ MOST_LEVELS }
    ensures gives { Gives (λ all. all) result (reader.listed (parser.whole levels) (length rest.entry.tokens.now) (input rest.entry)) }
    ensures room { IfOk result (λ p. p.1.room ≡ rest.entry.room) }
{
    let mut all = Items::new(alloc);
    let mut left = rest;
    for _ in 0..rest.tokens.len() {
        let (a, behind) = whole(alloc, levels, left)?;
        all.push(a)?;
        if !is_mark(Mark::Comma, behind.tokens) {
            return Ok((all, behind));
        }
        let (_, behind) = take_any(behind)?;
        left = behind;
    }
    Err(Stop::Unexpected(left.tokens))
}
