//! The members of classes: read from token to token (`specs/ProgramReader.antt`).

ghost use Rattle.std.specs.Prelude.{◌≡◌, ◌≤◌, length, IfOk};
ghost use Rattle.dso_syntax.specs.StatementLevels as blocks;
ghost use Rattle.dso_syntax.specs.ProgramReader as reader;
ghost use Rattle.dso_tokens.specs.Gives.{Gives, input};

use crate::limits::{MOST_LEVELS, PARSER_LEVELS};
use crate::names::take_name;
use crate::statement::block;
use crate::tree::{Ident, Member, StmtTree};
use dso_base::{Items, Kind};
use dso_tokens::{
    Keyword, Mark, Rest, Stop, Token, close_mark, is_mark, next_keyword, open_mark, take_any,
    take_keyword, take_mark,
};
use std::alloc::Global;

/// A block of a method or a thread.
pub fn body<'t>(alloc: Global, rest: Rest<'t>) -> Result<(Items<StmtTree>, Rest<'t>), Stop<'t>>
    requires { rest.room ≤ MOST_LEVELS }
    ensures gives { Gives (λ all. all) result (blocks.body (input rest.entry)) }
    ensures room { IfOk result (λ p. p.1.room ≡ rest.entry.room) }
{
    block(alloc, PARSER_LEVELS, rest)
}

/// One name or more, with commas between them.
fn names<'t>(alloc: Global, rest: Rest<'t>) -> Result<(Items<Ident>, Rest<'t>), Stop<'t>>
    ensures gives { Gives (λ all. all) result (reader.names (length rest.entry.tokens.now) (input rest.entry)) }
    ensures room { IfOk result (λ p. p.1.room ≡ rest.entry.room) }
{
    let mut all = Items::new(alloc);
    let mut left = rest;
    for _ in 0..rest.tokens.len() {
        let (name, behind) = take_name(alloc, left)?;
        all.push(name)?;
        if !is_mark(Mark::Comma, behind.tokens) {
            return Ok((all, behind));
        }
        let (_, behind) = take_any(behind)?;
        left = behind;
    }
    Err(Stop::Unexpected(left.tokens))
}

/// The parameters up to the closing parenthesis.
fn parameters<'t>(alloc: Global, rest: Rest<'t>) -> Result<(Items<Ident>, Rest<'t>), Stop<'t>>
    ensures gives { Gives (λ all. all) result (reader.parameters (input rest.entry)) }
    ensures room { IfOk result (λ p. p.1.room ≡ rest.entry.room) }
{
    if is_mark(Mark::CloseParen, rest.tokens) {
        return Ok((Items::new(alloc), rest));
    }
    names(alloc, rest)
}

/// A method, from its name on.
fn method<'t>(
    alloc: Global,
    line: u32,
    synced: bool,
    rest: Rest<'t>,
) -> Result<(Member, Rest<'t>), Stop<'t>>
    requires { rest.room ≤ MOST_LEVELS }
    ensures gives { Gives (λ a. a) result (reader.method blocks.body line synced (input rest.entry)) }
    ensures room { IfOk result (λ p. p.1.room ≡ rest.entry.room) }
{
    let (name, rest) = take_name(alloc, rest)?;
    let (_, rest) = open_mark(Mark::OpenParen, rest)?;
    let (params, rest) = parameters(alloc, rest)?;
    let (_, rest) = close_mark(Mark::CloseParen, rest)?;
    let (body, rest) = body(alloc, rest)?;
    let method = Member::Method {
        line,
        synced,
        name,
        params,
        body,
    };
    Ok((method, rest))
}

/// A method, from its word `synchronized` on.
fn synchronized<'t>(alloc: Global, rest: Rest<'t>) -> Result<(Member, Rest<'t>), Stop<'t>>
    requires { rest.room ≤ MOST_LEVELS }
    ensures gives { Gives (λ a. a) result (reader.by_start blocks.body reader.synchronized (input rest.entry)) }
    ensures room { IfOk result (λ p. p.1.room ≡ rest.entry.room) }
{
    let (word, rest) = take_any(rest)?;
    method(alloc, word.line, true, rest)
}

/// A field.
fn field<'t>(alloc: Global, kind: Kind, rest: Rest<'t>) -> Result<(Member, Rest<'t>), Stop<'t>>
    ensures gives { Gives (λ a. a) result (reader.by_start blocks.body (reader.field kind) (input rest.entry)) }
    ensures room { IfOk result (λ p. p.1.room ≡ rest.entry.room) }
{
    let (word, rest) = take_any(rest)?;
    let line = word.line;
    let (name, rest) = take_name(alloc, rest)?;
    let (_, rest) = take_mark(Mark::Semicolon, rest)?;
    Ok((Member::Field { line, kind, name }, rest))
}

/// A static field.
fn static_field<'t>(alloc: Global, rest: Rest<'t>) -> Result<(Member, Rest<'t>), Stop<'t>>
    ensures gives { Gives (λ a. a) result (reader.by_start blocks.body reader.static (input rest.entry)) }
    ensures room { IfOk result (λ p. p.1.room ≡ rest.entry.room) }
{
    let (word, rest) = take_any(rest)?;
    let line = word.line;
    let (_, rest) = take_keyword(Keyword::Ref, rest)?;
    let (name, rest) = take_name(alloc, rest)?;
    let (_, rest) = take_mark(Mark::Semicolon, rest)?;
    Ok((Member::Static { line, name }, rest))
}

/// The line of the next token.
fn next_line(tokens: &[Token]) -> u32
    ensures { result ≡ reader.next_line tokens.now }
{
    match tokens {
        [token, ..] => token.line,
        [] => 0,
    }
}

/// One member of a class.
#[tactic(auto, using(crate::proofs::parser::MemberReturns::member_by))]
fn member<'t>(alloc: Global, rest: Rest<'t>) -> Result<(Member, Rest<'t>), Stop<'t>>
    requires { rest.room ≤ MOST_LEVELS }
    ensures gives { Gives (λ a. a) result (reader.one_member blocks.body (input rest.entry)) }
    ensures room { IfOk result (λ p. p.1.room ≡ rest.entry.room) }
{
    match next_keyword(rest.tokens) {
        Some(Keyword::Long) => field(alloc, Kind::Long, rest),
        Some(Keyword::Boolean) => field(alloc, Kind::Bool, rest),
        Some(Keyword::Text) => field(alloc, Kind::Text, rest),
        Some(Keyword::Ref) => field(alloc, Kind::Ref, rest),
        Some(Keyword::Static) => static_field(alloc, rest),
        Some(Keyword::Synchronized) => synchronized(alloc, rest),
        _ => method(alloc, next_line(rest.tokens), false, rest),
    }
}

/// Members up to the closing brace.
fn until_brace<'t>(alloc: Global, rest: Rest<'t>) -> Result<(Items<Member>, Rest<'t>), Stop<'t>>
    requires { rest.room ≤ MOST_LEVELS }
    ensures gives { Gives (λ all. all) result (reader.until_brace (reader.one_member blocks.body) (length rest.entry.tokens.now) (input rest.entry)) }
    ensures room { IfOk result (λ p. p.1.room ≡ rest.entry.room) }
{
    let mut all = Items::new(alloc);
    let mut left = rest;
    for _ in 0..rest.tokens.len() {
        if is_mark(Mark::CloseBrace, left.tokens) {
            return Ok((all, left));
        }
        let (a, behind) = member(alloc, left)?;
        all.push(a)?;
        left = behind;
    }
    if is_mark(Mark::CloseBrace, left.tokens) {
        return Ok((all, left));
    }
    Err(Stop::Unexpected(left.tokens))
}

/// Members in braces.
pub fn members<'t>(alloc: Global, rest: Rest<'t>) -> Result<(Items<Member>, Rest<'t>), Stop<'t>>
    requires { rest.room ≤ MOST_LEVELS }
    ensures gives { Gives (λ all. all) result (reader.braced (reader.one_member blocks.body) (input rest.entry)) }
    ensures room { IfOk result (λ p. p.1.room ≡ rest.entry.room) }
{
    let (_, rest) = open_mark(Mark::OpenBrace, rest)?;
    let (all, rest) = until_brace(alloc, rest)?;
    let (_, rest) = close_mark(Mark::CloseBrace, rest)?;
    Ok((all, rest))
}
