//! Classes and threads: read from token to token (`specs/ProgramReader.antt`).

ghost use Rattle.std.specs.Prelude.{◌≡◌, ◌≤◌, length, IfOk};
ghost use Rattle.dso_syntax.specs.StatementLevels as blocks;
ghost use Rattle.dso_syntax.specs.ProgramReader as reader;
ghost use Rattle.dso_tokens.specs.Gives.{Gives, input};

use crate::limits::MOST_LEVELS;
use crate::member::{body, members};
use crate::names::take_name;
use crate::tree::Item;
use dso_base::Items;
use dso_tokens::{Form, Keyword, Rest, Stop, is_keyword, take_any, take_keyword};
use std::alloc::Global;

/// A number that is not too wide, with its line.
fn take_number<'t>(rest: Rest<'t>) -> Result<((i64, u32), Rest<'t>), Stop<'t>>
    ensures gives { Gives (λ p. p) result (reader.number_from rest.entry.room rest.entry.tokens.now) }
    ensures room { IfOk result (λ p. p.1.room ≡ rest.entry.room) }
{
    let [token, tokens @ ..] = rest.tokens else {
        return Err(Stop::Unexpected(rest.tokens));
    };
    match &token.form {
        Form::Number(Some(number)) => Ok((
            (*number, token.line),
            Rest {
                tokens,
                room: rest.room,
            },
        )),
        Form::Number(None) => Err(Stop::TooWide(rest.tokens)),
        _ => Err(Stop::Unexpected(rest.tokens)),
    }
}

/// A class.
fn class<'t>(alloc: Global, rest: Rest<'t>) -> Result<(Item, Rest<'t>), Stop<'t>>
    requires { rest.room ≤ MOST_LEVELS }
    ensures gives { Gives (λ a. a) result (blocks.class (input rest.entry)) }
    ensures room { IfOk result (λ p. p.1.room ≡ rest.entry.room) }
{
    let (word, rest) = take_any(rest)?;
    let line = word.line;
    let (name, rest) = take_name(alloc, rest)?;
    let (members, rest) = members(alloc, rest)?;
    let class = Item::Class {
        line,
        name,
        members,
    };
    Ok((class, rest))
}

/// A thread.
fn thread<'t>(alloc: Global, rest: Rest<'t>) -> Result<(Item, Rest<'t>), Stop<'t>>
    requires { rest.room ≤ MOST_LEVELS }
    ensures gives { Gives (λ a. a) result (blocks.thread (input rest.entry)) }
    ensures room { IfOk result (λ p. p.1.room ≡ rest.entry.room) }
{
    let (word, rest) = take_keyword(Keyword::Thread, rest)?;
    let line = word.line;
    let ((number, number_line), rest) = take_number(rest)?;
    let (body, rest) = body(alloc, rest)?;
    let thread = Item::Thread {
        line,
        number,
        number_line,
        body,
    };
    Ok((thread, rest))
}

/// A class or a thread.
fn item<'t>(alloc: Global, rest: Rest<'t>) -> Result<(Item, Rest<'t>), Stop<'t>>
    requires { rest.room ≤ MOST_LEVELS }
    ensures gives { Gives (λ a. a) result (reader.one_item blocks.body (input rest.entry)) }
    ensures room { IfOk result (λ p. p.1.room ≡ rest.entry.room) }
{
    if is_keyword(Keyword::Class, rest.tokens) {
        class(alloc, rest)
    } else {
        thread(alloc, rest)
    }
}

/// Classes and threads up to the end.
#[tactic(auto, using(crate::proofs::parser::MemberReturns::items_end, crate::proofs::parser::MemberReturns::items_rest))]
pub fn items<'t>(alloc: Global, rest: Rest<'t>) -> Result<(Items<Item>, Rest<'t>), Stop<'t>>
    requires { rest.room ≤ MOST_LEVELS }
    ensures gives { Gives (λ all. all) result (reader.items_from blocks.body (length rest.entry.tokens.now) rest.entry.room rest.entry.tokens.now) }
{
    let mut all = Items::new(alloc);
    let mut left = rest;
    for _ in 0..rest.tokens.len() {
        if left.tokens.is_empty() {
            return Ok((all, left));
        }
        let (a, behind) = item(alloc, left)?;
        all.push(a)?;
        left = behind;
    }
    if left.tokens.is_empty() {
        return Ok((all, left));
    }
    Err(Stop::Unexpected(left.tokens))
}
