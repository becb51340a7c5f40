//! The tokens that are left to read, and how they are taken (`specs/TokenReader.antt`).

ghost use Rattle.std.specs.Prelude.{◌≡◌, ◌<◌, suc, IfOk};
ghost use Rattle.dso_tokens.specs.TokenReader as reader;
ghost use Rattle.dso_tokens.specs.Gives.{Gives, input};

use crate::stop::Stop;
use crate::token::{Form, Keyword, Mark, Token};

/// The tokens that are left, and how many levels may still be opened.
#[derive(Clone, Copy)]
pub struct Rest<'t> {
    pub tokens: &'t [Token],
    pub room: u32,
}

/// The symbol that is next.
pub fn next_mark(tokens: &[Token]) -> Option<Mark>
    ensures { result ≡ reader.next_mark tokens.now }
{
    match tokens {
        [
            Token {
                form: Form::Mark(mark),
                ..
            },
            ..
        ] => Some(*mark),
        _ => None,
    }
}

/// The reserved word that is next.
pub fn next_keyword(tokens: &[Token]) -> Option<Keyword>
    ensures { result ≡ reader.next_keyword tokens.now }
{
    match tokens {
        [
            Token {
                form: Form::Keyword(word),
                ..
            },
            ..
        ] => Some(*word),
        _ => None,
    }
}

/// Whether a number is next that is too wide.
pub fn is_wide(tokens: &[Token]) -> bool
    ensures { result ≡ reader.is_wide (reader.next_form tokens.now) }
{
    match tokens {
        [
            Token {
                form: Form::Number(None),
                ..
            },
            ..
        ] => true,
        _ => false,
    }
}

/// Whether this symbol is next.
pub fn is_mark(mark: Mark, tokens: &[Token]) -> bool
    ensures { result ≡ reader.is_mark mark (reader.next_mark tokens.now) }
{
    match next_mark(tokens) {
        Some(other) => other == mark,
        None => false,
    }
}

/// Whether this reserved word is next.
pub fn is_keyword(word: Keyword, tokens: &[Token]) -> bool
    ensures { result ≡ reader.is_keyword word (reader.next_keyword tokens.now) }
{
    match next_keyword(tokens) {
        Some(other) => other == word,
        None => false,
    }
}

/// Takes the next token.
pub fn take_any<'t>(rest: Rest<'t>) -> Result<(&'t Token, Rest<'t>), Stop<'t>>
    ensures gives { Gives (λ t. t.now) result (reader.take_any (input rest.entry)) }
    ensures room { IfOk result (λ p. p.1.room ≡ rest.entry.room) }
{
    match rest.tokens {
        [token, tokens @ ..] => Ok((
            token,
            Rest {
                tokens,
                room: rest.room,
            },
        )),
        [] => Err(Stop::Unexpected(rest.tokens)),
    }
}

/// Takes this symbol.
pub fn take_mark<'t>(mark: Mark, rest: Rest<'t>) -> Result<(&'t Token, Rest<'t>), Stop<'t>>
    ensures gives { Gives (λ t. t.now) result (reader.take_mark mark (input rest.entry)) }
    ensures room { IfOk result (λ p. p.1.room ≡ rest.entry.room) }
{
    if is_mark(mark, rest.tokens) {
        take_any(rest)
    } else {
        Err(Stop::Unexpected(rest.tokens))
    }
}

/// Takes this reserved word.
pub fn take_keyword<'t>(word: Keyword, rest: Rest<'t>) -> Result<(&'t Token, Rest<'t>), Stop<'t>>
    ensures gives { Gives (λ t. t.now) result (reader.take_keyword word (input rest.entry)) }
    ensures room { IfOk result (λ p. p.1.room ≡ rest.entry.room) }
{
    if is_keyword(word, rest.tokens) {
        take_any(rest)
    } else {
        Err(Stop::Unexpected(rest.tokens))
    }
}

/// Takes a level from the room that is left.
pub fn enter<'t>(rest: Rest<'t>) -> Result<((), Rest<'t>), Stop<'t>>
    ensures gives { Gives (λ _. tt) result (reader.enter (input rest.entry)) }
    ensures room { IfOk result (λ p. suc p.1.room ≡ rest.entry.room) }
{
    if rest.room == 0 {
        return Err(Stop::TooDeep(rest.tokens));
    }
    Ok((
        (),
        Rest {
            tokens: rest.tokens,
            room: rest.room - 1,
        },
    ))
}

/// Takes a symbol that opens a level.
pub fn open_mark<'t>(mark: Mark, rest: Rest<'t>) -> Result<(&'t Token, Rest<'t>), Stop<'t>>
    ensures gives { Gives (λ t. t.now) result (reader.open_mark mark (input rest.entry)) }
    ensures room { IfOk result (λ p. suc p.1.room ≡ rest.entry.room) }
{
    if !is_mark(mark, rest.tokens) {
        return Err(Stop::Unexpected(rest.tokens));
    }
    let ((), rest) = enter(rest)?;
    take_any(rest)
}

/// Takes a symbol that closes a level.
pub fn close_mark<'t>(mark: Mark, rest: Rest<'t>) -> Result<(&'t Token, Rest<'t>), Stop<'t>>
    requires { rest.room < 4294967295 }
    ensures gives { Gives (λ t. t.now) result (reader.close_mark mark (input rest.entry)) }
    ensures room { IfOk result (λ p. p.1.room ≡ suc rest.entry.room) }
{
    let (token, rest) = take_mark(mark, rest)?;
    Ok((
        token,
        Rest {
            tokens: rest.tokens,
            room: rest.room + 1,
        },
    ))
}
