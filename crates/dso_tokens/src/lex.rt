//! The tokens of a text (`specs/Reading.antt`).

ghost use Rattle.std.specs.Prelude.{◌≡◌, ◌≤◌, ◌+◌, ℕ, List, length, IfOk};
ghost use Rattle.dso_tokens.specs.Bytes.{Text, line_after};
ghost use Rattle.dso_tokens.specs.Reading.{Reads};
ghost use Rattle.dso_tokens.specs.declared.token.Token.{Token};
ghost use Rattle.dso_tokens.specs.declared.token.Ending.{Ending};

use crate::limits::LONGEST_TEXT;
use crate::scan::{Front, front_at};
use crate::token::{Ending, Token};
use dso_base::{Items, NoMemory};
use std::alloc::Global;

/// The tokens of a text, and how they end.
#[derive(Drop)]
pub struct Lexed {
    pub tokens: Items<Token>,
    pub ending: Ending,
}

/// Reads the tokens of a text, up to its end or to the first place where no token begins.
pub fn tokens_of(alloc: Global, text: &[u8]) -> Result<Lexed, NoMemory>
    requires { length text.now ≤ LONGEST_TEXT }
    ensures { IfOk result (λ lexed. Reads 0 1 text.now lexed.tokens lexed.ending) }
{
    let mut tokens = Items::new(alloc);
    let mut place: u64 = 0;
    let mut line: u32 = 1;
    let mut rest = text;
    loop {
        match front_at(alloc, rest)? {
            Front::Gap(len) => {
                line = line_after(rest[0], line);
                place += len as u64;
                rest = &rest[len..];
            }
            Front::Token(form, len) => {
                tokens.push(Token { place, line, form })?;
                place += len as u64;
                rest = &rest[len..];
            }
            Front::End => {
                return Ok(Lexed {
                    tokens,
                    ending: Ending::End(place),
                });
            }
            Front::BadByte => {
                return Ok(Lexed {
                    tokens,
                    ending: Ending::BadByte(place),
                });
            }
            Front::BadToken => {
                return Ok(Lexed {
                    tokens,
                    ending: Ending::BadToken(place),
                });
            }
        }
    }
}

/// The line behind a byte.
fn line_after(b: u8, line: u32) -> u32
    requires { line ≤ LONGEST_TEXT + 1 }
    ensures { result ≡ line_after b line }
{
    if b == b'\n' { line + 1 } else { line }
}

/// A text is read in one way: two readings of it have the same tokens and end alike.
pub fn one_reading()
    ensures { (place line : ℕ) (text : Text) (tokens others : List Token) (end other : Ending)
        → Reads place line text tokens end → Reads place line text others other
        → (tokens ≡ others) × (end ≡ other) }
{}
