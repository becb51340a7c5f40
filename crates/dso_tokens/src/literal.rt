//! Text literals (`specs/Scan.antt`).

ghost use Rattle.std.specs.Prelude.{◌≡◌, ◌<◌, ◌≤◌, ◌-◌, ◌^◌, false, length, IfOk, IfSome};
ghost use Rattle.dso_tokens.specs.Scan as spec;

use crate::bytes::is_printable;
use crate::limits::LONGEST_CONTENT;
use crate::token::Form;
use dso_base::{Items, NoMemory, Word};
use std::alloc::Global;

/// What a byte of a text literal is, from behind the opening quote on.
#[derive(Clone, Copy)]
pub enum LiteralByte {
    Close,
    Backslash,
    Content,
    Bad,
}

/// What a byte is, behind a backslash or not.
fn literal_byte_of(after_backslash: bool, b: u8) -> LiteralByte
    ensures { result ≡ spec.literal_byte_of after_backslash b }
{
    match (after_backslash, b) {
        (true, b'"' | b'\\') => LiteralByte::Content,
        (true, _) => LiteralByte::Bad,
        (false, b'"') => LiteralByte::Close,
        (false, b'\\') => LiteralByte::Backslash,
        (false, other) if is_printable(other) => LiteralByte::Content,
        _ => LiteralByte::Bad,
    }
}

/// The content of a text literal from behind its opening quote, and its length with the closing quote.
#[tactic(auto, using(crate::proofs::tokens::LiteralContent::at_close, crate::proofs::tokens::LiteralContent::at_backslash, crate::proofs::tokens::LiteralContent::at_content, crate::proofs::tokens::LiteralContent::at_bad))]
fn content_at(alloc: Global, text: &[u8]) -> Result<Option<(Word, usize)>, NoMemory>
    ensures value { IfOk result (λ found. found ≡ spec.content_at false text.now) }
    ensures within { IfOk result (λ found. IfSome found (λ taken. taken.1 ≤ length text.now)) }
{
    let mut text = text;
    let mut content = Items::new(alloc);
    let mut len = 0;
    let mut after_backslash = false;
    while let [b, rest @ ..] = text {
        len += 1;
        text = rest;
        match literal_byte_of(after_backslash, *b) {
            LiteralByte::Close => return Ok(Some((content, len))),
            LiteralByte::Backslash => after_backslash = true,
            LiteralByte::Content => {
                content.push(*b)?;
                after_backslash = false;
            }
            LiteralByte::Bad => return Ok(None),
        }
    }
    Ok(None)
}

/// A text literal from behind its opening quote.
pub fn literal_at(alloc: Global, text: &[u8]) -> Result<Option<(Form, usize)>, NoMemory>
    requires { length text.now < 2 ^ 63 }
    ensures { IfOk result (λ found. found ≡ spec.literal_of (spec.content_at false text.now)) }
{
    match content_at(alloc, text)? {
        Some((content, len)) if content.len() <= LONGEST_CONTENT => {
            Ok(Some((Form::Text(content), len + 1)))
        }
        _ => Ok(None),
    }
}
