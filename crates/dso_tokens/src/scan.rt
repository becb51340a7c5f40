//! What stands at the front of a text: white space or a comment, a token, a fault, or nothing (`specs/Token.antt`).

ghost use Rattle.std.specs.Prelude.{◌≡◌, ◌≢◌, ◌<◌, ◌≤◌, ◌+◌, ◌-◌, ◌^◌, false, true, length, find, IfOk, IfSome, Some, None};
ghost use Rattle.std.specs.Prelude.{nat_eq};
ghost use Rattle.std.specs.List.{starts_with};
ghost use Rattle.dso_tokens.specs.Bytes.{begins, is_word};
ghost use Rattle.dso_tokens.specs.Spelling as spelling;
ghost use Rattle.dso_tokens.specs.Token as token;
ghost use Rattle.dso_tokens.specs.Scan as spec;

use crate::bytes::{
    Class, is_allowed, is_digit, is_letter, is_printable, is_white, is_word, run_len,
};
use crate::limits::{LARGEST_NUMBER, LONGEST_NAME};
use crate::literal::literal_at;
use crate::token::{Form, Keyword, Mark};
use dso_base::{Items, NoMemory, Word};
use std::alloc::Global;

/// What a text begins with. A gap is white space or a comment, with its number of bytes.
#[derive(Drop)]
pub enum Front {
    End,
    Gap(usize),
    Token(Form, usize),
    BadByte,
    BadToken,
}

const KEYWORDS: [Keyword; 22] = [
    Keyword::Class,
    Keyword::Static,
    Keyword::Synchronized,
    Keyword::Thread,
    Keyword::Var,
    Keyword::If,
    Keyword::Else,
    Keyword::While,
    Keyword::Wait,
    Keyword::Notify,
    Keyword::NotifyAll,
    Keyword::Print,
    Keyword::Return,
    Keyword::New,
    Keyword::This,
    Keyword::Null,
    Keyword::True,
    Keyword::False,
    Keyword::Long,
    Keyword::Boolean,
    Keyword::Text,
    Keyword::Ref,
];

const DOUBLE_MARKS: [Mark; 6] = [
    Mark::EqualTo,
    Mark::NotEqual,
    Mark::LessEqual,
    Mark::GreaterEqual,
    Mark::AndAnd,
    Mark::OrOr,
];

const SINGLE_MARKS: [Mark; 18] = [
    Mark::OpenBrace,
    Mark::CloseBrace,
    Mark::OpenParen,
    Mark::CloseParen,
    Mark::OpenBracket,
    Mark::CloseBracket,
    Mark::Semicolon,
    Mark::Comma,
    Mark::Dot,
    Mark::Assign,
    Mark::Less,
    Mark::Greater,
    Mark::Plus,
    Mark::Minus,
    Mark::Star,
    Mark::Slash,
    Mark::Percent,
    Mark::Bang,
];

/// How a reserved word is written.
fn word_of(keyword: Keyword) -> &'static [u8]
    ensures { result.now ≡ spelling.word_of keyword }
{
    match keyword {
        Keyword::Class => b"class",
        Keyword::Static => b"static",
        Keyword::Synchronized => b"synchronized",
        Keyword::Thread => b"thread",
        Keyword::Var => b"var",
        Keyword::If => b"if",
        Keyword::Else => b"else",
        Keyword::While => b"while",
        Keyword::Wait => b"wait",
        Keyword::Notify => b"notify",
        Keyword::NotifyAll => b"notifyAll",
        Keyword::Print => b"print",
        Keyword::Return => b"return",
        Keyword::New => b"new",
        Keyword::This => b"this",
        Keyword::Null => b"null",
        Keyword::True => b"true",
        Keyword::False => b"false",
        Keyword::Long => b"long",
        Keyword::Boolean => b"boolean",
        Keyword::Text => b"text",
        Keyword::Ref => b"ref",
    }
}

/// How a symbol is written.
fn symbol_of(mark: Mark) -> &'static [u8]
    ensures { result.now ≡ spelling.symbol_of mark }
{
    match mark {
        Mark::OpenBrace => b"{",
        Mark::CloseBrace => b"}",
        Mark::OpenParen => b"(",
        Mark::CloseParen => b")",
        Mark::OpenBracket => b"[",
        Mark::CloseBracket => b"]",
        Mark::Semicolon => b";",
        Mark::Comma => b",",
        Mark::Dot => b".",
        Mark::Assign => b"=",
        Mark::EqualTo => b"==",
        Mark::NotEqual => b"!=",
        Mark::Less => b"<",
        Mark::LessEqual => b"<=",
        Mark::Greater => b">",
        Mark::GreaterEqual => b">=",
        Mark::Plus => b"+",
        Mark::Minus => b"-",
        Mark::Star => b"*",
        Mark::Slash => b"/",
        Mark::Percent => b"%",
        Mark::Bang => b"!",
        Mark::AndAnd => b"&&",
        Mark::OrOr => b"||",
    }
}

/// The first of these reserved words that is written so.
fn keyword_among(keywords: &[Keyword], word: &[u8]) -> Option<Keyword>
    ensures { result ≡ spec.keyword_among keywords.now word.now }
{
    let mut keywords = keywords;
    while let [keyword, rest @ ..] = keywords {
        if word_of(*keyword) == word {
            return Some(*keyword);
        }
        keywords = rest;
    }
    None
}

/// The first of these symbols that stands at the front.
fn mark_among(marks: &[Mark], text: &[u8]) -> Option<Mark>
    ensures { result ≡ spec.mark_among marks.now text.now }
{
    let mut marks = marks;
    while let [mark, rest @ ..] = marks {
        if text.starts_with(symbol_of(*mark)) {
            return Some(*mark);
        }
        marks = rest;
    }
    None
}

/// The bytes as a list of their own.
fn copied(alloc: Global, bytes: &[u8]) -> Result<Word, NoMemory>
    ensures { IfOk result (λ word. word ≡ bytes.now) }
{
    let mut word = Vec::new(alloc);
    word.extend_from_slice(bytes)?;
    Ok(Items::from_vec(word))
}

/// What a word of so many bytes is: a reserved word, or a name where it is not too long.
fn name_of(alloc: Global, word: &[u8], count: usize) -> Result<Option<(Form, usize)>, NoMemory>
    ensures { IfOk result (λ found. found ≡ spec.name_of count word.now (spec.keyword_of word.now)) }
{
    if let Some(keyword) = keyword_among(&KEYWORDS, word) {
        return Ok(Some((Form::Keyword(keyword), count)));
    }
    if count > LONGEST_NAME {
        return Ok(None);
    }
    Ok(Some((Form::Name(copied(alloc, word)?), count)))
}

/// The letters, digits and underscores at the front.
fn word_at(alloc: Global, text: &[u8]) -> Result<Option<(Form, usize)>, NoMemory>
    ensures { IfOk result (λ found. found ≡ spec.word_at text.now) }
{
    let count = run_len(Class::Word, text);
    name_of(alloc, &text[..count], count)
}

/// The value of these digits, None where it is too wide.
fn number_of(digits: &[u8]) -> Option<i64>
    ensures { result ≡ token.number_of digits.now }
{
    let mut value: u128 = 0;
    for digit in digits {
        value = (value * 10 + digit.saturating_sub(b'0') as u128).min(LARGEST_NUMBER as u128 + 1);
    }
    if value <= LARGEST_NUMBER as u128 {
        Some(value as i64)
    } else {
        None
    }
}

/// The digits at the front, where no letter follows.
fn number_at(text: &[u8]) -> Option<(Form, usize)>
    ensures { result ≡ spec.number_at text.now }
{
    let count = run_len(Class::Digit, text);
    let (digits, rest) = text.split_at(count);
    if begins_word(rest) {
        return None;
    }
    Some((Form::Number(number_of(digits)), count))
}

/// Whether the first byte goes on with a name.
fn begins_word(text: &[u8]) -> bool
    ensures { result ≡ begins is_word text.now }
{
    match text {
        [b, ..] => is_word(*b),
        [] => false,
    }
}

/// The longest symbol at the front.
fn mark_at(text: &[u8]) -> Option<(Form, usize)>
    ensures { result ≡ spec.mark_at text.now }
{
    if let Some(mark) = mark_among(&DOUBLE_MARKS, text) {
        return Some((Form::Mark(mark), 2));
    }
    let mark = mark_among(&SINGLE_MARKS, text)?;
    Some((Form::Mark(mark), 1))
}

/// The token at the front, with its length; None where no token begins.
fn token_at(alloc: Global, text: &[u8]) -> Result<Option<(Form, usize)>, NoMemory>
    requires { length text.now < 2 ^ 63 }
    ensures { IfOk result (λ found. found ≡ spec.token_at text.now) }
{
    match text {
        [b, ..] if is_letter(*b) => word_at(alloc, text),
        [b, ..] if is_digit(*b) => Ok(number_at(text)),
        [b'"', rest @ ..] => literal_at(alloc, rest),
        [_, ..] => Ok(mark_at(text)),
        [] => Ok(None),
    }
}

/// What a text begins with.
pub fn front_at(alloc: Global, text: &[u8]) -> Result<Front, NoMemory>
    requires { length text.now < 2 ^ 63 }
    ensures { IfOk result (λ found. found ≡ spec.front_at text.now) }
{
    match text {
        [] => Ok(Front::End),
        [b, ..] if is_white(*b) => Ok(Front::Gap(1)),
        [b'/', b'/', comment @ ..] => Ok(Front::Gap(2 + run_len(Class::Line, comment))),
        [b, ..] if !is_allowed(*b) => Ok(Front::BadByte),
        _ => match token_at(alloc, text)? {
            Some((form, len)) => Ok(Front::Token(form, len)),
            None => Ok(Front::BadToken),
        },
    }
}
