//! Tokens.

use dso_base::Word;

/// A reserved word.
#[derive(Clone, Copy, PartialEq, Eq)]
pub enum Keyword {
    Class,
    Static,
    Synchronized,
    Thread,
    Var,
    If,
    Else,
    While,
    Wait,
    Notify,
    NotifyAll,
    Print,
    Return,
    New,
    This,
    Null,
    True,
    False,
    Long,
    Boolean,
    Text,
    Ref,
}

/// A symbol.
#[derive(Clone, Copy, PartialEq, Eq)]
pub enum Mark {
    OpenBrace,
    CloseBrace,
    OpenParen,
    CloseParen,
    OpenBracket,
    CloseBracket,
    Semicolon,
    Comma,
    Dot,
    Assign,
    EqualTo,
    NotEqual,
    Less,
    LessEqual,
    Greater,
    GreaterEqual,
    Plus,
    Minus,
    Star,
    Slash,
    Percent,
    Bang,
    AndAnd,
    OrOr,
}

/// What a token is.
#[derive(Drop)]
pub enum Form {
    Name(Word),
    Keyword(Keyword),
    /// A number, None where it is wider than the language's.
    Number(Option<i64>),
    /// A text literal by its content.
    Text(Word),
    Mark(Mark),
}

/// A token with the place of its first byte, counted from 0, and its line, counted from 1.
#[derive(Drop)]
pub struct Token {
    pub place: u64,
    pub line: u32,
    pub form: Form,
}

/// How the tokens of a text end: with the text, or before a fault. The number is the place.
#[derive(Clone, Copy)]
pub enum Ending {
    End(u64),
    BadByte(u64),
    BadToken(u64),
}
