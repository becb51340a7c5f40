//! The tokens of a program text, and how they are taken one after the other.
#![tactic(auto)]

mod bytes;
mod cursor;
mod lex;
mod limits;
mod literal;
mod operators;
mod scan;
mod stop;
mod token;

pub use cursor::{
    Rest, close_mark, enter, is_keyword, is_mark, is_wide, next_keyword, next_mark, open_mark,
    take_any, take_keyword, take_mark,
};
pub use lex::{Lexed, one_reading, tokens_of};
pub use limits::LONGEST_TEXT;
pub use operators::{kind_at, operator_at, sign_at};
pub use stop::Stop;
pub use token::{Ending, Form, Keyword, Mark, Token};
