//! The numbers of commands.

use case_words::{first_of, number};

/// More than any row counts to: below it no call outgrows its bounds.
pub const MOST: u64 = 1 << 60;

/// The first word as a number, 0 where it is none, and the words behind it.
pub fn number_of(text: &str) -> (u64, &str) {
    let (word, rest) = first_of(text);
    (number(word).unwrap_or(0), rest)
}
