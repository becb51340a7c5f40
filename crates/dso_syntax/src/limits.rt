//! The levels of nesting.

/// The most levels of nesting.
pub const MOST_LEVELS: u32 = 64;

/// One level more than a program has: so many bound the calls of the parser, so that the room alone bounds the nesting.
pub const PARSER_LEVELS: u32 = 65;
