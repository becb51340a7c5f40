//! The limits of a program text and of its tokens.

/// The most bytes of a text.
pub const LONGEST_TEXT: usize = 1_048_576;

/// The most bytes of a name.
pub const LONGEST_NAME: usize = 64;

/// The most bytes that a text literal may stand for.
pub const LONGEST_CONTENT: usize = 255;

/// The largest number.
pub const LARGEST_NUMBER: u64 = 9_223_372_036_854_775_807;
