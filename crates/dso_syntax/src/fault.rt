//! What is wrong with a program text.

use dso_base::NoMemory;
use thiserror::Error;

/// Why a text is no program, with the place of the byte where it is so, counted from 0.
#[derive(Clone, Copy, Debug, PartialEq, Eq, Error)]
pub enum SyntaxFault {
    /// A byte that no program has.
    #[error("byte {0}: no program has this byte")]
    BadByte(u64),
    /// A byte that begins no token.
    #[error("byte {0}: no token begins so")]
    BadToken(u64),
    /// A token that no program has here, or the end of the text.
    #[error("byte {0}: not what a program has here")]
    Unexpected(u64),
    /// A number over 9223372036854775807.
    #[error("byte {0}: a number over 9223372036854775807")]
    NumberTooWide(u64),
    /// The text has over 1,048,576 bytes.
    #[error("the text is longer than 1048576 bytes")]
    TooLong,
    /// The token opens level 65 of nesting.
    #[error("byte {0}: nested deeper than 64 levels")]
    NestTooDeep(u64),
    /// An allocation was refused.
    #[error("out of memory")]
    NoMemory(NoMemory),
}

impl From<NoMemory> for SyntaxFault {
    ghost use Rattle.std.specs.Prelude.{◌≡◌};
    ghost use Rattle.dso_syntax.specs.declared.fault.SyntaxFault.TheVariants as fault;

    ghost from_gives = { λ refused e. e ≡ fault.NoMemory refused };

    fn from(refused: NoMemory) -> SyntaxFault {
        SyntaxFault::NoMemory(refused)
    }
}
