//! What a token is by itself: an operator, a sign, a kind of values (`specs/Operators.antt`).

ghost use Rattle.std.specs.Prelude.{◌≡◌};
ghost use Rattle.dso_tokens.specs.Operators as operators;
ghost use Rattle.dso_tokens.specs.TokenReader as reader;

use crate::cursor::{next_keyword, next_mark};
use crate::token::{Keyword, Mark, Token};
use dso_base::{Kind, Op};

/// The operator between two operands that a symbol is, with its rank: the lower the rank, the tighter it binds.
fn operator_of(mark: Mark) -> Option<(u32, Op)>
    ensures { result ≡ operators.operator_of mark }
{
    match mark {
        Mark::Star => Some((0, Op::Mul)),
        Mark::Slash => Some((0, Op::Div)),
        Mark::Percent => Some((0, Op::Rem)),
        Mark::Plus => Some((1, Op::Add)),
        Mark::Minus => Some((1, Op::Sub)),
        Mark::Less => Some((2, Op::Lt)),
        Mark::LessEqual => Some((2, Op::Le)),
        Mark::Greater => Some((2, Op::Gt)),
        Mark::GreaterEqual => Some((2, Op::Ge)),
        Mark::EqualTo => Some((3, Op::Eq)),
        Mark::NotEqual => Some((3, Op::Ne)),
        Mark::AndAnd => Some((4, Op::And)),
        Mark::OrOr => Some((5, Op::Or)),
        _ => None,
    }
}

/// The operator of this rank that is next.
pub fn operator_at(rank: u32, tokens: &[Token]) -> Option<Op>
    ensures { result ≡ reader.of_rank rank (reader.operator_at (reader.next_mark tokens.now)) }
{
    let (other, op) = operator_of(next_mark(tokens)?)?;
    if other == rank { Some(op) } else { None }
}

/// The operator before one operand that is next.
pub fn sign_at(tokens: &[Token]) -> Option<Op>
    ensures { result ≡ reader.sign_at (reader.next_mark tokens.now) }
{
    match next_mark(tokens)? {
        Mark::Minus => Some(Op::Neg),
        Mark::Bang => Some(Op::Not),
        _ => None,
    }
}

/// The kind of values whose word is next.
pub fn kind_at(tokens: &[Token]) -> Option<Kind>
    ensures { result ≡ reader.kind_at (reader.next_keyword tokens.now) }
{
    match next_keyword(tokens)? {
        Keyword::Long => Some(Kind::Long),
        Keyword::Boolean => Some(Kind::Bool),
        Keyword::Text => Some(Kind::Text),
        Keyword::Ref => Some(Kind::Ref),
        _ => None,
    }
}
