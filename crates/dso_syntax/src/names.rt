//! Names, as they are taken from the tokens that are left (`specs/ExpressionReader.antt`).

ghost use Rattle.std.specs.Prelude.{◌≡◌, IfOk};
ghost use Rattle.dso_syntax.specs.ExpressionReader as reader;
ghost use Rattle.dso_tokens.specs.Gives.{Gives, input};

use crate::tree::Ident;
use dso_tokens::{Form, Rest, Stop, Token};
use std::alloc::Global;

/// Takes a name.
pub fn take_name<'t>(alloc: Global, rest: Rest<'t>) -> Result<(Ident, Rest<'t>), Stop<'t>>
    ensures gives { Gives (λ name. name) result (reader.take_name (input rest.entry)) }
    ensures room { IfOk result (λ p. p.1.room ≡ rest.entry.room) }
{
    match rest.tokens {
        [
            Token {
                line,
                form: Form::Name(name),
                ..
            },
            tokens @ ..,
        ] => {
            let name = Ident {
                line: *line,
                name: name.clone()?,
            };
            Ok((
                name,
                Rest {
                    tokens,
                    room: rest.room,
                },
            ))
        }
        _ => Err(Stop::Unexpected(rest.tokens)),
    }
}
