//! The expression that a token is by itself (`specs/Grammar.antt`).

ghost use Rattle.std.specs.Prelude.{◌≡◌, IfOk};
ghost use Rattle.dso_syntax.specs.Grammar as grammar;
ghost use Rattle.dso_syntax.specs.ExpressionReader as reader;

use crate::tree::ExprForm;
use dso_tokens::{Form, Keyword, Token};
use std::alloc::{AllocError, Global};

/// The expression that the next token is by itself.
pub fn plain_at(alloc: Global, tokens: &[Token]) -> Result<Option<ExprForm>, AllocError>
    ensures { IfOk result (λ plain. plain ≡ reader.plain_at tokens.now) }
{
    match tokens {
        [token, ..] => plain_of(alloc, &token.form),
        [] => Ok(None),
    }
}

/// The expression that a token is by itself.
fn plain_of(alloc: Global, form: &Form) -> Result<Option<ExprForm>, AllocError>
    ensures { IfOk result (λ plain. plain ≡ grammar.plain_of form.now) }
{
    match form {
        Form::Number(Some(number)) => Ok(Some(ExprForm::Number(*number))),
        Form::Text(content) => Ok(Some(ExprForm::Text(content.clone()?))),
        Form::Name(name) => Ok(Some(ExprForm::Name(name.clone()?))),
        Form::Keyword(Keyword::True) => Ok(Some(ExprForm::Truth(true))),
        Form::Keyword(Keyword::False) => Ok(Some(ExprForm::Truth(false))),
        Form::Keyword(Keyword::Null) => Ok(Some(ExprForm::Null)),
        Form::Keyword(Keyword::This) => Ok(Some(ExprForm::This)),
        _ => Ok(None),
    }
}
