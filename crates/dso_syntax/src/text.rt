//! Whole program texts (`specs/ParseAnswer.antt`).

ghost use Rattle.std.specs.Prelude.{◌≡◌, ◌≤◌, ◌<◌, Err, length, IfOk, IfErr};
ghost use Rattle.dso_syntax.specs.ParseAnswer as answer;
ghost use Rattle.dso_syntax.specs.TextLimits.{longest_text};
ghost use Rattle.dso_syntax.specs.SyntaxFaults.{IsText};
ghost use Rattle.dso_syntax.specs.declared.fault.SyntaxFault.TheVariants as fault;

use crate::fault::SyntaxFault;
use crate::item::items;
use crate::limits::MOST_LEVELS;
use crate::tree::Ast;
use dso_tokens::{Ending, LONGEST_TEXT, Lexed, Rest, Stop, Token, tokens_of};
use std::alloc::Global;

/// What is wrong behind all tokens.
fn fault_behind(ending: Ending) -> SyntaxFault
    ensures { result ≡ answer.fault_behind ending }
{
    match ending {
        Ending::End(place) => SyntaxFault::Unexpected(place),
        Ending::BadByte(place) => SyntaxFault::BadByte(place),
        Ending::BadToken(place) => SyntaxFault::BadToken(place),
    }
}

/// The place of the next token, None where no token is left.
fn place_of(tokens: &[Token]) -> Option<u64>
    ensures { result ≡ answer.place_of tokens.now }
{
    match tokens {
        [token, ..] => Some(token.place),
        [] => None,
    }
}

/// The fault for which reading stops.
fn fault_of(stop: Stop<'_>, ending: Ending) -> SyntaxFault
    ensures { result ≡ answer.fault_of stop.entry ending }
{
    match stop {
        Stop::NoMemory(refused) => SyntaxFault::NoMemory(refused),
        Stop::Unexpected(tokens) => match place_of(tokens) {
            Some(place) => SyntaxFault::Unexpected(place),
            None => fault_behind(ending),
        },
        Stop::TooWide(tokens) => match place_of(tokens) {
            Some(place) => SyntaxFault::NumberTooWide(place),
            None => fault_behind(ending),
        },
        Stop::TooDeep(tokens) => match place_of(tokens) {
            Some(place) => SyntaxFault::NestTooDeep(place),
            None => fault_behind(ending),
        },
    }
}

/// The tree of a text by its tokens, or its fault.
#[tactic(auto, using(crate::proofs::faults::AnswerOfText::tree_answered, crate::proofs::faults::AnswerOfText::end_answered, crate::proofs::faults::AnswerOfText::stop_answered))]
fn tree_of(alloc: Global, lexed: &Lexed) -> Result<Ast, SyntaxFault>
    ensures { answer.AnswersAs result (answer.answer_of lexed.now.tokens lexed.now.ending) }
{
    let rest = Rest {
        tokens: lexed.tokens.as_slice(),
        room: MOST_LEVELS,
    };
    match items(alloc, rest) {
        Ok((items, _)) => match lexed.ending {
            Ending::End(_) => Ok(Ast { items }),
            ending => Err(fault_behind(ending)),
        },
        Err(stop) => Err(fault_of(stop, lexed.ending)),
    }
}

/// Reads a program text of at most 1,048,576 bytes.
///
/// The answer is its one tree, or why it is no program, or that an allocation was refused.
#[tactic(auto, using(crate::proofs::faults::AnswerOfText::tree_given, crate::proofs::faults::AnswerOfText::refusal_given))]
pub fn parse(alloc: Global, text: &[u8]) -> Result<Ast, SyntaxFault>
    ensures too_long { longest_text < length text.now → result ≡ Err fault.TooLong }
    ensures tree { IfOk result (λ ast. IsText text.now ast) }
    ensures refused { IfErr result (λ fault. answer.Refuses text.now fault) }
{
    if text.len() > LONGEST_TEXT {
        return Err(SyntaxFault::TooLong);
    }
    let lexed = tokens_of(alloc, text)?;
    tree_of(alloc, &lexed)
}
