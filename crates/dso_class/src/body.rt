//! Bodies in numbers (`specs/BodyWalk.antt`).

ghost use Rattle.std.specs.Prelude.{◌≡◌, ◌≤◌, [], List, length, map, ◌++◌, OnOk};
ghost use Rattle.std.specs.Borrow.{Bor};
ghost use Rattle.dso_class.specs.Assignable.{AreAssignable};
ghost use Rattle.dso_class.specs.Limits.{most_params};
ghost use Rattle.dso_class.specs.PrecedingMentions.{in_body};
ghost use Rattle.dso_config_entries.specs.BorrowedWords.{words_of};
ghost use Rattle.dso_class.specs.Mentions as mention;
ghost use Rattle.dso_class.specs.Mentions.{Mention};
ghost use Rattle.dso_class.specs.TextProgram.{Source};
ghost use Rattle.dso_class.specs.BodyWalk.{HasMet, HasTexts, IsMade, IsPlace, IsWalked, known_in, met_in, owner_in};
ghost use Rattle.dso_class.specs.TextWalk.{AnswersBody};
ghost use Rattle.dso_config_entries.specs.Words.{Word};

use crate::fault::NameFault;
use crate::narrow::narrow;
use crate::place::Place;
use crate::scope::Scope;
use crate::statement::block;
use crate::variables::{know, parameter};
use dso_base::Items;
use dso_config_entries::Interner;
use dso_machine::Block;
use dso_syntax::{Ident, StmtTree};
use std::alloc::Global;

/// A body in numbers: how many variables it has, and its statements.
#[derive(Drop)]
pub(crate) struct Body {
    pub(crate) vars: u32,
    pub(crate) statements: Block,
}

/// Judges parameters one by one. They aren't known yet.
fn judged<'a>(
    place: &Place<'_, 'a>,
    scope: &mut Scope<'a>,
    params: &'a [Ident],
) -> Result<(), NameFault>
    ensures walked { (texts : List (Bor Word)) (source : Source) (before : List Mention) → IsPlace source place.now → in_body before ≡ [] → HasMet before (met_in texts scope.old)
        → IsWalked source (owner_in place.now) before (map (λ name. mention.on name.line (mention.parameter name.name)) params.now) (met_in texts scope.old) (met_in texts scope.new) (λ n a. Unit {0}) result }
    ensures few { OnOk result (length params.now ≤ most_params) }
    ensures known { scope.new.known ≡ scope.old.known }
{
    for (count, name) in params.iter().enumerate() {
        parameter(place, scope, name, count)?;
    }
    Ok(())
}

/// Makes parameters known, so that the first of them is the nearest one.
fn know_all<'a>(scope: &mut Scope<'a>, params: &'a [Ident]) -> Result<(), NameFault>
    ensures known { OnOk result (known_in scope.new ≡ map (λ name. name.name) params.now ++ known_in scope.old) }
    ensures variables { scope.new.variables ≡ scope.old.variables }
    ensures made { IsMade result tt }
{
    if let Some((first, rest)) = params.split_first() {
        know_all(scope, rest)?;
        know(scope, first)?;
    }
    Ok(())
}

/// A body in numbers.
pub(crate) fn body_of<'a>(
    alloc: Global,
    place: &Place<'_, 'a>,
    texts: &mut Interner<&'a [u8]>,
    params: &'a [Ident],
    statements: &'a [StmtTree],
) -> Result<Body, NameFault>
    requires { AreAssignable statements.now }
    ensures right { (source : Source) (before : List Mention) → IsPlace source place.now → in_body before ≡ [] → HasTexts before (words_of texts.old)
        → AnswersBody source (owner_in place.now) before params.now statements.now (words_of texts.old) (words_of texts.new) result }
    ensures few { OnOk result (length params.now ≤ most_params) }
{
    let mut scope = Scope {
        variables: Interner::new(alloc),
        known: Items::new(alloc),
    };
    judged(place, &mut scope, params)?;
    know_all(&mut scope, params)?;
    let statements = block(alloc, place, &mut scope, texts, statements)?;
    let vars = narrow(scope.variables.as_slice().len());
    Ok(Body { vars, statements })
}
