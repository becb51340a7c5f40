//! What the statements of a body declare: its parameters and variables, and the level at which it locks
//! (`specs/BodyWalk.antt`).

ghost use Rattle.std.specs.Prelude.{◌≡◌, ◌↔◌, ◌<◌, ◌∷◌, [], length, Contains, IsTrue, List, OnOk, Some};
ghost use Rattle.std.specs.Borrow.{Bor};
ghost use Rattle.dso_class.specs.declared.scope.Scope.{Scope};
ghost use Rattle.dso_class.specs.PrecedingMentions.{in_body, in_text, parameter_in};
ghost use Rattle.dso_class.specs.Declaring.{IsDeclared};
ghost use Rattle.dso_class.specs.NameFaults.{IsTaken};
ghost use Rattle.dso_class.specs.Limits.{most_params};
ghost use Rattle.dso_class.specs.Mentions as mention;
ghost use Rattle.dso_class.specs.Mentions.{Mention, Mentioned, Owner, on};
ghost use Rattle.dso_class.specs.Numbers.{IsNumber};
ghost use Rattle.dso_class.specs.TextProgram.{Source};
ghost use Rattle.dso_config_entries.specs.Words.{Word};
ghost use Rattle.dso_class.specs.BodyWalk.{HasMet, IsMade, IsPlace, IsWalked, Walks, known_in, met_in, owner_in, variables_in};

use crate::fault::{NameFault, NameKind, What};
use crate::limits::{MOST_PARAMETERS, MOST_VARIABLES};
use crate::narrow::narrow;
use crate::place::Place;
use crate::scope::Scope;
use crate::tables::class_number;
use dso_base::{Grade, Word};
use dso_config_entries::{autolock, number_of};
use dso_syntax::Ident;

/// Whether no variable may have the name: it is `Thread`, a class's, or that of another variable of the body.
fn is_taken<'a>(place: &Place<'_, 'a>, scope: &Scope<'a>, name: &'a Word) -> bool
    ensures { (texts : List (Bor Word)) (source : Source) (before : List Mention) → IsPlace source place.now → HasMet before (met_in texts scope.now) → IsTrue result ↔ IsTaken source.ast before name.now }
{
    let word = name.as_slice();
    word == b"Thread".as_slice()
        || class_number(place.tables, word).is_some()
        || number_of(&scope.variables, word).is_some()
}

/// Puts a name that isn't taken behind the variables, and gives its number. It is one too many where there are as many
/// as there may be.
fn put<'a>(scope: &mut Scope<'a>, name: &'a Ident) -> Result<u32, NameFault>
    ensures walked { (texts : List (Bor Word)) (source : Source) (owner : Owner) (before : List Mention) (here : Mentioned) → HasMet before (met_in texts scope.old)
        → IsDeclared source before here name.now.name
        → IsWalked source owner before (on name.now.line here ∷ []) (met_in texts scope.old) (met_in texts scope.new) (λ n number. IsNumber n.variables name.now.name number) result }
    ensures known { scope.new.known ≡ scope.old.known }
{
    let number = scope.variables.as_slice().len();
    if number >= MOST_VARIABLES {
        return Err(NameFault::At {
            kind: NameKind::TooMany(What::Variables),
            line: name.line,
        });
    }
    scope.variables.add(name.name.as_slice())?;
    Ok(narrow(number))
}

/// A variable that is declared: its number. It isn't known yet.
pub(crate) fn variable<'a>(
    place: &Place<'_, 'a>,
    scope: &mut Scope<'a>,
    name: &'a Ident,
) -> Result<u32, NameFault>
    ensures walked { (texts : List (Bor Word)) → Walks place.now texts scope.old texts scope.new (λ owner known. on name.now.line (mention.variable name.now.name) ∷ []) (λ n number. IsNumber n.variables name.now.name number) result }
    ensures known { scope.new.known ≡ scope.old.known }
{
    if is_taken(place, scope, &name.name) {
        return Err(NameFault::At {
            kind: NameKind::Twice,
            line: name.line,
        });
    }
    put(scope, name)
}

/// A parameter, behind so many others: its number. It isn't known yet.
pub(crate) fn parameter<'a>(
    place: &Place<'_, 'a>,
    scope: &mut Scope<'a>,
    name: &'a Ident,
    count: usize,
) -> Result<u32, NameFault>
    ensures walked { (texts : List (Bor Word)) (source : Source) (before : List Mention) → IsPlace source place.now → HasMet before (met_in texts scope.old) → length (in_text parameter_in (in_body before)) ≡ count
        → IsWalked source (owner_in place.now) before (on name.now.line (mention.parameter name.now.name) ∷ []) (met_in texts scope.old) (met_in texts scope.new) (λ n number. IsNumber n.variables name.now.name number) result }
    ensures few { OnOk result (count < most_params) }
    ensures known { scope.new.known ≡ scope.old.known }
{
    if is_taken(place, scope, &name.name) {
        return Err(NameFault::At {
            kind: NameKind::Twice,
            line: name.line,
        });
    }
    if count >= MOST_PARAMETERS {
        return Err(NameFault::At {
            kind: NameKind::TooMany(What::Parameters),
            line: name.line,
        });
    }
    put(scope, name)
}

/// Makes a variable known.
pub(crate) fn know<'a>(scope: &mut Scope<'a>, name: &'a Ident) -> Result<(), NameFault>
    ensures known { OnOk result (known_in scope.new ≡ name.now.name ∷ known_in scope.old) }
    ensures variables { scope.new.variables ≡ scope.old.variables }
    ensures met { (texts : List (Bor Word)) (before : List Mention) → HasMet before (met_in texts scope.old) → Contains (variables_in scope.old) name.now.name → OnOk result (HasMet before (met_in texts scope.new)) }
    ensures made { IsMade result tt }
{
    scope.known.push(&name.name)?;
    Ok(())
}

/// The level at which `synchronized` locks.
pub(crate) fn synchronized(place: &Place<'_, '_>, line: u32) -> Result<Grade, NameFault>
    ensures { (texts : List (Bor Word)) (scope : Scope) → Walks place.now texts scope texts scope (λ owner known. on line (mention.synchronized owner.class owner.method) ∷ []) (λ n grade. n.grade ≡ Some grade) result }
{
    match autolock(place.config, place.class, place.method) {
        Some(grade) => Ok(grade),
        None => Err(NameFault::At {
            kind: NameKind::NoAutolock,
            line,
        }),
    }
}
