//! Names where they are used, and text literals: each is a number, or breaks a rule (`specs/Numbers.antt`).

ghost use Rattle.std.specs.Prelude.{◌≡◌, List, [], ◌∷◌, if◌then◌else◌};
ghost use Rattle.std.specs.Borrow.{Bor};
ghost use Rattle.dso_class.specs.declared.place.Place.{Place};
ghost use Rattle.dso_class.specs.declared.scope.Scope.{Scope};
ghost use Rattle.dso_class.specs.Mentions as mention;
ghost use Rattle.dso_class.specs.Mentions.{on};
ghost use Rattle.dso_class.specs.Numbers.{AreThePairs, HasMethod, IsNumber};
ghost use Rattle.dso_class.specs.BodyWalk.{HeadMeans, Walks};
ghost use Rattle.dso_config_entries.specs.Words.{Word};

use crate::fault::{NameFault, NameKind};
use crate::narrow::narrow;
use crate::place::Place;
use crate::scope::{Scope, known_number};
use crate::tables::{callees, class_number, has_method, object_class, root_number};
use dso_base::{Items, Word};
use dso_syntax::Ident;
use std::alloc::Global;

/// What a bare name before a dot and a name is: a variable, or both together are a root.
#[derive(Clone, Copy)]
pub(crate) enum Head {
    Variable(u32),
    Root(u32),
}

/// How an expression is used, which matters where it is a bare name: as a value, or as what a method is called on.
#[derive(Clone, Copy)]
pub(crate) enum Role {
    Value,
    Object,
}

/// A name by itself: the number of a variable that is known.
pub(crate) fn alone<'a>(scope: &Scope<'a>, line: u32, name: &'a Word) -> Result<u32, NameFault>
    ensures { (place : Place) (texts : List (Bor Word)) → Walks place texts scope.now texts scope.now (λ owner known. on line (mention.alone known name.now) ∷ []) (λ n number. IsNumber n.variables name.now number) result }
{
    match known_number(scope, name) {
        Some(number) => Ok(narrow(number)),
        None => Err(NameFault::At {
            kind: NameKind::UnknownVariable,
            line,
        }),
    }
}

/// A name before a dot and a name: a variable that is known, or with the name behind it a root.
pub(crate) fn dotted<'a>(
    place: &Place<'_, 'a>,
    scope: &Scope<'a>,
    line: u32,
    name: &'a Word,
    behind: &'a Word,
) -> Result<Head, NameFault>
    ensures { (texts : List (Bor Word)) → Walks place.now texts scope.now texts scope.now (λ owner known. on line (mention.dotted known name.now behind.now) ∷ []) (HeadMeans name.now behind.now) result }
{
    if let Some(number) = known_number(scope, name) {
        return Ok(Head::Variable(narrow(number)));
    }
    if class_number(place.tables, name.as_slice()).is_none() {
        return Err(NameFault::At {
            kind: NameKind::UnknownVariable,
            line,
        });
    }
    match root_number(place.tables, name.as_slice(), behind.as_slice()) {
        Some(number) => Ok(Head::Root(number)),
        None => Err(NameFault::At {
            kind: NameKind::UnknownRoot,
            line,
        }),
    }
}

/// A name on which a method is called: the number of a variable that is known.
pub(crate) fn called<'a>(
    place: &Place<'_, 'a>,
    scope: &Scope<'a>,
    line: u32,
    name: &'a Word,
) -> Result<u32, NameFault>
    ensures { (texts : List (Bor Word)) → Walks place.now texts scope.now texts scope.now (λ owner known. on line (mention.called known name.now) ∷ []) (λ n number. IsNumber n.variables name.now number) result }
{
    if let Some(number) = known_number(scope, name) {
        return Ok(narrow(number));
    }
    if class_number(place.tables, name.as_slice()).is_none() {
        return Err(NameFault::At {
            kind: NameKind::UnknownVariable,
            line,
        });
    }
    Err(NameFault::At {
        kind: NameKind::UnknownRoot,
        line,
    })
}

/// `this`, which a thread has not.
pub(crate) fn this(place: &Place<'_, '_>, line: u32) -> Result<(), NameFault>
    ensures { (texts : List (Bor Word)) (scope : Scope) → Walks place.now texts scope texts scope (λ owner known. if owner.in_thread then on line mention.this ∷ [] else []) (λ n given. Unit {0}) result }
{
    if place.in_thread {
        return Err(NameFault::At {
            kind: NameKind::UnknownVariable,
            line,
        });
    }
    Ok(())
}

/// The class of a new object.
pub(crate) fn new_object<'a>(place: &Place<'_, 'a>, name: &'a Ident) -> Result<u32, NameFault>
    ensures { (texts : List (Bor Word)) (scope : Scope) → Walks place.now texts scope texts scope (λ owner known. on name.now.line (mention.new name.now.name) ∷ []) (λ n number. IsNumber n.classes name.now.name number) result }
{
    match object_class(place.tables, name.name.as_slice()) {
        Some(number) => Ok(number),
        None => Err(NameFault::At {
            kind: NameKind::UnknownClass,
            line: name.line,
        }),
    }
}

/// The methods of a call with so many arguments.
pub(crate) fn call<'a>(
    alloc: Global,
    place: &Place<'_, 'a>,
    name: &'a Ident,
    count: usize,
) -> Result<Items<(u32, u32)>, NameFault>
    ensures { (texts : List (Bor Word)) (scope : Scope) → Walks place.now texts scope texts scope (λ owner known. on name.now.line (mention.call name.now.name count) ∷ []) (λ n all. AreThePairs (HasMethod n.methods name.now.name count) all) result }
{
    let line = name.line;
    if !has_method(place.tables, name.name.as_slice()) {
        return Err(NameFault::At {
            kind: NameKind::UnknownMethod,
            line,
        });
    }
    let all = callees(alloc, place.tables, name.name.as_slice(), count)?;
    if all.is_empty() {
        return Err(NameFault::At {
            kind: NameKind::WrongArguments,
            line,
        });
    }
    Ok(all)
}
