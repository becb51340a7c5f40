//! Text literals in numbers (`specs/Numbers.antt`).

ghost use Rattle.std.specs.Prelude.{◌≡◌, List, [], ◌∷◌};
ghost use Rattle.dso_class.specs.declared.place.Place.{Place};
ghost use Rattle.dso_class.specs.declared.scope.Scope.{Scope};
ghost use Rattle.dso_class.specs.Mentions as mention;
ghost use Rattle.dso_class.specs.Mentions.{on};
ghost use Rattle.dso_class.specs.Numbers.{IsNumber};
ghost use Rattle.dso_class.specs.BodyWalk.{Walks};

use crate::fault::{NameFault, NameKind, What};
use crate::limits::MOST_TEXTS;
use crate::narrow::narrow;
use dso_base::Word;
use dso_config_entries::{Interner, add, number_of};

/// The number of a text literal, which is put behind the others where it is new.
pub(crate) fn text<'a>(
    texts: &mut Interner<&'a [u8]>,
    line: u32,
    content: &'a Word,
) -> Result<u32, NameFault>
    ensures { (place : Place) (scope : Scope) → Walks place texts.old scope texts.new scope (λ owner known. on line (mention.text content.now) ∷ []) (λ n number. IsNumber n.texts content.now number) result }
{
    if let Some(number) = number_of(texts, content.as_slice()) {
        return Ok(narrow(number));
    }
    let number = texts.as_slice().len();
    if number >= MOST_TEXTS {
        let kind = NameKind::TooMany(What::Texts);
        return Err(NameFault::At { kind, line });
    }
    add(texts, content.as_slice())?;
    Ok(narrow(number))
}
