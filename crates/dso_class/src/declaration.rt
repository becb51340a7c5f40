//! Names that are declared: each once, and not too many of a sort (`specs/Heads.antt`).

ghost use Rattle.std.specs.Prelude.{◌≡◌, ◌<◌, ◌≤◌, ◌∷◌, ◌++◌, [], Contains, IfErr, OnOk};
ghost use Rattle.dso_config_entries.specs.BorrowedWords.{words_of};
ghost use Rattle.dso_class.specs.Heads.{IsRefused};

use crate::fault::{NameFault, NameKind, What};
use dso_config_entries::Interner;
use dso_syntax::Ident;

/// Puts the name of what is declared behind the others, of which it is none. Of its sort there are so many, and may be
/// at most so many.
pub(crate) fn declare<'a>(
    names: &mut Interner<&'a [u8]>,
    name: &'a Ident,
    count: usize,
    most: usize,
    what: What,
) -> Result<(), NameFault>
    ensures refused { IfErr result (IsRefused (Contains (words_of names.old) name.now.name) (most ≤ count) what name.now.line) }
    ensures fresh { OnOk result (Contains (words_of names.old) name.now.name → ⊥) }
    ensures few { OnOk result (count < most) }
    ensures named { OnOk result (words_of names.new ≡ words_of names.old ++ name.now.name ∷ []) }
{
    let word = name.name.as_slice();
    if names.number(word).is_some() {
        return Err(NameFault::At {
            kind: NameKind::Twice,
            line: name.line,
        });
    }
    if count >= most {
        return Err(NameFault::At {
            kind: NameKind::TooMany(what),
            line: name.line,
        });
    }
    names.add(word)?;
    Ok(())
}
