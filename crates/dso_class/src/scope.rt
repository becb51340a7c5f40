//! The variables of a body (`specs/BodyWalk.antt`).

ghost use Rattle.std.specs.Prelude.{◌↔◌, Contains, IfSome, IsNone, IsTrue};
ghost use Rattle.dso_config_entries.specs.BorrowedWords.{words_of};
ghost use Rattle.dso_class.specs.Numbers.{IsNumber};
ghost use Rattle.dso_class.specs.BodyWalk.{known_in, variables_in};
ghost use Rattle.dso_config_entries.specs.Words.{Word};

use dso_base::{Items, Same, Word};
use dso_config_entries::{Interner, number_of};

/// The variables of a body so far, and the names of those that are known, the latest at the end.
#[derive(Drop)]
pub(crate) struct Scope<'a> {
    pub(crate) variables: Interner<&'a [u8]>,
    pub(crate) known: Items<&'a Word>,
}

/// Whether a word is among these.
fn is_among(words: &[&Word], word: &Word) -> bool
    ensures { IsTrue result ↔ Contains (words_of words.now) word.now }
{
    for one in words {
        if one.same(word) {
            return true;
        }
    }
    false
}

/// The number of a variable that is known, None where no variable of this name is.
pub(crate) fn known_number<'a>(scope: &Scope<'a>, name: &'a Word) -> Option<usize>
    ensures none { ((name : Word) → Contains (known_in scope.now) name → Contains (variables_in scope.now) name) → IsNone result ↔ (Contains (known_in scope.now) name.now → ⊥) }
    ensures found { IfSome result (λ number. IsNumber (variables_in scope.now) name.now number) }
{
    if is_among(scope.known.as_slice(), name) {
        number_of(&scope.variables, name.as_slice())
    } else {
        None
    }
}
