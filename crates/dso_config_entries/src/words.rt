//! Words in a row, each with its number (`specs/LockNumbers.antt`).

ghost use Rattle.std.specs.Prelude.{◌≡◌, ◌↔◌, ◌∷◌, ◌++◌, [], List, Contains, IfOk, IfSome, IsNone, IsTrue, OnErr, OnOk};
ghost use Rattle.dso_config_entries.specs.LastAndFirst.{AreFirsts};
ghost use Rattle.dso_config_entries.specs.LockNumbers.{IsNumber};
ghost use Rattle.dso_config_entries.specs.BorrowedWords.{words_of};
ghost use Rattle.dso_config_entries.specs.Words.{Word};

use crate::interner::Interner;
use dso_base::NoMemory;

/// The number of a word, None where it isn't there.
pub fn number_of<'a>(words: &Interner<&'a [u8]>, word: &'a [u8]) -> Option<usize>
    ensures found { IfSome result (λ number. IsNumber (words_of words.now) word.now number) }
    ensures none { IsNone result ↔ (Contains (words_of words.now) word.now → ⊥) }
{
    words.number(word)
}

/// Puts a word behind the others where it isn't there yet, and tells whether it wasn't.
pub fn add<'a>(words: &mut Interner<&'a [u8]>, word: &'a [u8]) -> Result<bool, NoMemory>
    ensures firsts { (all : List Word) → AreFirsts all (words_of words.old) → OnOk result (AreFirsts (all ++ word.now ∷ []) (words_of words.new)) }
    ensures fresh { IfOk result (λ fresh. IsTrue fresh ↔ (Contains (words_of words.old) word.now → ⊥)) }
    ensures err { OnErr result (words.new ≡ words.old) }
{
    words.add(word)
}
