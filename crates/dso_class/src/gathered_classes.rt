//! What a program text declares (`specs/Declarations.antt`).

ghost use Rattle.std.specs.Prelude.{IfOk};
ghost use Rattle.dso_class.specs.Declarations.{class_names};
ghost use Rattle.dso_config_entries.specs.BorrowedWords.{words_of};
ghost use Rattle.dso_config_entries.specs.LastAndFirst.{AreFirsts};

use dso_base::NoMemory;
use dso_config_entries::{Interner, add};
use dso_syntax::Item;
use std::alloc::Global;

/// The names of the classes, each once, in the order of the text.
pub(crate) fn class_names(alloc: Global, items: &[Item]) -> Result<Interner<&[u8]>, NoMemory>
    ensures { IfOk result (λ names. AreFirsts (class_names items.now) (words_of names)) }
{
    let mut names = Interner::new(alloc);
    for item in items {
        match item {
            Item::Class { name, .. } => {
                add(&mut names, name.name.as_slice())?;
            }
            Item::Thread { .. } => {}
        }
    }
    Ok(names)
}
