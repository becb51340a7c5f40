//! The words behind the numbers of a program (`specs/Symbols.antt`).

ghost use Rattle.std.specs.Prelude.{◌≡◌, ◌++◌, IfOk, OnOk, map};
ghost use Rattle.dso_class.specs.Declarations.{all_statics, class_names, fields_of, statics_of};
ghost use Rattle.dso_config_entries.specs.BorrowedWords.{words_of};
ghost use Rattle.dso_class.specs.Symbols.{AreWordsOf, class_words, field_words};

use crate::new_maps::map_name;
use crate::program::Names;
use dso_base::{Items, NoMemory, Word};
use dso_config::RootEntry;
use dso_syntax::{Item, Member};
use std::alloc::Global;

/// The words behind the numbers: the classes, the fields of each and the static fields, in the order of the text. Where
/// maps are made the word of their class is the last. Text literals are still missing.
pub(crate) fn names(alloc: Global, items: &[Item], makes_map: bool) -> Result<Names, NoMemory>
    ensures { IfOk result (AreWordsOf makes_map items.now) }
{
    let names = Names {
        classes: class_words(alloc, items, makes_map)?,
        fields: rows_of_fields(alloc, items)?,
        roots: root_words(alloc, items)?,
        texts: Items::new(alloc),
    };
    Ok(names)
}

/// A word of these bytes.
pub(crate) fn word(alloc: Global, bytes: &[u8]) -> Result<Word, NoMemory>
    ensures { IfOk result (λ word. word ≡ bytes.now) }
{
    Ok(Items::from_vec(Vec::from_slice(alloc, bytes)?))
}

/// The names of the classes, and that of maps behind them where maps are made.
fn class_words(alloc: Global, items: &[Item], makes_map: bool) -> Result<Items<Word>, NoMemory>
    ensures { IfOk result (λ words. words ≡ class_words makes_map items.now) }
{
    let mut words = text_classes(alloc, items)?;
    if !makes_map {
        return Ok(words);
    }
    words.push(word(alloc, map_name())?)?;
    Ok(words)
}

/// The names of the classes of the text.
fn text_classes(alloc: Global, items: &[Item]) -> Result<Items<Word>, NoMemory>
    ensures { IfOk result (λ words. words ≡ class_names items.now) }
{
    let mut words = Items::new(alloc);
    for item in items {
        match item {
            Item::Class { name, .. } => words.push(name.name.clone()?)?,
            Item::Thread { .. } => {}
        }
    }
    Ok(words)
}

/// The names of the fields of each class.
fn rows_of_fields(alloc: Global, items: &[Item]) -> Result<Items<Items<Word>>, NoMemory>
    ensures { IfOk result (λ rows. rows ≡ field_words items.now) }
{
    let mut rows = Items::new(alloc);
    for item in items {
        match item {
            Item::Class { members, .. } => rows.push(fields_of_class(alloc, members.as_slice())?)?,
            Item::Thread { .. } => {}
        }
    }
    Ok(rows)
}

/// The names of a class's fields.
fn fields_of_class(alloc: Global, members: &[Member]) -> Result<Items<Word>, NoMemory>
    ensures { IfOk result (λ words. words ≡ map (λ field. field.name) (fields_of members.now)) }
{
    let mut words = Items::new(alloc);
    for member in members {
        match member {
            Member::Field { name, .. } => words.push(name.name.clone()?)?,
            Member::Static { .. } => {}
            Member::Method { .. } => {}
        }
    }
    Ok(words)
}

/// The static fields of all classes.
fn root_words(alloc: Global, items: &[Item]) -> Result<Items<RootEntry>, NoMemory>
    ensures { IfOk result (λ roots. roots ≡ all_statics items.now) }
{
    let mut roots = Items::new(alloc);
    for item in items {
        match item {
            Item::Class { name, members, .. } => push_statics(
                &mut roots,
                &name.name,
                members.as_slice(),
            )?,
            Item::Thread { .. } => {}
        }
    }
    Ok(roots)
}

/// Puts the static fields of a class behind the others.
fn push_statics(
    roots: &mut Items<RootEntry>,
    class: &Word,
    members: &[Member],
) -> Result<(), NoMemory>
    ensures { OnOk result (roots.new ≡ roots.old ++ statics_of class.now members.now) }
{
    for member in members {
        match member {
            Member::Static { name, .. } => roots.push(RootEntry {
                class: class.clone()?,
                field: name.name.clone()?,
            })?,
            Member::Field { .. } => {}
            Member::Method { .. } => {}
        }
    }
    Ok(())
}

/// The words that the texts hold.
pub(crate) fn text_words(alloc: Global, texts: &[&[u8]]) -> Result<Items<Word>, NoMemory>
    ensures { IfOk result (λ words. words ≡ words_of texts.now) }
{
    let mut words = Items::new(alloc);
    for text in texts {
        words.push(word(alloc, text)?)?;
    }
    Ok(words)
}
