//! Classes and threads in numbers, in the order of the text (`specs/TextWalk.antt`). What they mention is judged on
//! the way.

ghost use Rattle.std.specs.Prelude.{◌≡◌, ◌⊎◌, ◌↔◌, ◌<◌, ◌≤◌, ℕ, [], ◌∷◌, ◌++◌, flat_map, length, IfErr, IfOk, IsTrue, OnOk};
ghost use Rattle.dso_class.specs.Assignable.{ItemsAssign, MembersAssign};
ghost use Rattle.dso_class.specs.Heads.{IsClassTaken, IsRefused};
ghost use Rattle.dso_config_entries.specs.BorrowedWords.{words_of};
ghost use Rattle.dso_class.specs.Limits.{most_classes};
ghost use Rattle.dso_class.specs.Maps.{map_word};
ghost use Rattle.dso_class.specs.Mentions.{of_item};
ghost use Rattle.dso_config_entries.specs.Words.{thread_word};
ghost use Rattle.dso_class.specs.TextWalk.{IsReady, WalksItems};

use crate::declaration::declare;
use crate::fault::{NameFault, NameKind, What};
use crate::limits::MOST_CLASSES;
use crate::member::{Class, class_members};
use crate::new_maps::map_name;
use crate::tables::DeclaredNames;
use crate::thread::{ThreadHead, thread};
use dso_base::{ClassShape, Items, Word};
use dso_config::Config;
use dso_config_entries::Interner;
use dso_machine::{Method, ThreadBody};
use dso_syntax::{Ident, Item, Member};
use std::alloc::Global;

/// What a text is resolved by: the configuration with the names of its locks, and the tables of what the text declares.
///
/// The locks' numbers follow those of the roots. A thread's statements belong to the method `run` of the class `Thread`,
/// whose words are borrowed here.
#[derive(Clone, Copy)]
pub(crate) struct Setting<'b, 'a> {
    pub(crate) config: &'a Config,
    pub(crate) locks: &'b Interner<&'a [u8]>,
    pub(crate) tables: &'b DeclaredNames<'a>,
    pub(crate) roots: u32,
    pub(crate) thread_class: &'b Word,
    pub(crate) thread_method: &'b Word,
}

/// What was resolved so far.
#[derive(Drop)]
pub(crate) struct Resolved<'a> {
    pub(crate) names: Interner<&'a [u8]>,
    pub(crate) texts: Interner<&'a [u8]>,
    pub(crate) statics: usize,
    pub(crate) classes: Items<ClassShape>,
    pub(crate) methods: Items<Method>,
    pub(crate) bodies: Items<ThreadBody>,
}

/// Resolves classes and threads.
pub(crate) fn items<'a>(
    alloc: Global,
    setting: &Setting<'_, 'a>,
    resolved: &mut Resolved<'a>,
    items: &'a [Item],
) -> Result<(), NameFault>
    requires assigns { ItemsAssign items.now }
    requires setting { IsReady setting.now }
    ensures { WalksItems setting.now (flat_map of_item items.now) items.now resolved.old resolved.new result }
{
    for item in items {
        match item {
            Item::Class { name, members, .. } => whole_class(
                alloc,
                setting,
                resolved,
                name,
                members.as_slice(),
            )?,
            Item::Thread {
                line,
                number,
                number_line,
                body,
            } => {
                let head = ThreadHead {
                    line: *line,
                    number: *number,
                    number_line: *number_line,
                };
                thread(alloc, setting, resolved, head, body.as_slice())?
            }
        }
    }
    Ok(())
}

/// Resolves a class.
fn whole_class<'a>(
    alloc: Global,
    setting: &Setting<'_, 'a>,
    resolved: &mut Resolved<'a>,
    name: &'a Ident,
    members: &'a [Member],
) -> Result<(), NameFault>
    requires assigns { MembersAssign members.now }
    requires setting { IsReady setting.now }
    ensures { (line : ℕ) → WalksItems setting.now (of_item (Item.Class line name.now members.now)) (Item.Class line name.now members.now ∷ []) resolved.old resolved.new result }
{
    let number = class_name(&mut resolved.names, name)?;
    let mut class = Class {
        name: &name.name,
        number,
        members: Interner::new(alloc),
        fields: Items::new(alloc),
        methods: 0,
    };
    class_members(alloc, setting, resolved, &mut class, members)?;
    resolved.classes.push(ClassShape {
        fields: class.fields,
    })?;
    Ok(())
}

/// Whether no class of a text may have the name: it is that of threads or of maps.
fn is_reserved(name: &[u8]) -> bool
    ensures { IsTrue result ↔ ((name.now ≡ thread_word) ⊎ (name.now ≡ map_word)) }
{
    (name == b"Thread".as_slice()) | (name == map_name())
}

/// Judges the name of a class, and gives its number.
fn class_name<'a>(names: &mut Interner<&'a [u8]>, name: &'a Ident) -> Result<u32, NameFault>
    ensures refused { IfErr result (IsRefused (IsClassTaken (words_of names.old) name.now.name) (most_classes ≤ length names.old) What.Classes name.now.line) }
    ensures fresh { OnOk result (IsClassTaken (words_of names.old) name.now.name → ⊥) }
    ensures few { OnOk result (length names.old < most_classes) }
    ensures named { OnOk result (words_of names.new ≡ words_of names.old ++ name.now.name ∷ []) }
    ensures number { IfOk result (λ number. number ≡ length names.old) }
{
    if is_reserved(name.name.as_slice()) {
        return Err(NameFault::At {
            kind: NameKind::Twice,
            line: name.line,
        });
    }
    let number = names.as_slice().len();
    declare(names, name, number, MOST_CLASSES, What::Classes)?;
    Ok(number as u32)
}
