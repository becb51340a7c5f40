//! The names of a whole program text resolved (`specs/TextProgram.antt`).

ghost use Rattle.std.specs.Prelude.{◌≡◌, ◌+◌, ◌<◌, ◌≤◌, ◌^◌, ℕ, Err, IfOk, length};
ghost use Rattle.dso_class.specs.Assignable.{ItemsAssign};
ghost use Rattle.dso_class.specs.declared.fault.NameFault.TheVariants as fault;
ghost use Rattle.dso_class.specs.declared.fault.NameKind.{NameKind};
ghost use Rattle.dso_class.specs.NameFaults.{IsFirstFault};
ghost use Rattle.dso_class.specs.ValidInput.{IsValidInput};
ghost use Rattle.dso_class.specs.TextProgram.{IsProgramOf, Source};
ghost use Rattle.dso_class.specs.Sound.{IsSoundProgram};
ghost use Rattle.dso_class.specs.TextWalk.{IsReady, IsSetting};
ghost use Rattle.dso_class.specs.WholeProgram.{AnswersWhole, IsMadeOf};

use crate::class_item::{self, Resolved, Setting};
use crate::fault::NameFault;
use crate::limits::MOST_STATICS;
use crate::map_class::with_maps;
use crate::names::{names, text_words, word};
use crate::program::{Names, Program};
use crate::tables::gather;
use crate::thread_order::threads;
use dso_base::{Items, NoMemory, Shape};
use dso_config::Config;
use dso_config_entries::{Interner, lock_names};
use dso_machine::Code;
use dso_syntax::{Ast, Item};
use std::alloc::Global;

/// Resolves the names of a program text under a configuration: the program in which every name is a number.
///
/// It refuses a text whose names break a rule, with the first fault: at the first token that breaks one, in the order
/// of the text, and of several rules that one token breaks the one that [`NameKind`](crate::NameKind) lists first.
///
/// - A class, member, parameter or variable may not have a name that is taken: no class is called `Thread` or as a
///   class before it, no member as a member of its class, no parameter or variable `Thread`, as a class, or as another
///   of its body, in whatever block.
/// - A name by itself or before a dot is a variable that is known there, from behind its declaration to the end of its
///   block; before a dot it may be a class, and the name behind the dot a static field of it. `this` stands in methods.
/// - A new object is of a class of the text, or a map; a method that is called is declared in some class, with that
///   number of arguments. Where the text makes a map somewhere, the methods of maps count as declared, those of a class
///   behind the others. No class is called as that of maps, and what the configuration says of it has no effect.
/// - A static field is a root of the configuration; a method that is `synchronized`, or has a `synchronized` block,
///   has an autolock; a thread is for a client that is there.
/// - There are no more classes, fields, static fields, methods, parameters, variables, threads and different text
///   literals than there may be.
///
/// Of a text that breaks none of them it answers the program. It is sound, so it can run. Classes, static fields,
/// methods and text literals are numbered in the order of the text, equal text literals once; named locks follow the
/// static fields in the order of the configuration. [`NameFault::NoMemory`] says that an allocation was refused.
pub fn resolve(alloc: Global, tree: &Ast, config: &Config) -> Result<Program, NameFault>
    requires given { IsValidInput config.now tree.now }
    ensures program { IfOk result (IsProgramOf config.now tree.now) }
    ensures sound { IfOk result IsSoundProgram }
    ensures fault { (kind : NameKind) (line : ℕ) → result ≡ Err (fault.At kind line) → IsFirstFault config.now tree.now kind line }
{
    let items = tree.items.as_slice();
    let tables = gather(alloc, tree)?;
    let names = names(alloc, items, tables.makes_map)?;
    let locks = lock_names(alloc, config)?;
    let thread_class = word(alloc, b"Thread".as_slice())?;
    let thread_method = word(alloc, b"run".as_slice())?;
    let setting = Setting {
        config,
        locks: &locks,
        tables: &tables,
        roots: names.roots.len().min(MOST_STATICS) as u32,
        thread_class: &thread_class,
        thread_method: &thread_method,
    };
    let resolved = walk(alloc, &setting, items)?;
    Ok(program(alloc, &setting, names, resolved)?)
}

/// Resolves all classes and threads of a text.
fn walk<'a>(
    alloc: Global,
    setting: &Setting<'_, 'a>,
    items: &'a [Item],
) -> Result<Resolved<'a>, NameFault>
    requires assigns { ItemsAssign items.now }
    requires setting { IsReady setting.now }
    ensures { (source : Source) → IsSetting source setting.now → source.ast.items ≡ items.now → AnswersWhole source result }
{
    let mut resolved = Resolved {
        names: Interner::new(alloc),
        texts: Interner::new(alloc),
        statics: 0,
        classes: Items::new(alloc),
        methods: Items::new(alloc),
        bodies: Items::new(alloc),
    };
    class_item::items(alloc, setting, &mut resolved, items)?;
    Ok(resolved)
}

/// The program of what was resolved, with these words behind the numbers.
fn program(
    alloc: Global,
    setting: &Setting<'_, '_>,
    names: Names,
    resolved: Resolved<'_>,
) -> Result<Program, NoMemory>
    requires few_locks { setting.now.roots + length setting.now.locks.now < 2 ^ 32 }
    requires few_texts { length resolved.texts < 2 ^ 32 }
    ensures { IfOk result (IsMadeOf setting.now names resolved.entry) }
{
    let config = setting.config;
    let words = text_words(alloc, resolved.texts.as_slice())?;
    let threads = threads(alloc, resolved.bodies.as_slice())?;
    let losses = config.losses.clone()?;
    let breaks = config.breaks.clone()?;
    let shape = Shape {
        classes: with_maps(alloc, resolved.classes, setting.tables.makes_map)?,
        roots: setting.roots,
        names: setting.roots + setting.locks.as_slice().len() as u32,
        texts: words.len() as u32,
    };
    Ok(Program {
        code: Code {
            shape,
            methods: resolved.methods,
            bodies: resolved.bodies,
        },
        names: Names {
            classes: names.classes,
            fields: names.fields,
            roots: names.roots,
            texts: words,
        },
        clients: config.clients,
        resident: config.resident,
        threads,
        losses,
        breaks,
    })
}
