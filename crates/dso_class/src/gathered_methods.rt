//! The methods that a program text declares, in rows of equal names (`specs/Gathered.antt`).

ghost use Rattle.std.specs.Prelude.{ℕ, ◌≡◌, ◌∷◌, ◌++◌, [], List, IfOk, OnOk, cond, length};
ghost use Rattle.dso_class.specs.Declarations.{MethodTree, all_methods, class_names, methods_of};
ghost use Rattle.dso_class.specs.Gathered.{AreMethodRows, capped};
ghost use Rattle.dso_class.specs.Maps.{map_methods};
ghost use Rattle.dso_config_entries.specs.Words.{Word};

use crate::multimap;
use crate::narrow::next;
use dso_base::{Items, NoMemory};
use dso_syntax::{Item, Member};
use std::alloc::Global;
use std::collections::BTreeMap;

/// A method where it is declared: the number of its class, its own over all classes, and how many parameters it has. The
/// numbers go as far as 32 bits have them, which is far past those of a text without a fault.
#[derive(Clone, Copy)]
pub(crate) struct Declared {
    pub(crate) class: u32,
    pub(crate) number: u32,
    pub(crate) params: usize,
}

/// Puts the methods of the class of this number behind those of the classes before it, and tells the number of the next.
fn add_methods<'a>(
    alloc: Global,
    rows: &mut BTreeMap<&'a [u8], Items<Declared>>,
    class: u32,
    first: u32,
    members: &'a [Member],
) -> Result<u32, NoMemory>
    ensures rows { (number : ℕ) (name : Word) (before : List MethodTree) → class ≡ capped number → first ≡ capped (length before) → AreMethodRows before rows.old → OnOk result (AreMethodRows (before ++ methods_of number name members.now) rows.new) }
    ensures next { (number : ℕ) (name : Word) (before : List MethodTree) → first ≡ capped (length before) → IfOk result (λ next. next ≡ capped (length (before ++ methods_of number name members.now))) }
{
    let mut number = first;
    for member in members {
        match member {
            Member::Method { name, params, .. } => {
                let declared = Declared {
                    class,
                    number,
                    params: params.len(),
                };
                multimap::push(alloc, rows, name.name.as_slice(), declared)?;
                number = next(number);
            }
            Member::Field { .. } => {}
            Member::Static { .. } => {}
        }
    }
    Ok(number)
}

/// Puts a method behind the others, and tells the number of the next.
fn add_method<'a>(
    alloc: Global,
    rows: &mut BTreeMap<&'a [u8], Items<Declared>>,
    name: &'a [u8],
    declared: Declared,
) -> Result<u32, NoMemory>
    ensures rows { (method : MethodTree) (before : List MethodTree) → name.now ≡ method.name → declared.class ≡ capped method.number → declared.number ≡ capped (length before) → declared.params ≡ length method.params → AreMethodRows before rows.old → OnOk result (AreMethodRows (before ++ method ∷ []) rows.new) }
    ensures next { (method : MethodTree) (before : List MethodTree) → declared.number ≡ capped (length before) → IfOk result (λ next. next ≡ capped (length (before ++ method ∷ []))) }
{
    let number = next(declared.number);
    multimap::push(alloc, rows, name, declared)?;
    Ok(number)
}

/// A method of the class of this number, with its own number and so many parameters.
fn taking(class: u32, number: u32, params: usize) -> Declared
    ensures { result ≡ record { class = class; number = number; params = params } }
{
    Declared {
        class,
        number,
        params,
    }
}

/// Puts the methods of maps behind the others, in the order of their places, where maps are made. Their class has this
/// number, and the first of them that.
fn add_map_methods<'a>(
    alloc: Global,
    rows: &mut BTreeMap<&'a [u8], Items<Declared>>,
    class: u32,
    first: u32,
    makes_map: bool,
) -> Result<(), NoMemory>
    ensures { (number : ℕ) (before : List MethodTree) → class ≡ capped number → first ≡ capped (length before) → AreMethodRows before rows.old → OnOk result (AreMethodRows (before ++ cond makes_map (map_methods number) []) rows.new) }
{
    if !makes_map {
        return Ok(());
    }
    let second = add_method(alloc, rows, b"get".as_slice(), taking(class, first, 1))?;
    let third = add_method(alloc, rows, b"has".as_slice(), taking(class, second, 1))?;
    let fourth = add_method(alloc, rows, b"size".as_slice(), taking(class, third, 0))?;
    let fifth = add_method(alloc, rows, b"put".as_slice(), taking(class, fourth, 2))?;
    add_method(alloc, rows, b"remove".as_slice(), taking(class, fifth, 1))?;
    Ok(())
}

/// For each name the methods of that name, in the order of the text; behind them those of maps, where maps are made.
pub(crate) fn reachable_methods(
    alloc: Global,
    items: &[Item],
    makes_map: bool,
) -> Result<BTreeMap<&[u8], Items<Declared>>, NoMemory>
    ensures { IfOk result (AreMethodRows (all_methods items.now ++ cond makes_map (map_methods (length (class_names items.now))) [])) }
{
    let mut rows = BTreeMap::new(alloc);
    let mut class = 0;
    let mut number = 0;
    for item in items {
        match item {
            Item::Class { members, .. } => {
                number = add_methods(alloc, &mut rows, class, number, members.as_slice())?;
                class = next(class);
            }
            Item::Thread { .. } => {}
        }
    }
    add_map_methods(alloc, &mut rows, class, number, makes_map)?;
    Ok(rows)
}
