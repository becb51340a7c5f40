//! What a program text declares, in tables in which a name is found in the logarithm of their size
//! (`specs/DeclaredNames.antt`).

ghost use Rattle.std.specs.Prelude.{◌≡◌, ◌↔◌, [], Contains, IfOk, IfSome, IsNone, IsTrue, map, true};
ghost use Rattle.dso_class.specs.Declarations.{all_statics, class_names};
ghost use Rattle.dso_class.specs.Maps.{map_word, reachable_classes, reachable_methods};
ghost use Rattle.dso_class.specs.NameFaults.{HasMethod, HasNoFault, IsClass, IsReachableClass, TakesArguments};
ghost use Rattle.dso_class.specs.Gathered.{callees_of, capped_pair};
ghost use Rattle.dso_class.specs.Numbers.{AreThePairs, IsFieldRef, IsNumber};
ghost use Rattle.dso_class.specs.Numbers as numbers;
ghost use Rattle.dso_class.specs.TextProgram.{Source, field_names};
ghost use Rattle.dso_class.specs.DeclaredNames.{AreTables};

use crate::gathered_classes::class_names;
use crate::gathered_fields::all_fields;
use crate::gathered_methods::{Declared, reachable_methods};
use crate::gathered_statics::{all_statics, static_number};
use crate::multimap::row;
use crate::narrow::narrow;
use crate::new_maps::{in_items, map_name};
use dso_base::{Items, NoMemory};
use dso_config_entries::{Interner, number_of};
use dso_machine::{Branch, FieldRef};
use dso_syntax::Ast;
use std::alloc::Global;
use std::collections::BTreeMap;

/// What a text declares: the classes, the static fields by class and name, and for each name the fields and the methods
/// of that name in the order of the classes; and whether it makes a map. Where it does, the methods of maps are there
/// too, as those of a class behind the others.
#[derive(Drop)]
pub(crate) struct DeclaredNames<'a> {
    classes: Interner<&'a [u8]>,
    statics: Interner<(&'a [u8], &'a [u8])>,
    fields: BTreeMap<&'a [u8], Items<(usize, usize)>>,
    methods: BTreeMap<&'a [u8], Items<Declared>>,
    pub(crate) makes_map: bool,
}

/// The tables of a text, of a faulty one too.
pub(crate) fn gather(alloc: Global, ast: &Ast) -> Result<DeclaredNames<'_>, NoMemory>
    ensures { IfOk result (AreTables ast.now) }
{
    let items = ast.items.as_slice();
    let makes_map = in_items(items);
    Ok(DeclaredNames {
        classes: class_names(alloc, items)?,
        statics: all_statics(alloc, items)?,
        fields: all_fields(alloc, items)?,
        methods: reachable_methods(alloc, items, makes_map)?,
        makes_map,
    })
}

/// The number of the class of this name, None where the text has none.
pub(crate) fn class_number<'a>(tables: &DeclaredNames<'a>, name: &'a [u8]) -> Option<u32>
    ensures there { (source : Source) → AreTables source.ast tables.now → IsNone result ↔ (IsClass source.ast name.now → ⊥) }
    ensures number { (source : Source) → AreTables source.ast tables.now → HasNoFault source.config source.ast → IfSome result (λ number. IsNumber (class_names source.ast.items) name.now number) }
{
    match number_of(&tables.classes, name) {
        Some(number) => Some(narrow(number)),
        None => None,
    }
}

/// Whether the name is that of the class of maps, and the text makes one.
fn is_made_map<'a>(tables: &DeclaredNames<'a>, name: &'a [u8]) -> bool
    ensures { IsTrue result ↔ ((tables.now.makes_map ≡ true) × (name.now ≡ map_word)) }
{
    tables.makes_map & (name == map_name())
}

/// The number of the class of a new object of this name, None where neither the text has one nor it is that of maps.
pub(crate) fn object_class<'a>(tables: &DeclaredNames<'a>, name: &'a [u8]) -> Option<u32>
    ensures there { (source : Source) → AreTables source.ast tables.now → IsNone result ↔ (IsReachableClass source.ast name.now → ⊥) }
    ensures number { (source : Source) → AreTables source.ast tables.now → HasNoFault source.config source.ast → IfSome result (λ number. IsNumber (reachable_classes source.ast) name.now number) }
{
    if is_made_map(tables, name) {
        return Some(narrow(tables.classes.as_slice().len()));
    }
    class_number(tables, name)
}

/// The number of the static field of this class and name, None where the text has none.
pub(crate) fn root_number<'a>(
    tables: &DeclaredNames<'a>,
    class: &'a [u8],
    field: &'a [u8],
) -> Option<u32>
    ensures there { (source : Source) → AreTables source.ast tables.now → IsNone result ↔ (Contains (all_statics source.ast.items) (record { class = class.now; field = field.now }) → ⊥) }
    ensures number { (source : Source) → AreTables source.ast tables.now → HasNoFault source.config source.ast → IfSome result (λ number. IsNumber (all_statics source.ast.items) (record { class = class.now; field = field.now }) number) }
{
    match static_number(&tables.statics, class, field) {
        Some(number) => Some(narrow(number)),
        None => None,
    }
}

/// The pairs of a row in 32 bits.
fn narrowed(alloc: Global, row: &[(usize, usize)]) -> Result<Items<(u32, u32)>, NoMemory>
    ensures { IfOk result (λ pairs. pairs ≡ map capped_pair row.now) }
{
    let mut pairs = Items::new(alloc);
    for place in row {
        let (class, number) = *place;
        pairs.push((narrow(class), narrow(number)))?;
    }
    Ok(pairs)
}

/// Where a field of this name is.
pub(crate) fn field_ref<'a>(
    alloc: Global,
    tables: &DeclaredNames<'a>,
    name: &'a [u8],
) -> Result<FieldRef, NoMemory>
    ensures { (source : Source) → AreTables source.ast tables.now → HasNoFault source.config source.ast → IfOk result (IsFieldRef (field_names source) name.now) }
{
    let places = narrowed(alloc, row(&tables.fields, &name))?;
    Ok(FieldRef {
        places: Branch::new(alloc, places)?,
        length: name == b"length".as_slice(),
    })
}

/// Whether some class has a method of this name, that of maps too where the text makes one.
pub(crate) fn has_method<'a>(tables: &DeclaredNames<'a>, name: &'a [u8]) -> bool
    ensures { (source : Source) → AreTables source.ast tables.now → IsTrue result ↔ HasMethod source.ast name.now }
{
    !row(&tables.methods, &name).is_empty()
}

/// The methods of a row that take so many arguments, each by its class and its number.
fn taking(alloc: Global, row: &[Declared], count: usize) -> Result<Items<(u32, u32)>, NoMemory>
    ensures { IfOk result (λ pairs. pairs ≡ callees_of count row.now) }
{
    let mut pairs = Items::new(alloc);
    for declared in row {
        if declared.params == count {
            pairs.push((declared.class, declared.number))?;
        }
    }
    Ok(pairs)
}

/// The methods of this name that take so many arguments, each by its class and its number.
pub(crate) fn callees<'a>(
    alloc: Global,
    tables: &DeclaredNames<'a>,
    name: &'a [u8],
    count: usize,
) -> Result<Items<(u32, u32)>, NoMemory>
    ensures there { (source : Source) → AreTables source.ast tables.now → IfOk result (λ pairs. (pairs ≡ []) ↔ (TakesArguments source.ast name.now count → ⊥)) }
    ensures number { (source : Source) → AreTables source.ast tables.now → HasNoFault source.config source.ast → IfOk result (AreThePairs (numbers.HasMethod (reachable_methods source.ast) name.now count)) }
{
    taking(alloc, row(&tables.methods, &name), count)
}
