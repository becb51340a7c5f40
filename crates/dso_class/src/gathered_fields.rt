//! The fields that a program text declares, in rows of equal names (`specs/Gathered.antt`).

ghost use Rattle.std.specs.Prelude.{◌≡◌, ◌∷◌, ◌++◌, [], List, IfOk, OnOk, length};
ghost use Rattle.dso_class.specs.Gathered.{all_fields, named_fields, AreFieldRows};
ghost use Rattle.dso_config_entries.specs.Words.{Word};

use crate::multimap;
use dso_base::{Items, NoMemory};
use dso_syntax::{Item, Member};
use std::alloc::Global;
use std::collections::BTreeMap;

/// Puts the fields of the class of this number behind those of the classes before it.
fn add_fields<'a>(
    alloc: Global,
    rows: &mut BTreeMap<&'a [u8], Items<(usize, usize)>>,
    class: usize,
    members: &'a [Member],
) -> Result<(), NoMemory>
    ensures { (before : List (List Word)) → length before ≡ class → AreFieldRows before rows.old → OnOk result (AreFieldRows (before ++ named_fields members.now ∷ []) rows.new) }
{
    let mut number = 0;
    for member in members {
        match member {
            Member::Field { name, .. } => {
                multimap::push(alloc, rows, name.name.as_slice(), (class, number))?;
                number += 1;
            }
            Member::Static { .. } => {}
            Member::Method { .. } => {}
        }
    }
    Ok(())
}

/// For each name the fields of that name, each by the numbers of its class and its own there, in the order of the text.
pub(crate) fn all_fields(
    alloc: Global,
    items: &[Item],
) -> Result<BTreeMap<&[u8], Items<(usize, usize)>>, NoMemory>
    ensures { IfOk result (AreFieldRows (all_fields items.now)) }
{
    let mut rows = BTreeMap::new(alloc);
    let mut class = 0;
    for item in items {
        match item {
            Item::Class { members, .. } => {
                add_fields(alloc, &mut rows, class, members.as_slice())?;
                class += 1;
            }
            Item::Thread { .. } => {}
        }
    }
    Ok(rows)
}
