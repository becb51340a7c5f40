//! The changes of a record that are for other clients (`specs/Changes.antt`).
ghost use Rattle.std.specs.Prelude.{◌≡◌, ◌++◌, [], ◌∷◌, Some, filter, OnOk, IfOk};
ghost use Rattle.std.specs.Ordering.{nat_cmp};
ghost use Rattle.std.specs.BTreeMap.{IsOrdered};
ghost use Rattle.dso_store.specs.Changes.{messages_of, row_has, row_changes, all_changes};

use crate::holders::Holders;
use dso_base::{NoMemory, Set, Txn};
use std::alloc::Global;
use std::collections::BTreeMap;

/// Puts the set at the end, if its object is in the row.
fn add_held(row: &BTreeMap<u64, ()>, set: Set, sets: &mut Vec<Set>) -> Result<(), NoMemory>
    ensures { OnOk result (sets.new.items ≡ sets.old.items ++ filter (λ s. row_has (Some row.now) s.object) (set ∷ [])) }
{
    if row.contains_key(&set.object) {
        sets.push(set)?;
    }
    Ok(())
}

/// The sets whose objects are in the row, in their order.
fn sets_in(alloc: Global, row: &BTreeMap<u64, ()>, sets: &[Set]) -> Result<Vec<Set>, NoMemory>
    ensures { IfOk result (λ held. held.items ≡ filter (λ s. row_has (Some row.now) s.object) sets.now) }
{
    let mut held = Vec::new(alloc);
    for set in sets {
        add_held(row, *set, &mut held)?;
    }
    Ok(held)
}

/// A client that holds objects, with the row of these.
#[derive(Clone, Copy)]
struct Holder<'a> {
    client: u8,
    row: &'a BTreeMap<u64, ()>,
}

/// Puts the changes for another client at the end, if there are any.
fn add_changes(
    alloc: Global,
    client: u8,
    txn: &Txn,
    other: Holder<'_>,
    changes: &mut Vec<(u8, Vec<Set>)>,
) -> Result<(), NoMemory>
    ensures { OnOk result (messages_of changes.new.items ≡ messages_of changes.old.items ++ row_changes client txn.now.sets other.entry.client (Some other.entry.row.now)) }
{
    if other.client == client {
        return Ok(());
    }
    let sets = sets_in(alloc, other.row, txn.sets.as_slice())?;
    if !sets.as_slice().is_empty() {
        changes.push((other.client, sets))?;
    }
    Ok(())
}

/// The sets of the client's record that other clients hold, for each of these that holds some, by rising client.
pub(crate) fn changes_of(
    alloc: Global,
    holders: &Holders,
    client: u8,
    txn: &Txn,
) -> Result<Vec<(u8, Vec<Set>)>, NoMemory>
    ensures all { IfOk result (λ changes. messages_of changes.items ≡ all_changes client txn.now.sets holders.now) }
    ensures ordered { IsOrdered nat_cmp holders.now }
{
    let mut changes = Vec::new(alloc);
    for (other, row) in holders {
        let other = Holder {
            client: *other,
            row,
        };
        add_changes(alloc, client, txn, other, &mut changes)?;
    }
    Ok(changes)
}
