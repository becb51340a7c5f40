//! The changes of a record that are for one client (`specs/Hands.antt`).
ghost use Rattle.std.specs.Prelude.{◌≡◌, [], ◌∷◌, ◌++◌, filter, IfOk, OnOk};
ghost use Rattle.std.specs.Ordering.{nat_cmp};
ghost use Rattle.std.specs.BTreeSet.{contains};
ghost use Rattle.dso_lookup.specs.Search.{IsSetOf};
ghost use Rattle.dso_change.specs.Hands.{changes_among};

use dso_base::{NoMemory, Set, Txn};
use std::alloc::Global;
use std::collections::BTreeSet;

/// The objects of the list as a set.
fn set_of(alloc: Global, objects: &[u64]) -> Result<BTreeSet<u64>, NoMemory>
    ensures { IfOk result (λ set. IsSetOf set objects.now) }
{
    let mut set = BTreeSet::new(alloc);
    let mut at = objects.len();
    while at > 0 {
        at -= 1;
        set.insert(objects[at])?;
    }
    Ok(set)
}

/// Puts the set behind the changes, if its object is held.
fn add_held(holds: &BTreeSet<u64>, set: Set, changes: &mut Vec<Set>) -> Result<(), NoMemory>
    ensures { OnOk result (changes.new.items ≡ changes.old.items ++ filter (λ s. contains nat_cmp holds.now s.object) (set ∷ [])) }
{
    if holds.contains(&set.object) {
        changes.push(set)?;
    }
    Ok(())
}

/// The sets of the record whose objects are held, in the record's order: what another client that holds these objects is
/// told. It costs the logarithm of the number of objects held, for each of them and for each set.
///
/// It answers `NoMemory` where an allocation was refused.
pub fn changes_for(alloc: Global, txn: &Txn, held: &[u64]) -> Result<Vec<Set>, NoMemory>
    ensures { IfOk result (λ changes. changes.items ≡ changes_among held.now txn.now.sets) }
{
    let holds = set_of(alloc, held)?;
    let mut changes = Vec::new(alloc);
    for set in txn.sets.as_slice() {
        add_held(&holds, *set, &mut changes)?;
    }
    Ok(changes)
}
