//! Changes of maps of lists, which keep the newest value last (`specs/Lists.antt`).
ghost use Rattle.std.specs.Prelude.{◌≡◌, None, Some, OnOk, reverse, ◌∷◌};
ghost use Rattle.std.specs.BTreeMap.{is_at};
ghost use Rattle.dso_lookup.specs.Maps.{look, writes, written};
ghost use Rattle.dso_lookup.specs.Lists.{lists_of};

use crate::maps::{put, take};
use dso_base::{Items, NoMemory};
use std::alloc::Global;
use std::collections::BTreeMap;

/// Takes out the list of a key, an empty one where there is none.
fn take_items<K: Ord + Drop, V: Drop>(
    alloc: Global,
    map: &mut BTreeMap<K, Items<V>>,
    key: &K,
) -> Items<V>
    ensures items { reverse result ≡ lists_of K.cmp map.old key.now }
    ensures gone { look K.cmp map.new ≡ written (writes (is_at (K.cmp key.now)) (λ _. None)) (look K.cmp map.old) }
{
    match take(map, key) {
        Some(items) => items,
        None => Items::new(alloc),
    }
}

/// Puts a value behind the others of a key's list, as the newest. It answers `NoMemory` where an allocation was refused;
/// what stands in the map then is not told.
pub fn push_at<K: Ord + Drop, V: Drop>(
    alloc: Global,
    map: &mut BTreeMap<K, Items<V>>,
    key: K,
    value: V,
) -> Result<(), NoMemory>
    ensures { OnOk result (lists_of K.cmp map.new ≡ written (writes (is_at (K.cmp key)) (λ _. value ∷ lists_of K.cmp map.old key)) (lists_of K.cmp map.old)) }
{
    let mut items = take_items(alloc, map, &key);
    items.push(value)?;
    put(map, key, items)?;
    Ok(())
}
