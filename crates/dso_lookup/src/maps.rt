//! Changes of ordered maps, seen as functions from keys (`specs/Maps.antt`).
ghost use Rattle.std.specs.Prelude.{◌≡◌, None, Some, OnOk};
ghost use Rattle.std.specs.BTreeMap.{is_at};
ghost use Rattle.dso_lookup.specs.Maps.{look, writes, written};

use dso_base::NoMemory;
use std::collections::BTreeMap;

/// Puts a value at a key, instead of one there. It answers `NoMemory` where an allocation was refused; what stands in
/// the map then is not told.
pub fn put<K: Ord + Drop, V: Drop>(
    map: &mut BTreeMap<K, V>,
    key: K,
    value: V,
) -> Result<(), NoMemory>
    ensures { OnOk result (look K.cmp map.new ≡ written (writes (is_at (K.cmp key)) (λ _. Some value)) (look K.cmp map.old)) }
{
    map.insert(key, value)?;
    Ok(())
}

/// Takes out what stands at a key, None where nothing does. It takes no memory.
pub fn take<K: Ord + Drop, V: Drop>(map: &mut BTreeMap<K, V>, key: &K) -> Option<V>
    ensures was { result ≡ look K.cmp map.old key.now }
    ensures gone { look K.cmp map.new ≡ written (writes (is_at (K.cmp key.now)) (λ _. None)) (look K.cmp map.old) }
{
    map.remove(key)
}
