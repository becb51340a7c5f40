//! Changes of maps of rows in place, seen as functions from pairs of keys (`specs/Rows.antt`). No row is left empty.
ghost use Rattle.std.specs.Prelude.{◌≡◌, true, is_some, None, Some, OnOk, OnErr};
ghost use Rattle.dso_lookup.specs.Maps.{writes, written};
ghost use Rattle.dso_lookup.specs.Rows.{look_in, is_at_pair};

use crate::rows::is_row_empty;
use dso_base::NoMemory;
use std::alloc::Global;
use std::collections::BTreeMap;

/// Puts a value at a key of a row, instead of one there. It answers `NoMemory` where an allocation was refused, and the
/// rows are then as before.
pub fn insert_in<J: Ord + Drop, K: Ord + Drop, V: Drop>(
    alloc: Global,
    rows: &mut BTreeMap<J, BTreeMap<K, V>>,
    at: J,
    key: K,
    value: V,
) -> Result<(), NoMemory>
    ensures ok { OnOk result (look_in J.cmp K.cmp rows.new ≡ written (writes (is_at_pair J.cmp K.cmp at key) (λ _. Some value)) (look_in J.cmp K.cmp rows.old)) }
    ensures err { OnErr result (look_in J.cmp K.cmp rows.new ≡ look_in J.cmp K.cmp rows.old) }
{
    match rows.get_mut(&at) {
        Some(row) => {
            row.insert(key, value)?;
        }
        None => {
            let mut row = BTreeMap::new(alloc);
            row.insert(key, value)?;
            rows.insert(at, row)?;
        }
    }
    Ok(())
}

/// Puts a value at a key of a row instead of the one there. It takes no memory.
pub fn replace_in<J: Ord + Drop, K: Ord + Drop, V: Drop>(
    rows: &mut BTreeMap<J, BTreeMap<K, V>>,
    at: &J,
    key: &K,
    value: V,
)
    requires { is_some (look_in J.cmp K.cmp rows.old (at.now, key.now)) ≡ true }
    ensures { look_in J.cmp K.cmp rows.new ≡ written (writes (is_at_pair J.cmp K.cmp at.now key.now) (λ _. Some value)) (look_in J.cmp K.cmp rows.old) }
{
    if let Some(row) = rows.get_mut(at) {
        if let Some(place) = row.get_mut(key) {
            *place = value;
        }
    }
}

/// Drops what stands at a key of a row. It takes no memory.
fn clear_in<J: Ord + Drop, K: Ord + Drop, V: Drop>(
    rows: &mut BTreeMap<J, BTreeMap<K, V>>,
    at: &J,
    key: &K,
)
    ensures { look_in J.cmp K.cmp rows.new ≡ written (writes (is_at_pair J.cmp K.cmp at.now key.now) (λ _. None)) (look_in J.cmp K.cmp rows.old) }
{
    if let Some(row) = rows.get_mut(at) {
        row.remove(key);
    }
}

/// Drops the row of a key where nothing stands in it. It takes no memory.
fn drop_empty<J: Ord + Drop, K: Ord + Drop, V: Drop>(rows: &mut BTreeMap<J, BTreeMap<K, V>>, at: &J)
    ensures { look_in J.cmp K.cmp rows.new ≡ look_in J.cmp K.cmp rows.old }
{
    if is_row_empty(rows, at) {
        rows.remove(at);
    }
}

/// Drops what stands at a key of a row, and the row where nothing else stands in it. It takes no memory.
pub fn remove_in<J: Ord + Drop, K: Ord + Drop, V: Drop>(
    rows: &mut BTreeMap<J, BTreeMap<K, V>>,
    at: &J,
    key: &K,
)
    ensures { look_in J.cmp K.cmp rows.new ≡ written (writes (is_at_pair J.cmp K.cmp at.now key.now) (λ _. None)) (look_in J.cmp K.cmp rows.old) }
{
    clear_in(rows, at, key);
    drop_empty(rows, at);
}
