//! Changes and look-ups of maps of rows, seen as functions from pairs of keys (`specs/Rows.antt`).
ghost use Rattle.std.specs.Prelude.{◌≡◌, ◌≢◌, ◌↔◌, None, Some, OnOk, IfOk, IsTrue, MatchOption};
ghost use Rattle.std.specs.Option.{option_copied};
ghost use Rattle.std.specs.BTreeMap.{is_at};
ghost use Rattle.dso_lookup.specs.Maps.{look, writes, written};
ghost use Rattle.dso_lookup.specs.Rows.{in_row, look_in, is_at_pair};

use crate::rows_in_place::insert_in;
use dso_base::NoMemory;
use std::alloc::Global;
use std::collections::BTreeMap;

/// Takes out the row of a key, an empty one where there is none. It takes no memory.
pub fn take_row<J: Ord + Drop, K: Ord + Drop, V: Drop>(
    alloc: Global,
    rows: &mut BTreeMap<J, BTreeMap<K, V>>,
    at: &J,
) -> BTreeMap<K, V>
    ensures row { (key : K) → look K.cmp result key ≡ in_row K.cmp (look J.cmp rows.old at.now) key }
    ensures gone { look J.cmp rows.new ≡ written (writes (is_at (J.cmp at.now)) (λ _. None)) (look J.cmp rows.old) }
{
    match rows.remove(at) {
        Some(row) => row,
        None => BTreeMap::new(alloc),
    }
}

/// Puts a value at a key of a row, instead of one there. It answers `NoMemory` where an allocation was refused; what
/// stands in the rows then is not told.
pub fn put_in<J: Ord + Drop, K: Ord + Drop, V: Drop>(
    alloc: Global,
    rows: &mut BTreeMap<J, BTreeMap<K, V>>,
    at: J,
    key: K,
    value: V,
) -> Result<(), NoMemory>
    ensures { OnOk result (look_in J.cmp K.cmp rows.new ≡ written (writes (is_at_pair J.cmp K.cmp at key) (λ _. Some value)) (look_in J.cmp K.cmp rows.old)) }
{
    insert_in(alloc, rows, at, key, value)
}

/// Takes out what stands at a key of a row, None where nothing does. It takes no memory: `NoMemory` stands in its type
/// alone.
pub fn take_in<J: Ord + Drop, K: Ord + Drop, V: Drop>(
    alloc: Global,
    rows: &mut BTreeMap<J, BTreeMap<K, V>>,
    at: J,
    key: &K,
) -> Result<Option<V>, NoMemory>
    ensures was { IfOk result (λ value. value ≡ look_in J.cmp K.cmp rows.old (at, key.now)) }
    ensures gone { OnOk result (look_in J.cmp K.cmp rows.new ≡ written (writes (is_at_pair J.cmp K.cmp at key.now) (λ _. None)) (look_in J.cmp K.cmp rows.old)) }
{
    match rows.get_mut(&at) {
        Some(row) => Ok(row.remove(key)),
        None => Ok(None),
    }
}

/// Drops what stands at a key of a row. It takes no memory: `NoMemory` stands in its type alone.
pub fn discard_in<J: Ord + Drop, K: Ord + Drop, V: Drop>(
    alloc: Global,
    rows: &mut BTreeMap<J, BTreeMap<K, V>>,
    at: J,
    key: &K,
) -> Result<(), NoMemory>
    ensures { OnOk result (look_in J.cmp K.cmp rows.new ≡ written (writes (is_at_pair J.cmp K.cmp at key.now) (λ _. None)) (look_in J.cmp K.cmp rows.old)) }
{
    let _ = take_in(alloc, rows, at, key)?;
    Ok(())
}

/// What stands at a key of a row, None where nothing does. It takes no memory.
pub fn find_in<'a, J: Ord, K: Ord, V>(
    rows: &'a BTreeMap<J, BTreeMap<K, V>>,
    at: &J,
    key: &K,
) -> Option<&'a V>
    ensures { option_copied result ≡ look_in J.cmp K.cmp rows.now (at.now, key.now) }
{
    match rows.get(at) {
        Some(row) => row.get(key),
        None => None,
    }
}

/// Whether nothing stands in a row. It takes no memory.
pub fn is_row_empty<J: Ord, K: Ord, V>(rows: &BTreeMap<J, BTreeMap<K, V>>, at: &J) -> bool
    ensures { IsTrue result ↔ ((key : K) → look_in J.cmp K.cmp rows.now (at.now, key) ≡ None) }
{
    match rows.get(at) {
        Some(row) => row.is_empty(),
        None => true,
    }
}

/// Whether something stands in a row. It takes no memory.
pub fn is_row_taken<J: Ord, K: Ord, V>(rows: &BTreeMap<J, BTreeMap<K, V>>, at: &J) -> bool
    ensures { IsTrue result ↔ ((key : K) × (look_in J.cmp K.cmp rows.now (at.now, key) ≢ None)) }
{
    match rows.get(at) {
        Some(row) => !row.is_empty(),
        None => false,
    }
}

/// The first value of a row, None where nothing stands in it. It takes no memory.
pub fn first_in<'a, J: Ord, K: Ord, V>(
    rows: &'a BTreeMap<J, BTreeMap<K, V>>,
    at: &J,
) -> Option<&'a V>
    ensures { MatchOption (option_copied result) ((key : K) → look_in J.cmp K.cmp rows.now (at.now, key) ≡ None) (λ value. (key : K) × (look_in J.cmp K.cmp rows.now (at.now, key) ≡ Some value)) }
{
    match rows.get(at) {
        Some(row) => match row.first_key_value() {
            Some((_, value)) => Some(value),
            None => None,
        },
        None => None,
    }
}
