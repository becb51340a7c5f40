//! Rows of values, each at a key (`specs/Multimap.antt`).

ghost use Rattle.std.specs.Prelude.{◌≡◌, OnOk, if◌then◌else◌};
ghost use Rattle.std.specs.BTreeMap.{is_at};
ghost use Rattle.dso_class.specs.Multimap.{longer, row_of, unless};

use dso_base::{Items, NoMemory};
use std::alloc::Global;
use std::collections::BTreeMap;

/// The values at a key, in the order in which they came.
pub(crate) fn row<'a, K: Ord, V>(rows: &'a BTreeMap<K, Items<V>>, key: &K) -> &'a [V]
    ensures { result.now ≡ row_of K.cmp rows.now key.now }
{
    match rows.get(key) {
        Some(row) => row.as_slice(),
        None => &[],
    }
}

/// Takes out the row of a key.
fn take_row<K: Ord + Drop, V: Drop>(
    alloc: Global,
    rows: &mut BTreeMap<K, Items<V>>,
    key: &K,
) -> Items<V>
    ensures was { result ≡ row_of K.cmp rows.old key.now }
    ensures others { (other : K) → row_of K.cmp rows.new other ≡ unless (is_at (K.cmp key.now) other) (row_of K.cmp rows.old other) }
{
    match rows.remove(key) {
        Some(row) => row,
        None => Items::new(alloc),
    }
}

/// Puts a row at a key that has none.
fn put_row<K: Ord + Drop, V: Drop>(
    rows: &mut BTreeMap<K, Items<V>>,
    key: K,
    row: Items<V>,
) -> Result<(), NoMemory>
    ensures { OnOk result ((other : K) → row_of K.cmp rows.new other ≡ if is_at (K.cmp key) other then row else row_of K.cmp rows.old other) }
{
    rows.insert(key, row)?;
    Ok(())
}

/// Puts a value behind the others at its key.
pub(crate) fn push<K: Ord + Drop, V: Drop>(
    alloc: Global,
    rows: &mut BTreeMap<K, Items<V>>,
    key: K,
    value: V,
) -> Result<(), NoMemory>
    ensures { OnOk result ((other : K) → row_of K.cmp rows.new other ≡ longer (is_at (K.cmp key) other) (row_of K.cmp rows.old other) value) }
{
    let mut row = take_row(alloc, rows, &key);
    row.push(value)?;
    put_row(rows, key, row)?;
    Ok(())
}
