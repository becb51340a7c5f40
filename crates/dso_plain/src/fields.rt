//! The fields of an object in the tables: what they begin as, and their pasts (`specs/HeapTables.antt`).
ghost use Rattle.std.specs.Prelude.{◌≡◌, Some, OnOk, IfOk, [], ◌∷◌};
ghost use Rattle.dso_base.specs.Block.{opening_value};
ghost use Rattle.dso_base.specs.Shape.{kind_of};
ghost use Rattle.dso_plain.specs.KeyTests.{is_field};
ghost use Rattle.dso_lookup.specs.Maps.{writes, written, look};
ghost use Rattle.dso_plain.specs.After.{present};
ghost use Rattle.dso_plain.specs.HeapTables.{field_order, pasts_of, is_below};

use dso_base::{ClassId, Items, NoMemory, Shape, Value};
use dso_lookup::{put, take};
use std::alloc::Global;
use std::collections::BTreeMap;

/// Gives the fields of an object their opening values.
pub(crate) fn make_fields(
    heap: &mut BTreeMap<(u64, u32), Value>,
    shape: &Shape,
    class: ClassId,
    object: u64,
    size: u32,
) -> Result<(), NoMemory>
    ensures { OnOk result (look field_order heap.new ≡ written (writes (is_below object size) (λ key. Some (opening_value (kind_of shape.now class key.1)))) (look field_order heap.old)) }
{
    for field in 0..size {
        let opening = shape.kind(class, field).opening_value();
        put(heap, (object, field), opening)?;
    }
    Ok(())
}

/// A list of one value.
fn single(alloc: Global, value: Value) -> Result<Items<Value>, NoMemory>
    ensures { IfOk result (λ items. items ≡ value ∷ []) }
{
    let mut items = Items::new(alloc);
    items.push(value)?;
    Ok(items)
}

/// The past of a field begins with its present value.
fn open_field(
    alloc: Global,
    heap: &BTreeMap<(u64, u32), Value>,
    past: &mut BTreeMap<(u64, u32), Items<Value>>,
    object: u64,
    field: u32,
) -> Result<(), NoMemory>
    ensures { OnOk result (pasts_of past.new ≡ written (writes (is_field object field) (λ _. present (look field_order heap.now (object, field)))) (pasts_of past.old)) }
{
    let key = (object, field);
    if let Some(value) = heap.get(&key) {
        put(past, key, single(alloc, *value)?)?;
        return Ok(());
    }
    let _ = take(past, &key);
    Ok(())
}

/// The pasts of an object's fields begin with their present values.
pub(crate) fn open_fields(
    alloc: Global,
    heap: &BTreeMap<(u64, u32), Value>,
    past: &mut BTreeMap<(u64, u32), Items<Value>>,
    object: u64,
    size: u32,
) -> Result<(), NoMemory>
    ensures { OnOk result (pasts_of past.new ≡ written (writes (is_below object size) (λ key. present (look field_order heap.now key))) (pasts_of past.old)) }
{
    for field in 0..size {
        open_field(alloc, heap, past, object, field)?;
    }
    Ok(())
}
