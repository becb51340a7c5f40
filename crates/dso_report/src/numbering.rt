//! The numbering of the graph's objects, breadth first from the roots (`specs/Numbering.antt`).
ghost use Rattle.std.specs.Prelude.{◌≡◌, IfOk, OnOk};
ghost use Rattle.dso_report.specs.Numbering.{IsOrder, add_entries, add_fields, add_named, add_object, add_shown, fields_of};

use crate::maps::{MapEntry, is_map_there, map_entries};
use crate::seen::Seen;
use dso_base::Value;
use indexmap::IndexSet;
use std::alloc::{AllocError, Global};

/// How many fields or elements an object has. It takes no memory.
pub(crate) fn fields_of<S: Seen>(seen: &S, object: u64) -> u32
    ensures { result ≡ fields_of (S.state seen.now) object }
{
    match seen.object(object) {
        Some(object) => object.size,
        None => 0,
    }
}

/// The order of all objects that can be reached from the roots.
///
/// It takes time and memory in the measure of the graph.
pub(crate) fn order_of<S: Seen>(alloc: Global, seen: &S) -> Result<IndexSet<u64>, AllocError>
    ensures { IfOk result (λ order. IsOrder (S.state seen.now) order.keys) }
{
    let mut order = IndexSet::new(alloc);
    add_fields(&mut order, seen, 0)?;
    let mut visits = 0;
    while visits < order.len() {
        let object = order.as_slice()[visits];
        add_shown(alloc, &mut order, seen, object)?;
        visits += 1;
    }
    Ok(order)
}

/// Adds the objects that an object shows: those of a map's entries, and those that the fields of another name.
fn add_shown<S: Seen>(
    alloc: Global,
    order: &mut IndexSet<u64>,
    seen: &S,
    object: u64,
) -> Result<(), AllocError>
    ensures { OnOk result (order.new.keys ≡ add_shown (S.state seen.now) object order.old.keys) }
{
    if is_map_there(seen, object) {
        let entries = map_entries(alloc, seen, object)?;
        add_entries(order, entries.as_slice())
    } else {
        add_fields(order, seen, object)
    }
}

/// Adds the objects of a map's entries, in the order of the entries.
fn add_entries(order: &mut IndexSet<u64>, entries: &[MapEntry]) -> Result<(), AllocError>
    ensures { OnOk result (order.new.keys ≡ add_entries entries.now order.old.keys) }
{
    for entry in entries {
        add_object(order, entry.object)?;
    }
    Ok(())
}

/// Adds the objects that the fields of an object name, in the order of the fields.
fn add_fields<S: Seen>(order: &mut IndexSet<u64>, seen: &S, object: u64) -> Result<(), AllocError>
    ensures { OnOk result (order.new.keys ≡ add_fields (S.state seen.now) object (fields_of (S.state seen.now) object) order.old.keys) }
{
    for field in 0..fields_of(seen, object) {
        add_named(order, seen.value(object, field))?;
    }
    Ok(())
}

/// Adds the object that a field's value names, if it names one.
fn add_named(order: &mut IndexSet<u64>, value: Option<Value>) -> Result<(), AllocError>
    ensures { OnOk result (order.new.keys ≡ add_named order.old.keys value) }
{
    if let Some(Value::Ref(object)) = value {
        add_object(order, object)?;
    }
    Ok(())
}

/// Adds an object behind the others, if it isn't there yet.
pub(crate) fn add_object(order: &mut IndexSet<u64>, object: u64) -> Result<(), AllocError>
    ensures { OnOk result (order.new.keys ≡ add_object order.old.keys object) }
{
    order.insert(object)?;
    Ok(())
}
