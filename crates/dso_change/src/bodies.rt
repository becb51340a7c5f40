//! Bodies: copies, and fields written in place, of one body and in a table by object (`specs/Hands.antt`).
ghost use Rattle.std.specs.Prelude.{◌≡◌, IfOk, ltb, length, slice_set};
ghost use Rattle.std.specs.Ordering.{nat_cmp};
ghost use Rattle.dso_lookup.specs.Maps.{look};
ghost use Rattle.dso_change.specs.Hands.{with_field, has_field, with_field_at};

use dso_base::{Body, Data, Items, Set, Value};
use std::alloc::{AllocError, Global};
use std::collections::BTreeMap;

/// A copy of one item. It answers `AllocError` where an allocation was refused.
pub fn copy<T: Data>(item: &T) -> Result<T, AllocError>
    ensures { IfOk result (λ copy. copy ≡ item.now) }
{
    item.clone()
}

/// The values with this one in the field, as they were where there is no such field.
fn with_value(values: Items<Value>, field: u32, value: Value) -> Items<Value>
    ensures { result ≡ slice_set values field value }
{
    let mut all = values.into_vec();
    let at = field as usize;
    if at < all.len() {
        all[at] = value;
    }
    Items::from_vec(all)
}

/// Writes the field of a body in place. False, with nothing changed, exactly where it has no such field. It takes no
/// memory.
pub fn write_field(alloc: Global, body: &mut Body, field: u32, value: Value) -> bool
    ensures found { result ≡ ltb field (length body.old.values) }
    ensures written { body.new ≡ with_field field value body.old }
{
    let found = (field as usize) < body.values.len();
    let values = std::mem::replace(&mut body.values, Items::new(alloc));
    body.values = with_value(values, field, value);
    found
}

/// Writes a field in the table's body of the object. False, with nothing changed, exactly where there is no such object
/// or it has no such field. It takes no memory.
pub fn set_in(alloc: Global, bodies: &mut BTreeMap<u64, Body>, set: Set) -> bool
    ensures found { result ≡ has_field set.field (look nat_cmp bodies.old set.object) }
    ensures written { look nat_cmp bodies.new ≡ with_field_at set.object set.field set.value (look nat_cmp bodies.old) }
{
    match bodies.get_mut(&set.object) {
        Some(body) => write_field(alloc, body, set.field, set.value),
        None => false,
    }
}
