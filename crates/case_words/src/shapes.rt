//! Classes of small shapes.

use dso_base::{ClassShape, FieldShape, Guard, Items, Kind, NoMemory};
use std::alloc::Global;

/// A field of this kind under this guard.
pub fn field_shape(kind: Kind, guard: Guard) -> FieldShape {
    FieldShape { kind, guard }
}

/// A class with these fields.
pub fn class_shape(alloc: Global, fields: &[FieldShape]) -> Result<ClassShape, NoMemory> {
    let fields = Vec::from_slice(alloc, fields)?;
    Ok(ClassShape {
        fields: Items::from_vec(fields),
    })
}
