//! What a shape says of the fields of any class, and whether a body fits it (`specs/FitsDown.antt`).
ghost use Rattle.std.specs.Prelude.{◌≡◌, ◌↔◌, IsTrue, slice_get};
ghost use Rattle.std.specs.Option.{option_copied};
ghost use Rattle.dso_base.specs.Shape.{fields_at, guard_of, kind_of};
ghost use Rattle.dso_law.specs.FitsDown.{FitFrom, FitsShape, HasSize};

use dso_base::{Body, ClassId, FieldShape, Kind, LockName, Shape, Value, fits};
use dso_plain::can_be_made;

/// The field of the program's class of this number, None where there is none.
fn field_at(shape: &Shape, number: u32, field: usize) -> Option<&FieldShape>
    ensures { option_copied result ≡ slice_get (fields_at shape.now number) field }
{
    shape.classes.get(number as usize)?.fields.get(field)
}

/// The kind of a field of the class, that of objects where the class has no such field. It takes no memory.
pub fn kind_at(shape: &Shape, class: ClassId, field: usize) -> Kind
    ensures { result ≡ kind_of shape.now class field }
{
    match class {
        ClassId::Plain(number) => match field_at(shape, number, field) {
            Some(field) => field.kind,
            None => Kind::Ref,
        },
        ClassId::Array(kind) => kind,
        ClassId::Roots => Kind::Ref,
    }
}

/// The lock that guards a field of an object of the class, the object's monitor where the class has no such field. It
/// takes no memory.
pub fn guard_at(shape: &Shape, class: ClassId, object: u64, field: u32) -> LockName
    ensures { result ≡ guard_of shape.now class object field }
{
    shape.guard(class, object, field)
}

/// Whether an object of the class has so many fields or elements.
fn has_size(shape: &Shape, class: ClassId, size: usize) -> bool
    ensures { IsTrue result ↔ HasSize shape.now class size }
{
    match class {
        ClassId::Plain(_) | ClassId::Array(_) => can_be_made(shape, class, size),
        ClassId::Roots => size == shape.roots as usize,
    }
}

/// Whether each value fits its field.
fn values_fit(shape: &Shape, class: ClassId, values: &[Value]) -> bool
    ensures { IsTrue result ↔ FitFrom shape.now class 0 values.now }
{
    for (field, value) in values.iter().enumerate() {
        if !fits(kind_at(shape, class, field), *value) {
            return false;
        }
    }
    true
}

/// Whether the class and the values of the body fit the shape: it has as many values as an object of its class, and each
/// fits its field. It takes no memory.
pub fn fits_shape(shape: &Shape, body: &Body) -> bool
    ensures { IsTrue result ↔ FitsShape shape.now body.now }
{
    has_size(shape, body.class, body.values.len())
        && values_fit(shape, body.class, body.values.as_slice())
}
