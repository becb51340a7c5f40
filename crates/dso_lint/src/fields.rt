//! What a grade allows, and what a field asks (`specs/Access.antt`).
ghost use Rattle.std.specs.Prelude.{◌≡◌, ◌↔◌, IsTrue};
ghost use Rattle.dso_lint.specs.Access as rule;

use dso_base::{ClassId, Grade, Kind, Shape};
use dso_machine::FieldRef;

/// Whether what is locked at this grade may be written.
pub(crate) fn writes(grade: Grade) -> bool
    ensures { result ≡ rule.writes grade }
{
    match grade {
        Grade::Read => false,
        Grade::Write | Grade::Synchronous => true,
    }
}

/// Whether the method's own named lock is this one, and for a write allows it.
pub(crate) fn is_named(named: Option<(u32, Grade)>, write: bool, lock: u32) -> bool
    ensures { IsTrue result ↔ rule.IsNamed named write lock }
{
    match named {
        None => false,
        Some((own, grade)) => own == lock && (writes(grade) || !write),
    }
}

/// Whether the field is of kind ref in some class.
pub(crate) fn is_ref_field(shape: &Shape, field: &FieldRef) -> bool
    ensures { IsTrue result ↔ rule.IsRefField shape.now field.now }
{
    let places = field.places.get().as_slice();
    for place in places {
        if shape.kind(ClassId::Plain(place.0), place.1) == Kind::Ref {
            return true;
        }
    }
    false
}
