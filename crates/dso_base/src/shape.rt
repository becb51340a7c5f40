//! The shape of a program's classes; the guard and the kind of a field, by `specs/Shape.antt`.
ghost use Rattle.std.specs.Prelude.{◌≡◌, slice_get};
ghost use Rattle.dso_base.specs.Shape.{fields_at, guard_of, kind_of};

use crate::{ClassId, Data, Items, Kind, LockName, Same};

/// What guards a field: the object's own monitor, or a named lock.
#[derive(Clone, Copy, Debug, PartialEq, Eq)]
pub enum Guard {
    Own,
    Name(u32),
}

/// A field's kind and guard.
#[derive(Clone, Copy, Debug, PartialEq, Eq)]
pub struct FieldShape {
    pub kind: Kind,
    pub guard: Guard,
}

/// A class's fields, in their order.
#[derive(Clone, Debug, Drop)]
pub struct ClassShape {
    pub fields: Items<FieldShape>,
}

/// What the cluster has to know of a program.
///
/// `names` counts all named locks, the roots' own among them; `texts` counts the text literals.
#[derive(Clone, Debug, Drop)]
pub struct Shape {
    pub classes: Items<ClassShape>,
    pub roots: u32,
    pub names: u32,
    pub texts: u32,
}

impl Shape {
    /// The field of the program's class of this number, None where there is no such class or no such field.
    fn field(&self, number: u32, field: u32) -> Option<FieldShape>
        ensures { result ≡ slice_get (fields_at self.now number) field }
    {
        match self.classes.get(number as usize) {
            Some(class) => class.fields.get(field as usize).copied(),
            None => None,
        }
    }

    /// The lock that guards a field of an object of this class: for a class of the program what the field says, the
    /// object's monitor where the class has no such field. It takes no memory.
    ///
    /// An element of an array is guarded by the array's monitor, a root by its own lock.
    pub fn guard(&self, class: ClassId, object: u64, field: u32) -> LockName
        ensures { result ≡ guard_of self.now class object field }
    {
        match class {
            ClassId::Plain(number) => match self.field(number, field) {
                Some(field) => match field.guard {
                    Guard::Own => LockName::Mon(object),
                    Guard::Name(name) => LockName::Name(name),
                },
                None => LockName::Mon(object),
            },
            ClassId::Array(_) => LockName::Mon(object),
            ClassId::Roots => LockName::Name(field),
        }
    }

    /// The kind of a field of this class: for a class of the program what the field says, that of references where the
    /// class has no such field. It takes no memory.
    ///
    /// The elements of an array are of the array's kind, roots are references.
    pub fn kind(&self, class: ClassId, field: u32) -> Kind
        ensures { result ≡ kind_of self.now class field }
    {
        match class {
            ClassId::Plain(number) => match self.field(number, field) {
                Some(field) => field.kind,
                None => Kind::Ref,
            },
            ClassId::Array(kind) => kind,
            ClassId::Roots => Kind::Ref,
        }
    }
}

impl Data for Guard {
    ghost use Rattle.std.proofs.Common.{rules};

    ghost faithful = { Prim.search rules };
}

impl Same for Guard {
    fn same(&self, other: &Self) -> bool {
        self == other
    }
}

impl Data for FieldShape {
    ghost use Rattle.std.proofs.Common.{rules};

    ghost faithful = { Prim.search rules };
}

impl Same for FieldShape {
    fn same(&self, other: &Self) -> bool {
        self == other
    }
}

impl Data for ClassShape {
    ghost use Rattle.std.proofs.Common.{rules};

    ghost faithful = { Prim.search rules };
}

impl Data for Shape {
    ghost use Rattle.std.proofs.Common.{rules};

    ghost faithful = { Prim.search rules };
}
