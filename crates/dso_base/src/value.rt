//! Values and kinds: which values a kind takes, by `specs/Value.antt`, and the opening ones, by `specs/Block.antt`.
ghost use Rattle.std.specs.Prelude.{◌≡◌, ◌↔◌, IsTrue};
ghost use Rattle.dso_base.specs.Block.{opening_value};
ghost use Rattle.dso_base.specs.Value.{Fits};

use crate::{Data, Same};

/// A value of the language: what a field, a variable or an element holds.
///
/// A text is the number of a literal of the program, an object is named by its id.
#[derive(Clone, Copy, Debug, PartialEq, Eq)]
pub enum Value {
    Null,
    Long(i64),
    Bool(bool),
    Text(u32),
    Ref(u64),
}

/// The kind of a field: which values it takes.
#[derive(Clone, Copy, Debug, PartialEq, Eq)]
pub enum Kind {
    Long,
    Bool,
    Text,
    Ref,
}

impl Kind {
    /// What a field of this kind begins as: 0, false, and null for texts and references. It takes no memory.
    pub fn opening_value(self) -> Value
        ensures { result ≡ opening_value self }
    {
        match self {
            Kind::Long => Value::Long(0),
            Kind::Bool => Value::Bool(false),
            Kind::Text | Kind::Ref => Value::Null,
        }
    }
}

/// The class of an object: one of the program by its number, an array of a kind, or that of the roots' object.
#[derive(Clone, Copy, Debug, PartialEq, Eq)]
pub enum ClassId {
    Plain(u32),
    Array(Kind),
    Roots,
}

/// Whether a field of this kind takes this value. It takes no memory.
///
/// A long field takes longs, a boolean one booleans, a text one texts and null, and a reference any object but
/// object 0, and null.
pub fn fits(kind: Kind, value: Value) -> bool
    ensures { IsTrue result ↔ Fits kind value }
{
    match (kind, value) {
        (Kind::Long, Value::Long(_)) => true,
        (Kind::Bool, Value::Bool(_)) => true,
        (Kind::Text, Value::Text(_) | Value::Null) => true,
        (Kind::Ref, Value::Null) => true,
        (Kind::Ref, Value::Ref(object)) => object != 0,
        _ => false,
    }
}

impl Data for Value {
    ghost use Rattle.std.proofs.Common.{rules};

    ghost faithful = { Prim.search rules };
}

impl Same for Value {
    fn same(&self, other: &Self) -> bool {
        self == other
    }
}

impl Data for Kind {
    ghost use Rattle.std.proofs.Common.{rules};

    ghost faithful = { Prim.search rules };
}

impl Same for Kind {
    fn same(&self, other: &Self) -> bool {
        self == other
    }
}

impl Data for ClassId {
    ghost use Rattle.std.proofs.Common.{rules};

    ghost faithful = { Prim.search rules };
}

impl Same for ClassId {
    fn same(&self, other: &Self) -> bool {
        self == other
    }
}
