//! What the lines of a graph are read from.
ghost use Rattle.std.specs.Prelude.{◌≡◌};
ghost use Rattle.std.specs.Option.{option_map};
ghost use Rattle.dso_plain.specs.HeapTables.{object_of, state_of};
ghost use Rattle.dso_plain.specs.State.{PlainState};

use dso_base::Value;
use dso_plain::{Object, Plain};

/// What tells of objects and of the values of their fields, as a state has them.
pub(crate) trait Seen {
    /// The state that it tells of.
    ghost state: { Self → PlainState };

    /// An object, if it is there.
    fn object(&self, object: u64) -> Option<Object>
        ensures { option_map object_of result ≡ (state self.now).objects object };

    /// The value of a field, if there is such a field.
    fn value(&self, object: u64, field: u32) -> Option<Value>
        ensures { result ≡ (state self.now).heap (object, field) };
}

impl Seen for Plain {
    ghost state = { state_of };

    fn object(&self, object: u64) -> Option<Object> {
        Plain::object(self, object)
    }

    fn value(&self, object: u64, field: u32) -> Option<Value> {
        Plain::value(self, object, field)
    }
}
