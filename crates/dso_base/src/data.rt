//! Copies that equal their sources, and exact tests of equality.
ghost use Rattle.std.specs.Prelude.{◌≡◌, ◌↔◌, IsTrue};

/// A type whose clones equal their sources.
///
/// So a generic caller knows what it copied: the same value.
pub trait Data: Clone {
    /// A clone is its source.
    ghost faithful: { (source clone : Self) → Self.is_clone source clone → clone ≡ source };
}

/// A type whose values can be told apart.
pub trait Same {
    /// Whether the two are one value, exactly: true for equal ones, false for all others.
    fn same(&self, other: &Self) -> bool
        ensures { IsTrue result ↔ (self.now ≡ other.now) };
}

impl<T: Same> Same for Option<T> {
    fn same(&self, other: &Self) -> bool {
        match (self, other) {
            (Some(value), Some(that)) => value.same(that),
            (None, None) => true,
            _ => false,
        }
    }
}
