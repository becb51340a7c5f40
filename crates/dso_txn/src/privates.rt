//! A thread's private objects (`specs/InHand.antt`).
ghost use Rattle.std.specs.Prelude.{◌≡◌, None, Some, OnOk, OnErr};
ghost use Rattle.std.specs.BTreeMap.{is_at};
ghost use Rattle.std.specs.Option.{option_copied};
ghost use Rattle.std.specs.Ordering.{nat_cmp};
ghost use Rattle.dso_lookup.specs.Maps.{writes, written};
ghost use Rattle.dso_change.specs.Hands.{has_field, with_field_at};
ghost use Rattle.dso_txn.specs.InHand.{bodies_in};

use dso_base::{Body, NoMemory, Set};
use dso_change::set_in;
use std::alloc::Global;
use std::collections::BTreeMap;

/// The private objects of one thread. Contracts see the body of each by its id (`bodies_in`). Each call costs the
/// logarithm of their number.
#[derive(Drop)]
pub struct Privates {
    pub(crate) bodies: BTreeMap<u64, Body>,
}

impl Privates {
    /// No private object.
    pub fn new(alloc: Global) -> Privates
        ensures { bodies_in result ≡ (λ _. None) }
    {
        Privates {
            bodies: BTreeMap::new(alloc),
        }
    }

    /// Adds an object, instead of one of its id. It answers `NoMemory` where an allocation was refused, and nothing is
    /// changed then.
    pub fn add(&mut self, body: Body) -> Result<(), NoMemory>
        ensures ok { OnOk result (bodies_in self.new ≡ written (writes (is_at (nat_cmp body.object)) (λ _. Some body)) (bodies_in self.old)) }
        ensures err { OnErr result (bodies_in self.new ≡ bodies_in self.old) }
    {
        self.bodies.insert(body.object, body)?;
        Ok(())
    }

    /// The object of an id, None exactly where it isn't one of these. It takes no memory.
    pub fn get(&self, object: u64) -> Option<&Body>
        ensures { option_copied result ≡ bodies_in self.now object }
    {
        self.bodies.get(&object)
    }

    /// Writes a field of a private object. False, with nothing changed, exactly where there is no such field. It takes
    /// no memory.
    pub fn set(&mut self, alloc: Global, set: Set) -> bool
        ensures found { result ≡ has_field set.field (bodies_in self.old set.object) }
        ensures written { bodies_in self.new ≡ with_field_at set.object set.field set.value (bodies_in self.old) }
    {
        set_in(alloc, &mut self.bodies, set)
    }
}
