//! How an object stands with a client, and what is kept of it (`specs/Slots.antt`).
ghost use Rattle.std.specs.Prelude.{◌≡◌, Some};
ghost use Rattle.std.specs.Bool.{OnTrue, OnFalse};
ghost use Rattle.dso_table.specs.States.{is_resident, later_than};
ghost use Rattle.dso_table.specs.Slots.{wrote, changed_last, has_value};

use dso_base::{Body, Set};
use dso_change::write_field;
use std::alloc::Global;

/// How an object stands with a client where it isn't absent: asked for, or resident with this content.
#[derive(Debug, Drop)]
pub enum ObjectStanding {
    Asked,
    Resident(Body),
}

/// An object that isn't absent: how it stands, and the number of the last own record that changed it.
#[derive(Debug, Drop)]
pub struct Slot {
    pub object: u64,
    pub standing: ObjectStanding,
    pub changed: Option<u64>,
}

/// The number of the last record that changed an object: this one, or the one before.
pub(crate) fn changed_last(changed: Option<u64>, before: Option<u64>) -> Option<u64>
    ensures { result ≡ changed_last changed before }
{
    match changed {
        Some(seq) => Some(seq),
        None => before,
    }
}

impl Slot {
    /// Whether there is a copy.
    pub(crate) fn is_resident(&self) -> bool
        ensures { result ≡ is_resident (Some self.now.standing) }
    {
        match self.standing {
            ObjectStanding::Asked => false,
            ObjectStanding::Resident(_) => true,
        }
    }

    /// The number of the last own record that changed the object, None where it was acknowledged.
    pub(crate) fn mark(&self, acked: u64) -> Option<u64>
        ensures { result ≡ later_than acked self.now.changed }
    {
        match self.changed {
            Some(seq) if acked < seq => Some(seq),
            _ => None,
        }
    }

    /// Writes a field of the copy in place. False, with nothing changed, exactly where there is no copy or it has no such
    /// field.
    pub(crate) fn write(&mut self, alloc: Global, set: Set, changed: Option<u64>) -> bool
        ensures found { result ≡ has_value set.field self.old.standing }
        ensures written { OnTrue result (self.new ≡ wrote set changed self.old) }
        ensures unchanged { OnFalse result (self.new ≡ self.old) }
    {
        let found = match &mut self.standing {
            ObjectStanding::Asked => false,
            ObjectStanding::Resident(body) => write_field(alloc, body, set.field, set.value),
        };
        if found {
            self.changed = changed_last(changed, self.changed);
        }
        found
    }
}
