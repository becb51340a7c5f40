//! The objects that aren't absent, each at its place (`specs/Slots.antt`).
ghost use Rattle.std.specs.Prelude.{◌≡◌, None, Some, is_some, true, OnOk, OnErr};
ghost use Rattle.std.specs.Bool.{OnTrue, OnFalse};
ghost use Rattle.std.specs.Option.{option_copied, option_map};
ghost use Rattle.dso_table.specs.States.{is_resident, with_at};
ghost use Rattle.dso_table.specs.Slots.{wrote, has_slot_value, changed_before};
ghost use Rattle.dso_table.specs.ObjectTables.{slot_in, standing_of, PlacesAgree};

use crate::slot::Slot;
use dso_base::{NoMemory, Set};
use slab::Slab;
use std::alloc::Global;
use std::collections::BTreeMap;

/// The objects stand in a slab; `index` tells each one's place there.
#[derive(Drop)]
pub struct Places {
    pub slots: Slab<Slot>,
    pub index: BTreeMap<u64, usize>,
}

/// What is kept of the object, None where it is absent.
pub(crate) fn slot(places: &Places, object: u64) -> Option<&Slot>
    ensures { option_copied result ≡ slot_in places.now object }
{
    let place = places.index.get(&object)?;
    places.slots.get(*place)
}

/// Whether the object isn't absent.
pub(crate) fn is_known(places: &Places, object: u64) -> bool
    ensures { result ≡ is_some (slot_in places.now object) }
{
    slot(places, object).is_some()
}

/// Whether there is a copy of the object.
pub(crate) fn is_resident(places: &Places, object: u64) -> bool
    ensures { result ≡ is_resident (standing_of (slot_in places.now object)) }
{
    match slot(places, object) {
        Some(held) => held.is_resident(),
        None => false,
    }
}

/// The number of the last own record that changed the object, None where none did.
pub(crate) fn changed_before(places: &Places, object: u64) -> Option<u64>
    ensures { result ≡ changed_before (slot_in places.now object) }
{
    match slot(places, object) {
        Some(held) => held.changed,
        None => None,
    }
}

/// Adds an object that is absent. It answers `NoMemory` where an allocation was refused, and the objects are then as
/// before.
pub(crate) fn add(places: &mut Places, slot: Slot) -> Result<(), NoMemory>
    requires agree { PlacesAgree places.old }
    requires absent { slot_in places.old slot.object ≡ None }
    ensures ok { OnOk result (slot_in places.new ≡ with_at slot.object (Some slot) (slot_in places.old)) }
    ensures err { OnErr result (slot_in places.new ≡ slot_in places.old) }
    ensures agree { PlacesAgree places.new }
{
    places.slots.reserve(1)?;
    let place = places.slots.vacant_key();
    places.index.insert(slot.object, place)?;
    places.slots.insert_reserved(slot);
    Ok(())
}

/// Takes an object out. It takes no memory.
pub(crate) fn take_out(places: &mut Places, object: u64)
    requires agree { PlacesAgree places.old }
    ensures gone { slot_in places.new ≡ with_at object None (slot_in places.old) }
    ensures agree { PlacesAgree places.new }
{
    if let Some(place) = places.index.remove(&object) {
        places.slots.try_remove(place);
    }
}

/// Puts something else in an object's place. It takes no memory.
pub(crate) fn replace(places: &mut Places, slot: Slot)
    requires agree { PlacesAgree places.old }
    requires there { is_some (slot_in places.old slot.object) ≡ true }
    ensures changed { slot_in places.new ≡ with_at slot.object (Some slot) (slot_in places.old) }
    ensures agree { PlacesAgree places.new }
{
    if let Some(place) = places.index.get(&slot.object).copied() {
        if let Some(held) = places.slots.get_mut(place) {
            *held = slot;
        }
    }
}

/// Puts what is kept of an object, absent or not. It answers `NoMemory` where an allocation was refused, and the objects
/// are then as before.
pub(crate) fn put(places: &mut Places, slot: Slot) -> Result<(), NoMemory>
    requires agree { PlacesAgree places.old }
    ensures ok { OnOk result (slot_in places.new ≡ with_at slot.object (Some slot) (slot_in places.old)) }
    ensures err { OnErr result (slot_in places.new ≡ slot_in places.old) }
    ensures agree { PlacesAgree places.new }
{
    if is_known(places, slot.object) {
        replace(places, slot);
        return Ok(());
    }
    add(places, slot)
}

/// Writes a field of an object's copy in place. False, with nothing changed, exactly where there is no copy or it has no
/// such field. It takes no memory.
pub(crate) fn write(alloc: Global, places: &mut Places, set: Set, changed: Option<u64>) -> bool
    requires agree { PlacesAgree places.old }
    ensures found { result ≡ has_slot_value set.field (slot_in places.old set.object) }
    ensures written { OnTrue result (slot_in places.new ≡ with_at set.object (option_map (wrote set changed) (slot_in places.old set.object)) (slot_in places.old)) }
    ensures unchanged { OnFalse result (slot_in places.new ≡ slot_in places.old) }
    ensures agree { PlacesAgree places.new }
{
    match places.index.get(&set.object).copied() {
        Some(place) => match places.slots.get_mut(place) {
            Some(held) => held.write(alloc, set, changed),
            None => false,
        },
        None => false,
    }
}
