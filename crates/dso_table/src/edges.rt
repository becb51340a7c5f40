//! The edges of a client's copies: from each of them to the objects that it names (`specs/Edges.antt`).
ghost use Rattle.std.specs.Prelude.{ℕ, ◌≡◌, OnOk, IfOk, Some};
ghost use Rattle.dso_base.specs.Block.{body_names};
ghost use Rattle.dso_lookup.specs.Search.{has_edge};
ghost use Rattle.dso_table.specs.Edges.{AddsEdges, copy_names, with_edges};
ghost use Rattle.dso_table.specs.ObjectTables.{at_place, slot_in};
ghost use Rattle.dso_table.specs.States.{copy_of};

use crate::places::Places;
use crate::slot::ObjectStanding;
use dso_base::{NoMemory, Value};
use std::alloc::Global;

/// Adds the edges from an object to those that its values name.
fn add_edges(object: u64, values: &[Value], edges: &mut Vec<(u64, u64)>) -> Result<(), NoMemory>
    ensures { OnOk result (edges.new.items ≡ with_edges object values.now edges.old.items) }
{
    for value in values {
        if let Value::Ref(named) = value {
            edges.push((object, *named))?;
        }
    }
    Ok(())
}

/// Adds the edges of an object's copy, where there is one.
fn add_copy(
    object: u64,
    standing: &ObjectStanding,
    edges: &mut Vec<(u64, u64)>,
) -> Result<(), NoMemory>
    ensures { OnOk result (AddsEdges object (λ b. body_names (copy_of standing.now) b) edges.old.items edges.new.items) }
{
    match standing {
        ObjectStanding::Asked => Ok(()),
        ObjectStanding::Resident(body) => add_edges(object, body.values.as_slice(), edges),
    }
}

/// Adds the edges of the copy that stands at a place, if one does.
fn add_edges_at(
    places: &Places,
    object: u64,
    place: usize,
    edges: &mut Vec<(u64, u64)>,
) -> Result<(), NoMemory>
    ensures { OnOk result (AddsEdges object (copy_names (at_place places.now (Some place))) edges.old.items edges.new.items) }
{
    match places.slots.get(place) {
        Some(slot) => add_copy(object, &slot.standing, edges),
        None => Ok(()),
    }
}

/// The edges of all copies, by rising id of the object that they go from.
///
/// It answers `NoMemory` where an allocation was refused.
pub(crate) fn edges(places: &Places, alloc: Global) -> Result<Vec<(u64, u64)>, NoMemory>
    ensures { IfOk result (λ edges. (a b : ℕ) → has_edge a b edges.items ≡ copy_names (slot_in places.now a) b) }
{
    let mut edges = Vec::new(alloc);
    for (object, place) in places.index.iter() {
        add_edges_at(places, *object, *place, &mut edges)?;
    }
    Ok(edges)
}
