//! What a collection reads of the bodies, and how it takes bodies out (`specs/Collecting.antt`).
ghost use Rattle.std.specs.Prelude.{ℕ, ◌≡◌, ◌++◌, ◌∷◌, [], is_some, OnOk, IfOk};
ghost use Rattle.std.specs.List.Sorted.{IsStrictlySortedBy};
ghost use Rattle.std.specs.Ordering.{nat_cmp};
ghost use Rattle.dso_base.specs.Block.{body_names};
ghost use Rattle.dso_lookup.specs.Maps.{look};
ghost use Rattle.dso_lookup.specs.Search.{has_edge, is_listed};
ghost use Rattle.dso_store.specs.Collecting.{count_there, edges_from, without};

use dso_base::{Body, NoMemory, Value};
use dso_lookup::take;
use std::alloc::Global;
use std::collections::BTreeMap;

/// Puts an edge from the object at the end, if the value names an object.
fn add_edge(from: u64, value: Value, edges: &mut Vec<(u64, u64)>) -> Result<(), NoMemory>
    ensures { OnOk result (edges.new.items ≡ edges.old.items ++ edges_from from (value ∷ [])) }
{
    if let Value::Ref(to) = value {
        edges.push((from, to))?;
    }
    Ok(())
}

/// Puts an edge from the object at the end for each of the values that names an object.
fn add_edges(from: u64, values: &[Value], edges: &mut Vec<(u64, u64)>) -> Result<(), NoMemory>
    ensures { OnOk result (edges.new.items ≡ edges.old.items ++ edges_from from values.now) }
{
    for value in values {
        add_edge(from, *value, edges)?;
    }
    Ok(())
}

/// An edge from each object to each one that its body names.
pub(crate) fn edges_in(
    alloc: Global,
    bodies: &BTreeMap<u64, Body>,
) -> Result<Vec<(u64, u64)>, NoMemory>
    ensures { IfOk result (λ edges. (a b : ℕ) → has_edge a b edges.items ≡ body_names (look nat_cmp bodies.now a) b) }
{
    let mut edges = Vec::new(alloc);
    for (object, body) in bodies {
        add_edges(*object, body.values.as_slice(), &mut edges)?;
    }
    Ok(edges)
}

/// The objects that have bodies, by rising id.
pub(crate) fn objects_in(alloc: Global, bodies: &BTreeMap<u64, Body>) -> Result<Vec<u64>, NoMemory>
    ensures rising { IfOk result (λ objects. IsStrictlySortedBy nat_cmp objects.items) }
    ensures there { IfOk result (λ objects. (o : ℕ) → is_listed o objects.items ≡ is_some (look nat_cmp bodies.now o)) }
{
    let mut objects = Vec::new(alloc);
    for (object, _) in bodies {
        objects.push(*object)?;
    }
    Ok(objects)
}

/// Takes the object's body out, and tells how many that is: 1 or 0. It takes no memory.
fn take_body(bodies: &mut BTreeMap<u64, Body>, object: u64) -> u64
    ensures bodies { look nat_cmp bodies.new ≡ without (object ∷ []) (look nat_cmp bodies.old) }
    ensures count { result ≡ count_there (look nat_cmp bodies.old) (object ∷ []) }
{
    match take(bodies, &object) {
        Some(_) => 1,
        None => 0,
    }
}

/// Takes the bodies of the objects out, and tells how many that are. It takes no memory.
pub(crate) fn take_bodies(bodies: &mut BTreeMap<u64, Body>, objects: &[u64]) -> u64
    ensures bodies { look nat_cmp bodies.new ≡ without objects.now (look nat_cmp bodies.old) }
    ensures count { result ≡ count_there (look nat_cmp bodies.old) objects.now }
{
    let mut count = 0;
    for object in objects {
        count += take_body(bodies, *object);
    }
    count
}
