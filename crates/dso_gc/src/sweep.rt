//! What a collection sweeps (`specs/Garbage.antt`).
ghost use Rattle.std.specs.Prelude.{ℕ, ◌≡◌, ◌↔◌, ◌⊎◌, ◌++◌, OnOk, IfOk, IsTrue, map};
ghost use Rattle.std.specs.BTreeSet.{contains};
ghost use Rattle.std.specs.List.Sorted.{IsStrictlySortedBy};
ghost use Rattle.std.specs.Ordering.{nat_cmp};
ghost use Rattle.dso_base.specs.Reached.{Reaches};
ghost use Rattle.dso_lookup.specs.Search.{is_listed};
ghost use Rattle.dso_gc.specs.Edges.{HasEdges};
ghost use Rattle.dso_gc.specs.Garbage.{IsIn, IsEdgeIn, IsGarbageOf};

use crate::edges::Edges;
use dso_base::{NoMemory, Value};
use dso_lookup::reached_from;
use std::alloc::Global;
use std::collections::BTreeSet;

/// The objects of the graph that no path of edges reaches from a start: each once, by rising id. A graph, a start or an
/// edge may stand in its list more than once, and starts and edges may be of objects that aren't in the graph.
///
/// It takes the logarithm of what there is for each object, start and edge, and memory for each of them. It answers
/// `NoMemory` where an allocation was refused.
pub fn garbage(
    alloc: Global,
    graph: &[u64],
    starts: &[u64],
    edges: &[(u64, u64)],
) -> Result<Vec<u64>, NoMemory>
    ensures rising { IfOk result (λ garbage. IsStrictlySortedBy nat_cmp garbage.items) }
    ensures exact { IfOk result (λ garbage. (o : ℕ) → IsIn garbage.items o ↔ IsGarbageOf graph.now starts.now edges.now o) }
{
    let reached = reached(alloc, starts, edges)?;
    let mut unreached = BTreeSet::new(alloc);
    for object in graph {
        add_unreached(&reached, *object, &mut unreached)?;
    }
    listed(alloc, &unreached)
}

/// What paths reach from the starts.
fn reached(alloc: Global, starts: &[u64], edges: &[(u64, u64)]) -> Result<BTreeSet<u64>, NoMemory>
    ensures { IfOk result (λ reached. (o : ℕ) → IsTrue (contains nat_cmp reached o) ↔ Reaches (IsIn starts.now) (IsEdgeIn edges.now) o) }
{
    match starts {
        [] => Ok(BTreeSet::new(alloc)),
        [first, ..] => reached_by(alloc, *first, starts, edges),
    }
}

/// What paths reach from the starts, of which this is one: what the search finds from it alone, where edges go from it to
/// all of them.
fn reached_by(
    alloc: Global,
    first: u64,
    starts: &[u64],
    edges: &[(u64, u64)],
) -> Result<BTreeSet<u64>, NoMemory>
    requires { IsIn starts.now first }
    ensures { IfOk result (λ reached. (o : ℕ) → IsTrue (contains nat_cmp reached o) ↔ Reaches (IsIn starts.now) (IsEdgeIn edges.now) o) }
{
    let edges = with_spokes(alloc, first, starts, edges)?;
    reached_from(alloc, &edges, Value::Ref(first))
}

/// The edges, and one from the first start to each of the starts.
fn with_spokes(
    alloc: Global,
    first: u64,
    starts: &[u64],
    edges: &[(u64, u64)],
) -> Result<Edges, NoMemory>
    ensures { IfOk result (λ all. HasEdges all (edges.now ++ map (λ (s : ℕ). (first, s)) starts.now)) }
{
    let mut all = Edges::new(alloc);
    for edge in edges {
        all.add(alloc, *edge)?;
    }
    for start in starts {
        all.add(alloc, (first, *start))?;
    }
    Ok(all)
}

/// Adds the object, if it isn't reached.
fn add_unreached(
    reached: &BTreeSet<u64>,
    object: u64,
    unreached: &mut BTreeSet<u64>,
) -> Result<(), NoMemory>
    ensures { OnOk result ((o : ℕ) → IsTrue (contains nat_cmp unreached.new o) ↔ (IsTrue (contains nat_cmp unreached.old o) ⊎ ((o ≡ object) × ¬ IsTrue (contains nat_cmp reached.now o)))) }
{
    if !reached.contains(&object) {
        unreached.insert(object)?;
    }
    Ok(())
}

/// The objects of a set, by rising id.
fn listed(alloc: Global, set: &BTreeSet<u64>) -> Result<Vec<u64>, NoMemory>
    ensures rising { IfOk result (λ listed. IsStrictlySortedBy nat_cmp listed.items) }
    ensures all { IfOk result (λ listed. (o : ℕ) → is_listed o listed.items ≡ contains nat_cmp set.now o) }
{
    let mut listed = Vec::new(alloc);
    for object in set {
        listed.push(*object)?;
    }
    Ok(listed)
}
