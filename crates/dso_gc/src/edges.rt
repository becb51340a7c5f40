//! The edges of a graph in rows, by the object that they go from (`specs/Edges.antt`).
ghost use Rattle.std.specs.Prelude.{ℕ, ◌≡◌, ◌∷◌, ◌++◌, [], IfOk, List, OnOk, is_some};
ghost use Rattle.std.specs.BTreeMap.{keys};
ghost use Rattle.std.specs.Ordering.{nat_cmp};
ghost use Rattle.dso_lookup.proofs.Listed.{key_listed};
ghost use Rattle.dso_lookup.specs.Lists.{lists_of};
ghost use Rattle.dso_lookup.specs.Maps.{look};
ghost use Rattle.dso_lookup.specs.Search.{is_listed};
ghost use Rattle.dso_gc.specs.Edges.{HasEdges};

use dso_base::{Items, NoMemory};
use dso_lookup::{PrivateObjects, push_at, put};
use std::alloc::Global;
use std::collections::BTreeMap;

/// The edges of a graph: for each object a row of those to which its edges go, and all to which any edge goes.
#[derive(Drop)]
pub(crate) struct Edges {
    pub(crate) rows: BTreeMap<u64, Items<u64>>,
    pub(crate) targets: BTreeMap<u64, ()>,
}

impl Edges {
    /// No edges.
    pub(crate) fn new(alloc: Global) -> Edges
        ensures { HasEdges result [] }
    {
        Edges {
            rows: BTreeMap::new(alloc),
            targets: BTreeMap::new(alloc),
        }
    }

    /// One edge more.
    pub(crate) fn add(&mut self, alloc: Global, edge: (u64, u64)) -> Result<(), NoMemory>
        ensures { OnOk result ((edges : List (ℕ × ℕ)) → HasEdges self.old edges → HasEdges self.new (edges ++ edge ∷ [])) }
    {
        let (from, to) = edge;
        push_at(alloc, &mut self.rows, from, to)?;
        put(&mut self.targets, to, ())
    }
}

impl PrivateObjects for Edges {
    ghost mine = { λ edges o. is_some (look nat_cmp edges.targets o) };

    ghost names = { λ edges a b. is_listed b (lists_of nat_cmp edges.rows a) };

    ghost objects = { λ edges. keys edges.targets };

    fn is_private(&self, object: u64) -> bool {
        self.targets.contains_key(&object)
    }

    fn named(&self, alloc: Global, object: u64) -> Result<Vec<u64>, NoMemory> {
        match self.rows.get(&object) {
            Some(row) => copied(alloc, row.as_slice()),
            None => Ok(Vec::new(alloc)),
        }
    }

    ghost listed = { λ edges. key_listed edges.targets };
}

/// A copy of the objects.
fn copied(alloc: Global, objects: &[u64]) -> Result<Vec<u64>, NoMemory>
    ensures { IfOk result (λ copy. copy.items ≡ objects.now) }
{
    let mut copy = Vec::new(alloc);
    copy.extend_from_slice(objects)?;
    Ok(copy)
}
