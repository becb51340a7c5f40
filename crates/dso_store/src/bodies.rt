//! The bodies of objects, in a table by id (`specs/Graph.antt`).
ghost use Rattle.std.specs.Prelude.{◌≡◌, None, Some, cond, eqb, replicate, OnOk, IfOk};
ghost use Rattle.dso_base.specs.declared.value.Value.TheVariants as Value;
ghost use Rattle.std.specs.Ordering.{nat_cmp};
ghost use Rattle.dso_law.specs.Store.{opening_roots};
ghost use Rattle.dso_store.specs.Graph.{with_news, with_sets};
ghost use Rattle.dso_lookup.specs.Maps.{look};

use dso_base::{Body, ClassId, Items, NoMemory, Set, Shape, Value};
use dso_change::{copy, set_in};
use dso_lookup::put;
use std::alloc::Global;
use std::collections::BTreeMap;

/// So many nulls.
fn nulls(alloc: Global, count: u32) -> Result<Vec<Value>, NoMemory>
    ensures { IfOk result (λ values. values.items ≡ replicate count Value.Null) }
{
    let mut values = Vec::new(alloc);
    for _ in 0..count {
        values.push(Value::Null)?;
    }
    Ok(values)
}

/// Object 0 alone, of class Roots, with each root null.
pub(crate) fn opening_bodies(alloc: Global, shape: &Shape) -> Result<BTreeMap<u64, Body>, NoMemory>
    ensures { IfOk result (λ bodies. look nat_cmp bodies ≡ (λ o. cond (eqb o 0) (Some (opening_roots shape.now)) None)) }
{
    let values = nulls(alloc, shape.roots)?;
    let roots = Body {
        object: 0,
        class: ClassId::Roots,
        values: Items::from_vec(values),
    };
    let mut bodies = BTreeMap::new(alloc);
    put(&mut bodies, 0, roots)?;
    Ok(bodies)
}

/// Puts the bodies into the table, each in the place of one of its object.
pub(crate) fn add_news(bodies: &mut BTreeMap<u64, Body>, news: &[Body]) -> Result<(), NoMemory>
    ensures { OnOk result (look nat_cmp bodies.new ≡ with_news news.now (look nat_cmp bodies.old)) }
{
    for body in news {
        let body = copy(body)?;
        put(bodies, body.object, body)?;
    }
    Ok(())
}

/// Writes the values of the sets, one after the other. It takes no memory.
pub(crate) fn set_all(alloc: Global, bodies: &mut BTreeMap<u64, Body>, sets: &[Set])
    ensures { look nat_cmp bodies.new ≡ with_sets sets.now (look nat_cmp bodies.old) }
{
    for set in sets {
        set_in(alloc, bodies, *set);
    }
}
