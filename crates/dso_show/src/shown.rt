//! The lines of the graph that the records of a store leave (`specs/Shown.antt`).
ghost use Rattle.std.specs.Prelude.{◌≡◌, ◌≢◌, ◌∷◌, ◌++◌, [], Some, None, map, IfOk, OnOk};
ghost use Rattle.dso_class.specs.Sound.{IsSoundProgram};
ghost use Rattle.dso_store.specs.Graph.{body_in};
ghost use Rattle.dso_keep.specs.Reading.{IsWhole};
ghost use Rattle.dso_show.specs.Published.{AreAllThere, AreThere, objects_of, published};
ghost use Rattle.dso_show.specs.Shown.{IsStoreText};

use dso_base::{Body, NoMemory};
use dso_change::copy;
use dso_class::Program;
use dso_keep::Kept;
use dso_report::graph;
use dso_store::Store;
use std::alloc::Global;

/// The lines of the graph that the records of a store leave: the roots, and the objects that are found from them,
/// numbered breadth first, as the report of a run has them.
///
/// The condition is that the program is sound and the store is whole under its shape, as one that was reopened is:
/// then nothing is missing that the lines name. It takes time in the measure of the records and of the bodies that
/// they leave, with the logarithm of the graph for each body, and memory in the measure of the bodies. `NoMemory` is
/// answered where an allocation was refused, and then there is no text.
pub fn store_text(alloc: Global, program: &Program, kept: &Kept) -> Result<Vec<u8>, NoMemory>
    requires sound { IsSoundProgram program.now }
    requires whole { IsWhole program.now.code.shape kept.now }
    ensures { IfOk result (λ text. IsStoreText program.now kept.now.records.items text.items) }
{
    let bodies = bodies_of(alloc, kept)?;
    graph(alloc, program, bodies.as_slice())
}

/// The body of each object of the graph as it is now: of object 0, and of those that the records publish, as they came.
fn bodies_of(alloc: Global, kept: &Kept) -> Result<Vec<Body>, NoMemory>
    requires roots { body_in kept.now.store 0 ≢ None }
    requires there { AreAllThere (body_in kept.now.store) kept.now.records.items }
    ensures { IfOk result (λ bodies. map Some bodies.items ≡ map (body_in kept.now.store) (0 ∷ published kept.now.records.items)) }
{
    let mut bodies = Vec::new(alloc);
    add_body(&mut bodies, &kept.store, 0)?;
    for (_, txn) in &kept.records {
        add_bodies(&mut bodies, &kept.store, txn.news.as_slice())?;
    }
    Ok(bodies)
}

/// Adds the body that each of these objects has in the graph.
fn add_bodies(bodies: &mut Vec<Body>, store: &Store, news: &[Body]) -> Result<(), NoMemory>
    requires { AreThere (body_in store.now) news.now }
    ensures { OnOk result (map Some bodies.new.items ≡ map Some bodies.old.items ++ map (body_in store.now) (objects_of news.now)) }
{
    for body in news {
        add_body(bodies, store, body.object)?;
    }
    Ok(())
}

/// Adds the body that an object has in the graph.
fn add_body(bodies: &mut Vec<Body>, store: &Store, object: u64) -> Result<(), NoMemory>
    requires { body_in store.now object ≢ None }
    ensures { OnOk result (map Some bodies.new.items ≡ map Some bodies.old.items ++ body_in store.now object ∷ []) }
{
    let Some(body) = store.object(object) else {
        unreachable!()
    };
    bodies.push(copy(body)?)?;
    Ok(())
}
