//! A table of bodies, in which each is found by its object (`specs/BodyGraph.antt`).
ghost use Rattle.std.specs.Prelude.{◌≡◌, ◌≢◌, ◌<◌, ◌^◌, length, map, All, AllPairs, IfOk};
ghost use Rattle.std.specs.Option.{option_copied};
ghost use Rattle.dso_report.specs.BodyGraph.{body_in, state_of_bodies};

use crate::numbering::add_object;
use crate::seen::Seen;
use dso_base::{Body, Value};
use dso_plain::Object;
use indexmap::IndexSet;
use std::alloc::{AllocError, Global};

/// Bodies of different objects, and the objects by the places of their bodies.
#[derive(Drop)]
pub(crate) struct BodyTable<'a> {
    bodies: &'a [Body],
    objects: IndexSet<u64>,
    ghost placed: { objects.keys ≡ map (λ body. body.object) bodies.now },
    ghost counted: { All (λ body. length body.values < 2 ^ 32) bodies.now },
}

impl<'a> BodyTable<'a> {
    /// The table of these bodies.
    pub(crate) fn new(alloc: Global, bodies: &'a [Body]) -> Result<BodyTable<'a>, AllocError>
        requires differ { AllPairs (λ body other. body.object ≢ other.object) bodies.now }
        requires counted { All (λ body. length body.values < 2 ^ 32) bodies.now }
        ensures { IfOk result (λ table. table.bodies.now ≡ bodies.now) }
    {
        let objects = objects_of(alloc, bodies)?;
        Ok(BodyTable { bodies, objects })
    }

    /// The body of an object, if it is among them.
    fn body(&self, object: u64) -> Option<&Body>
        ensures { option_copied result ≡ body_in self.now.bodies.now object }
    {
        match self.objects.get_index_of(&object) {
            Some(place) => self.bodies.get(place),
            None => None,
        }
    }
}

/// The objects of bodies, in the order of the bodies.
fn objects_of(alloc: Global, bodies: &[Body]) -> Result<IndexSet<u64>, AllocError>
    requires { AllPairs (λ body other. body.object ≢ other.object) bodies.now }
    ensures { IfOk result (λ objects. objects.keys ≡ map (λ body. body.object) bodies.now) }
{
    let mut objects = IndexSet::new(alloc);
    for body in bodies {
        add_object(&mut objects, body.object)?;
    }
    Ok(objects)
}

impl<'a> Seen for BodyTable<'a> {
    ghost state = { λ table. state_of_bodies table.bodies.now };

    fn object(&self, object: u64) -> Option<Object> {
        let body = self.body(object)?;
        Some(Object {
            class: body.class,
            size: body.values.len() as u32,
            owner: None,
        })
    }

    fn value(&self, object: u64, field: u32) -> Option<Value> {
        let body = self.body(object)?;
        body.values.get(field as usize).copied()
    }
}
