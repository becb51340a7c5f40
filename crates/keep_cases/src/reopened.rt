//! To what bytes reopen.

use crate::stopped::disk;
use case_words::{debugged, with_values};
use dso_base::{ClassShape, Guard, Items, Kind, NoMemory, Shape};
use dso_keep::{KeepFault, Kept, reopen};
use std::alloc::Global;

/// The program's shape: a class of a long and an object, one root, two texts.
fn shape(alloc: Global) -> Result<Shape, NoMemory> {
    let long = case_words::field_shape(Kind::Long, Guard::Own);
    let object = case_words::field_shape(Kind::Ref, Guard::Own);
    let mut classes: Vec<ClassShape> = Vec::new(alloc);
    classes.push(case_words::class_shape(alloc, &[long, object])?)?;
    Ok(Shape {
        classes: Items::from_vec(classes),
        roots: 1,
        names: 1,
        texts: 2,
    })
}

/// What `reopen` answers on a disk with these bytes.
fn answer(alloc: Global, bytes: &[u8]) -> Result<Result<Kept, KeepFault>, NoMemory> {
    let mut disk = disk(alloc, bytes, None)?;
    match reopen(alloc, &shape(alloc)?, &mut disk) {
        Err(KeepFault::NoMemory(refused)) => Err(refused),
        answer => Ok(answer),
    }
}

/// How many records, or the fault.
pub fn brief(alloc: Global, bytes: &[u8]) -> Result<String, NoMemory> {
    match answer(alloc, bytes)? {
        Ok(kept) => {
            let text = format!(in alloc; "{} records", kept.records.len())?;
            Ok(text)
        }
        Err(fault) => debugged(alloc, fault),
    }
}

/// The client and the number of each record, and the values of the objects under 10, or the fault.
pub fn whole(alloc: Global, bytes: &[u8]) -> Result<String, NoMemory> {
    match answer(alloc, bytes)? {
        Ok(kept) => told(alloc, &kept),
        Err(fault) => debugged(alloc, fault),
    }
}

/// The records and the graph that they leave, as text.
fn told(alloc: Global, kept: &Kept) -> Result<String, NoMemory> {
    let mut text = format!(in alloc; "{} records", kept.records.len())?;
    for (client, txn) in &kept.records {
        text = format!(in alloc; "{text} {client}.{}", txn.seq)?;
    }
    for object in 0..10 {
        if let Some(body) = kept.store.object(object) {
            let named = format!(in alloc; "{text}, #{object}")?;
            text = with_values(alloc, named, body.values.as_slice())?;
        }
    }
    Ok(text)
}
