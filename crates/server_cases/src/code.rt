//! The code of the cluster: clients 1 to 4 of two threads each, which do nothing.

use case_words::{class_shape, field_shape, single};
use dso_base::{Guard, Items, Kind, NoMemory, Shape, ThreadId};
use dso_machine::{Branch, Code, ThreadBody};
use std::alloc::Global;

/// Class 0 with a long guarded by the object's monitor and an object guarded by the named lock 1; one root, two named
/// locks, one text.
fn shape(alloc: Global) -> Result<Shape, NoMemory> {
    let fields = [
        field_shape(Kind::Long, Guard::Own),
        field_shape(Kind::Ref, Guard::Name(1)),
    ];
    let class = class_shape(alloc, &fields)?;
    Ok(Shape {
        classes: single(alloc, class)?,
        roots: 1,
        names: 2,
        texts: 1,
    })
}

/// A thread that does nothing.
fn body(alloc: Global, thread: ThreadId) -> Result<ThreadBody, NoMemory> {
    Ok(ThreadBody {
        thread,
        vars: 0,
        body: Branch::new(alloc, Items::new(alloc))?,
    })
}

/// The bodies of the threads.
fn bodies(alloc: Global) -> Result<Items<ThreadBody>, NoMemory> {
    let mut bodies = Items::new(alloc);
    for client in 1..5 {
        bodies.push(body(alloc, ThreadId { client, index: 1 })?)?;
        bodies.push(body(alloc, ThreadId { client, index: 2 })?)?;
    }
    Ok(bodies)
}

/// The code.
pub fn code(alloc: Global) -> Result<Code, NoMemory> {
    Ok(Code {
        shape: shape(alloc)?,
        methods: Items::new(alloc),
        bodies: bodies(alloc)?,
    })
}
