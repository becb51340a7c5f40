//! The classes and the roots that the rows speak of.

use case_words::{class_shape, field_shape};
use dso_base::{ClassShape, Guard, Items, Kind, NoMemory, Shape};
use std::alloc::Global;

/// A class of these kinds, whose first field its own monitor guards, and its second lock 2.
fn class(alloc: Global, first: Kind, second: Kind) -> Result<ClassShape, NoMemory> {
    let fields = [
        field_shape(first, Guard::Own),
        field_shape(second, Guard::Name(2)),
    ];
    class_shape(alloc, &fields)
}

/// Two classes, of a reference with a number and of a number with a text, and two roots.
pub fn shape(alloc: Global) -> Result<Shape, NoMemory> {
    let mut classes = Items::new(alloc);
    classes.push(class(alloc, Kind::Ref, Kind::Long)?)?;
    classes.push(class(alloc, Kind::Long, Kind::Text)?)?;
    Ok(Shape {
        classes,
        roots: 2,
        names: 3,
        texts: 0,
    })
}
