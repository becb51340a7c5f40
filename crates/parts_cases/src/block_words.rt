//! The words of commands on blocks.

use case_words::{
    class, class_shape, count, ending, field_shape, first_of, note, number, single, value_list,
};
use dso_base::{
    Body, Choice, ClassId, Ending, Guard, Kind, NoMemory, Note, Request, Shape, ThreadId,
};
use std::alloc::Global;

/// One class, of a number and a reference that its own monitor guards, and one root.
pub fn shape(alloc: Global) -> Result<Shape, NoMemory> {
    let fields = [
        field_shape(Kind::Long, Guard::Own),
        field_shape(Kind::Ref, Guard::Own),
    ];
    let class = class_shape(alloc, &fields)?;
    Ok(Shape {
        classes: single(alloc, class)?,
        roots: 1,
        names: 1,
        texts: 0,
    })
}

/// An object with its contents, as `5 c0 l7 null`.
pub fn body_of(alloc: Global, text: &str) -> Result<Option<Body>, NoMemory> {
    let (first, rest) = first_of(text);
    let (second, rest) = first_of(rest);
    let values = value_list(alloc, rest, ' ')?;
    match (number(first), class(second)) {
        (Some(object), Some(class)) => Ok(Some(Body {
            object,
            class,
            values,
        })),
        _ => Ok(None),
    }
}

/// An object that is made, as `5 c0 2`: its id, its class and its size.
pub fn made_by(text: &str) -> Option<(u64, ClassId, u32)> {
    let (object, rest) = first_of(text);
    let (kind, size) = first_of(rest);
    Some((number(object)?, class(kind)?, count(size)?))
}

/// A notification of one that the server chooses, of all, or of a thread that the client chose: `m1 there`, `m1 all`,
/// `m1 1.2`.
pub fn note_of(text: &str) -> Option<Note> {
    let (first, second) = first_of(text);
    note(first, second)
}

/// The request that is noted so, and whom it woke.
pub fn note_request(note: Note) -> (Request, Option<ThreadId>) {
    match note.choice {
        Choice::Here(thread) => (Request::Notify(note.lock), Some(thread)),
        Choice::There => (Request::Notify(note.lock), None),
        Choice::All => (Request::NotifyAll(note.lock), None),
    }
}

/// The number of a record and its ending, as `3 exit m1`, `3 wait m1`, `3 timeout m1` or `3 end`.
pub fn numbered_ending(text: &str) -> Option<(u64, Ending)> {
    let (first, rest) = first_of(text);
    let (word, name) = first_of(rest);
    Some((number(first)?, ending(word, name)?))
}
