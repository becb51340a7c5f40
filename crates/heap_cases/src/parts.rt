//! What the base types tell: kinds and guards of fields, lists and boxes, values that several hold, and spans.

use case_words::{class, count, debugged, first_of, kind, number, number_list, shown, value};
use dso_base::{Boxed, NoMemory, Part, Same, Shape, Shared, Span, fits};
use std::alloc::Global;

/// The answer to a question about the base types.
pub fn told(alloc: Global, shape: &Shape, text: &str) -> Result<String, NoMemory> {
    let (word, rest) = first_of(text);
    match word {
        "guard" => of_guard(alloc, shape, rest),
        "kind" => of_kind(alloc, shape, rest),
        "fits" => whether_fits(alloc, rest),
        "list" => of_list(alloc, rest),
        "box" => of_box(alloc, rest),
        "opens" => of_opening(alloc, rest),
        "shared" => of_shared(alloc, rest),
        "span" => of_span(alloc, rest),
        _ => shown(alloc, "no such question"),
    }
}

/// The guard of a field: `guard c0 7 1` of object 7.
fn of_guard(alloc: Global, shape: &Shape, rest: &str) -> Result<String, NoMemory> {
    let (first, numbers) = first_of(rest);
    let (second, third) = first_of(numbers);
    let (Some(class), Some(object), Some(field)) = (class(first), number(second), count(third))
    else {
        return shown(alloc, "no such guard");
    };
    debugged(alloc, shape.guard(class, object, field))
}

/// The kind of a field: `kind c0 1`.
fn of_kind(alloc: Global, shape: &Shape, rest: &str) -> Result<String, NoMemory> {
    let (first, second) = first_of(rest);
    let (Some(class), Some(field)) = (class(first), count(second)) else {
        return shown(alloc, "no such kind");
    };
    debugged(alloc, shape.kind(class, field))
}

/// Whether a field of the kind takes the value.
fn whether_fits(alloc: Global, rest: &str) -> Result<String, NoMemory> {
    let (first, second) = first_of(rest);
    match (kind(first), value(second)) {
        (Some(kind), Some(value)) => shown(alloc, fits(kind, value)),
        _ => shown(alloc, "no such value"),
    }
}

/// What a list tells: `list 2 of 1 2 3` the item at place 2, `list pop of 1 2 3` the last one and those left.
fn of_list(alloc: Global, rest: &str) -> Result<String, NoMemory> {
    let Some((what, listed)) = rest.split_once(" of ") else {
        return shown(alloc, "no such list");
    };
    let mut items = number_list(alloc, listed)?;
    match number(what) {
        Some(at) => debugged(alloc, items.get(at as usize)),
        None => {
            let last = items.pop();
            let empty = items.is_empty();
            debugged(alloc, (last, empty, items.into_vec()))
        }
    }
}

/// What a box gives back, borrowed and whole.
fn of_box(alloc: Global, rest: &str) -> Result<String, NoMemory> {
    let Some(number) = number(rest) else {
        return shown(alloc, "no such box");
    };
    let boxed = Boxed::new(alloc, number)?;
    let lent = *boxed.get();
    debugged(alloc, (lent, boxed.into_inner()))
}

/// What a field of the kind begins as.
fn of_opening(alloc: Global, rest: &str) -> Result<String, NoMemory> {
    match kind(rest) {
        Some(kind) => debugged(alloc, kind.opening_value()),
        None => shown(alloc, "no such kind"),
    }
}

/// What the second holder of a value has when the first one is gone, and whether it is the other value: `shared l9 l8`.
fn of_shared(alloc: Global, rest: &str) -> Result<String, NoMemory> {
    let (first, second) = first_of(rest);
    let (Some(held), Some(other)) = (value(first), value(second)) else {
        return shown(alloc, "no such value");
    };
    let first = Shared::new(alloc, held)?;
    let second = first.clone()?;
    drop(first);
    let other = Shared::new(alloc, other)?;
    debugged(alloc, (*second.get(), second.same(&other)))
}

/// The first part of a span, the parts behind it, and how many parts stood there: `span 1 2 3`.
fn of_span(alloc: Global, rest: &str) -> Result<String, NoMemory> {
    let numbers = number_list(alloc, rest)?;
    let part = Part::new(&numbers);
    let whole = Span::new(part.again().get().as_slice());
    let mut left = whole.again();
    match left.pop() {
        Some(first) => debugged(
            alloc,
            (*first.get(), left.as_slice(), whole.as_slice().len()),
        ),
        None => shown(alloc, "empty"),
    }
}
