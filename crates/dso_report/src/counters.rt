//! What the counters of the graph come to (`specs/CounterTotal.antt`).
ghost use Rattle.std.specs.Prelude.{◌≡◌, IfOk, bytes_eq, codes};
ghost use Rattle.std.specs.List.{position};
ghost use Rattle.dso_plain.specs.HeapTables.{state_of};
ghost use Rattle.dso_report.specs.CounterTotal.{IsCounterTotal, count_in, count_of, count_place, is_counter, number_at, sum_of};

use crate::held::number_in;
use crate::numbering::{fields_of, order_of};
use dso_base::{ClassId, NoMemory, Word};
use dso_class::{Names, Program};
use dso_plain::Plain;
use std::alloc::Global;

/// The sum of the field `n` over all objects of the class `Counter` that are found from the roots, each of them once.
///
/// A field that holds no number adds nothing. The sum is exact: it doesn't wrap. It takes time and memory in the measure of the graph.
/// `NoMemory` is answered where an allocation was refused.
pub fn counter_total(alloc: Global, program: &Program, plain: &Plain) -> Result<i128, NoMemory>
    ensures { IfOk result (IsCounterTotal program.now.names (state_of plain.now)) }
{
    let order = order_of(alloc, plain)?;
    Ok(sum_of(&program.names, plain, order.as_slice()))
}

/// The sum of what some objects count.
fn sum_of(names: &Names, plain: &Plain, objects: &[u64]) -> i128
    ensures { result ≡ sum_of names.now (state_of plain.now) objects.now }
{
    let mut sum = 0;
    for object in objects {
        sum += count_of(names, plain, *object) as i128;
    }
    sum
}

/// What an object counts.
fn count_of(names: &Names, plain: &Plain, object: u64) -> i64
    ensures { result ≡ count_of names.now (state_of plain.now) object ((state_of plain.now).objects object) }
{
    match plain.object(object) {
        Some(body) => count_in(names, plain, object, body.class),
        None => 0,
    }
}

/// What an object of a class counts.
fn count_in(names: &Names, plain: &Plain, object: u64, class: ClassId) -> i64
    ensures { result ≡ count_in names.now (state_of plain.now) object class }
{
    match class {
        ClassId::Plain(class) if is_counter(names, class) => {
            number_at(plain, object, count_place(names, class))
        }
        _ => 0,
    }
}

/// Whether a class is that of the counters, by its name.
fn is_counter(names: &Names, class: u32) -> bool
    ensures { result ≡ is_counter names.now class }
{
    match names.classes.get(class as usize) {
        Some(name) => name.as_slice() == b"Counter".as_slice(),
        None => false,
    }
}

/// The place of the count among the fields of a class, by its name, if it has one.
fn count_place(names: &Names, class: u32) -> Option<usize>
    ensures { result ≡ count_place names.now class }
{
    match names.fields.get(class as usize) {
        Some(fields) => place_of_count(fields.as_slice()),
        None => None,
    }
}

/// The place of the count among the names of fields, if it is one of them.
fn place_of_count(fields: &[Word]) -> Option<usize>
    ensures { result ≡ position (λ name. bytes_eq name (codes "n")) fields.now }
{
    fields.iter().position(|name| is_count(name))
}

/// Whether the name of a field is that of the count.
fn is_count(name: &Word) -> bool
    ensures { result ≡ bytes_eq name.now (codes "n") }
{
    name.as_slice() == b"n".as_slice()
}

/// The number in the field of this place of an object; 0 where it has no such field.
fn number_at(plain: &Plain, object: u64, place: Option<usize>) -> i64
    ensures { result ≡ number_at (state_of plain.now) object place }
{
    match place {
        Some(place) if place < fields_of(plain, object) as usize => {
            number_in(plain.value(object, place as u32))
        }
        _ => 0,
    }
}
