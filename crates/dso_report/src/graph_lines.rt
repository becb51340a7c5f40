//! The report's lines of roots and objects (`specs/Report.antt`).
ghost use Rattle.std.specs.Prelude.{◌≡◌, Some, None, slice_get, OnOk, IsErrOf};
ghost use Rattle.std.specs.Fmt.{◌++?◌};
ghost use Rattle.std.specs.Option.{option_map};
ghost use Rattle.dso_report.specs.declared.unwritten.Unwritten.TheVariants as unwritten;
ghost use Rattle.dso_report.specs.Report.{graph_text, root_line, root_name, object_line, object_text, body_text, parts_text, field_text, element_text};
ghost use Rattle.dso_report.specs.Texts.{each_below};

use crate::map_lines::push_entries;
use crate::maps::{is_map_sized, map_entries};
use crate::numbering::fields_of;
use crate::seen::Seen;
use crate::unwritten::Unwritten;
use crate::value_texts::{push_kind, push_number, push_numbered, push_shown, word_at};
use dso_base::{ClassId, Kind, Word};
use dso_class::Names;
use dso_plain::Object;
use indexmap::IndexSet;
use std::alloc::Global;

/// What the lines of a graph are made from: the texts of names, what tells of the state, and the objects by their
/// numbers.
#[derive(Drop)]
struct Graph<'a, S> {
    alloc: Global,
    names: &'a Names,
    seen: &'a S,
    order: &'a IndexSet<u64>,
}

/// Puts the lines of the roots and of the objects at the end.
pub(crate) fn push_graph<S: Seen>(
    alloc: Global,
    text: &mut Vec<u8>,
    names: &Names,
    seen: &S,
    order: &IndexSet<u64>,
) -> Result<(), Unwritten>
    ensures written { OnOk result (Some text.old.items ++? graph_text names.now order.now.keys (S.state seen.now) ≡ Some text.new.items) }
    ensures missing { IsErrOf result unwritten.Missing → graph_text names.now order.now.keys (S.state seen.now) ≡ None }
{
    let graph = Graph {
        alloc,
        names,
        seen,
        order,
    };
    for root in 0..fields_of(seen, 0) {
        push_root(text, &graph, root)?;
    }
    for object in order.as_slice() {
        push_object(text, &graph, *object)?;
    }
    Ok(())
}

/// Puts the line of a root at the end.
fn push_root<S: Seen>(text: &mut Vec<u8>, graph: &Graph<'_, S>, root: u32) -> Result<(), Unwritten>
    ensures written { OnOk result (Some text.old.items ++? root_line graph.now.names.now graph.now.order.now.keys (S.state graph.now.seen.now) root ≡ Some text.new.items) }
    ensures missing { IsErrOf result unwritten.Missing → root_line graph.now.names.now graph.now.order.now.keys (S.state graph.now.seen.now) root ≡ None }
{
    text.extend_from_slice(b"root ")?;
    push_root_name(text, graph.names, root as usize)?;
    text.extend_from_slice(b" ")?;
    push_shown(
        text,
        graph.names.texts.as_slice(),
        graph.order,
        graph.seen.value(0, root),
    )?;
    text.extend_from_slice(b"\n")?;
    Ok(())
}

/// Puts the name of a root at the end.
fn push_root_name(text: &mut Vec<u8>, names: &Names, root: usize) -> Result<(), Unwritten>
    ensures written { OnOk result (Some text.old.items ++? option_map root_name (slice_get names.now.roots root) ≡ Some text.new.items) }
    ensures missing { IsErrOf result unwritten.Missing → option_map root_name (slice_get names.now.roots root) ≡ None }
{
    let root = names.roots.get(root).ok_or(Unwritten::Missing)?;
    text.extend_from_slice(root.class.as_slice())?;
    text.extend_from_slice(b".")?;
    text.extend_from_slice(root.field.as_slice())?;
    Ok(())
}

/// Puts the line of an object at the end.
fn push_object<S: Seen>(
    text: &mut Vec<u8>,
    graph: &Graph<'_, S>,
    object: u64,
) -> Result<(), Unwritten>
    ensures written { OnOk result (Some text.old.items ++? object_line graph.now.names.now graph.now.order.now.keys (S.state graph.now.seen.now) object ≡ Some text.new.items) }
    ensures missing { IsErrOf result unwritten.Missing → object_line graph.now.names.now graph.now.order.now.keys (S.state graph.now.seen.now) object ≡ None }
{
    push_numbered(text, graph.order, object)?;
    text.extend_from_slice(b" ")?;
    push_object_text(text, graph, object)?;
    text.extend_from_slice(b"\n")?;
    Ok(())
}

/// Puts the class and the fields or elements of an object at the end.
fn push_object_text<S: Seen>(
    text: &mut Vec<u8>,
    graph: &Graph<'_, S>,
    object: u64,
) -> Result<(), Unwritten>
    ensures written { OnOk result (Some text.old.items ++? object_text graph.now.names.now graph.now.order.now.keys (S.state graph.now.seen.now) object ((S.state graph.now.seen.now).objects object) ≡ Some text.new.items) }
    ensures missing { IsErrOf result unwritten.Missing → object_text graph.now.names.now graph.now.order.now.keys (S.state graph.now.seen.now) object ((S.state graph.now.seen.now).objects object) ≡ None }
{
    let body = graph.seen.object(object).ok_or(Unwritten::Missing)?;
    push_body(text, graph, object, body)
}

/// Puts the class and the fields or elements of an object at the end.
fn push_body<S: Seen>(
    text: &mut Vec<u8>,
    graph: &Graph<'_, S>,
    object: u64,
    body: Object,
) -> Result<(), Unwritten>
    ensures written { OnOk result (Some text.old.items ++? body_text graph.now.names.now graph.now.order.now.keys (S.state graph.now.seen.now) object body.size body.class ≡ Some text.new.items) }
    ensures missing { IsErrOf result unwritten.Missing → body_text graph.now.names.now graph.now.order.now.keys (S.state graph.now.seen.now) object body.size body.class ≡ None }
{
    match body.class {
        ClassId::Plain(class) => push_plain(text, graph, object, body.size, class),
        ClassId::Array(kind) => push_array(text, graph, object, body.size, kind),
        ClassId::Roots => Err(Unwritten::Missing),
    }
}

/// Puts the class of an object of a class of the program at the end, and what the object has.
fn push_plain<S: Seen>(
    text: &mut Vec<u8>,
    graph: &Graph<'_, S>,
    object: u64,
    size: u32,
    class: u32,
) -> Result<(), Unwritten>
    ensures written { OnOk result (Some text.old.items ++? body_text graph.now.names.now graph.now.order.now.keys (S.state graph.now.seen.now) object size (ClassId.Plain class) ≡ Some text.new.items) }
    ensures missing { IsErrOf result unwritten.Missing → body_text graph.now.names.now graph.now.order.now.keys (S.state graph.now.seen.now) object size (ClassId.Plain class) ≡ None }
{
    text.extend_from_slice(word_at(graph.names.classes.as_slice(), class as usize)?)?;
    push_parts(text, graph, object, size, class)
}

/// Puts what an object of a class of the program has at the end: a map its entries, and another its fields.
fn push_parts<S: Seen>(
    text: &mut Vec<u8>,
    graph: &Graph<'_, S>,
    object: u64,
    size: u32,
    class: u32,
) -> Result<(), Unwritten>
    ensures written { OnOk result (Some text.old.items ++? parts_text graph.now.names.now graph.now.order.now.keys (S.state graph.now.seen.now) object size class ≡ Some text.new.items) }
    ensures missing { IsErrOf result unwritten.Missing → parts_text graph.now.names.now graph.now.order.now.keys (S.state graph.now.seen.now) object size class ≡ None }
{
    if is_map_sized(ClassId::Plain(class), size) {
        let entries = map_entries(graph.alloc, graph.seen, object)?;
        return push_entries(text, graph.order, entries.as_slice());
    }
    let fields = graph
        .names
        .fields
        .get(class as usize)
        .ok_or(Unwritten::Missing)?;
    push_fields(text, graph, object, size, fields.as_slice())
}

/// Puts the fields of an object at the end.
fn push_fields<S: Seen>(
    text: &mut Vec<u8>,
    graph: &Graph<'_, S>,
    object: u64,
    size: u32,
    fields: &[Word],
) -> Result<(), Unwritten>
    ensures written { OnOk result (Some text.old.items ++? each_below (field_text graph.now.names.now graph.now.order.now.keys (S.state graph.now.seen.now) object fields.now) size ≡ Some text.new.items) }
    ensures missing { IsErrOf result unwritten.Missing → each_below (field_text graph.now.names.now graph.now.order.now.keys (S.state graph.now.seen.now) object fields.now) size ≡ None }
{
    for field in 0..size {
        push_field(text, graph, object, fields, field)?;
    }
    Ok(())
}

/// Puts the name and the value of a field at the end.
fn push_field<S: Seen>(
    text: &mut Vec<u8>,
    graph: &Graph<'_, S>,
    object: u64,
    fields: &[Word],
    field: u32,
) -> Result<(), Unwritten>
    ensures written { OnOk result (Some text.old.items ++? field_text graph.now.names.now graph.now.order.now.keys (S.state graph.now.seen.now) object fields.now field ≡ Some text.new.items) }
    ensures missing { IsErrOf result unwritten.Missing → field_text graph.now.names.now graph.now.order.now.keys (S.state graph.now.seen.now) object fields.now field ≡ None }
{
    text.extend_from_slice(b" ")?;
    text.extend_from_slice(word_at(fields, field as usize)?)?;
    text.extend_from_slice(b"=")?;
    push_shown(
        text,
        graph.names.texts.as_slice(),
        graph.order,
        graph.seen.value(object, field),
    )
}

/// Puts the kind, the size and the elements of an array at the end.
fn push_array<S: Seen>(
    text: &mut Vec<u8>,
    graph: &Graph<'_, S>,
    object: u64,
    size: u32,
    kind: Kind,
) -> Result<(), Unwritten>
    ensures written { OnOk result (Some text.old.items ++? body_text graph.now.names.now graph.now.order.now.keys (S.state graph.now.seen.now) object size (ClassId.Array kind) ≡ Some text.new.items) }
    ensures missing { IsErrOf result unwritten.Missing → body_text graph.now.names.now graph.now.order.now.keys (S.state graph.now.seen.now) object size (ClassId.Array kind) ≡ None }
{
    push_kind(text, kind)?;
    text.extend_from_slice(b"[")?;
    push_number(text, size as u64)?;
    text.extend_from_slice(b"]")?;
    push_elements(text, graph, object, size)
}

/// Puts the elements of an array at the end.
fn push_elements<S: Seen>(
    text: &mut Vec<u8>,
    graph: &Graph<'_, S>,
    object: u64,
    size: u32,
) -> Result<(), Unwritten>
    ensures written { OnOk result (Some text.old.items ++? each_below (element_text graph.now.names.now graph.now.order.now.keys (S.state graph.now.seen.now) object) size ≡ Some text.new.items) }
    ensures missing { IsErrOf result unwritten.Missing → each_below (element_text graph.now.names.now graph.now.order.now.keys (S.state graph.now.seen.now) object) size ≡ None }
{
    for at in 0..size {
        push_element(text, graph, object, at)?;
    }
    Ok(())
}

/// Puts an element of an array at the end.
fn push_element<S: Seen>(
    text: &mut Vec<u8>,
    graph: &Graph<'_, S>,
    object: u64,
    at: u32,
) -> Result<(), Unwritten>
    ensures written { OnOk result (Some text.old.items ++? element_text graph.now.names.now graph.now.order.now.keys (S.state graph.now.seen.now) object at ≡ Some text.new.items) }
    ensures missing { IsErrOf result unwritten.Missing → element_text graph.now.names.now graph.now.order.now.keys (S.state graph.now.seen.now) object at ≡ None }
{
    text.extend_from_slice(b" ")?;
    push_shown(
        text,
        graph.names.texts.as_slice(),
        graph.order,
        graph.seen.value(object, at),
    )
}
