//! Whether a record fits the graph of those before it (`specs/Records.antt`).
ghost use Rattle.std.specs.Prelude.{◌≡◌, ◌≢◌, ◌↔◌, ◌<◌, suc, IsTrue, Some, None};
ghost use Rattle.std.specs.Option.{option_copied};
ghost use Rattle.std.specs.List.{AllByRecursion};
ghost use Rattle.dso_law.specs.Store.{body_by_news};
ghost use Rattle.dso_store.specs.Graph.{body_in};
ghost use Rattle.dso_keep.specs.Fitting.{HasField, IsPlaceOf, IsRising};
ghost use Rattle.dso_keep.specs.Reading.{graph_in};
ghost use Rattle.dso_keep.specs.Records.{FitsGraph, FitsObject, IsNewObject, IsThere};

use dso_base::{Body, ClassId, Set, Shape, Txn, Value, fits};
use dso_law::{fits_shape, kind_at};
use dso_store::Store;

/// Whether the number is the one behind the last.
fn is_next(number: u64, last: u64) -> bool
    ensures { IsTrue result ↔ (number ≡ suc last) }
{
    number > last && number - last == 1
}

/// Whether the news rise by object.
fn are_rising(news: &[Body]) -> bool
    ensures { IsTrue result ↔ IsRising news.now }
{
    let mut rest = news;
    while let [first, behind @ ..] = rest {
        if let [next, ..] = behind {
            if first.object >= next.object {
                return false;
            }
        }
        rest = behind;
    }
    true
}

/// The first place of the news, which rise by object, whose object isn't under this one.
fn place_of(news: &[Body], object: u64) -> usize
    requires { IsRising news.now }
    ensures { IsPlaceOf object news.now result }
{
    news.partition_point(|body| body.object < object)
}

/// The body of the object, in the news, which rise by object, or else in the graph.
fn body_of<'a>(store: &'a Store, news: &'a [Body], object: u64) -> Option<&'a Body>
    requires { IsRising news.now }
    ensures { option_copied result ≡ body_by_news object news.now (body_in store.now object) }
{
    match news.get(place_of(news, object)) {
        Some(body) if body.object == object => Some(body),
        _ => store.object(object),
    }
}

/// Whether the value, where it names an object or a text, names one that is there.
fn is_there(store: &Store, shape: &Shape, news: &[Body], value: Value) -> bool
    requires { IsRising news.now }
    ensures { IsTrue result ↔ IsThere shape.now (body_in store.now) news.now value }
{
    match value {
        Value::Ref(object) => body_of(store, news, object).is_some(),
        Value::Text(text) => text < shape.texts,
        _ => true,
    }
}

/// Whether each of the values does.
fn are_there(store: &Store, shape: &Shape, news: &[Body], values: &[Value]) -> bool
    requires { IsRising news.now }
    ensures { IsTrue result ↔ AllByRecursion (IsThere shape.now (body_in store.now) news.now) values.now }
{
    for value in values {
        if !is_there(store, shape, news, *value) {
            return false;
        }
    }
    true
}

/// Whether an object published fits, one of the news.
fn is_new(store: &Store, shape: &Shape, news: &[Body], body: &Body) -> bool
    requires { IsRising news.now }
    ensures { IsTrue result ↔ IsNewObject shape.now (body_in store.now) news.now body.now }
{
    if body.object == 0 || store.object(body.object).is_some() {
        return false;
    }
    if let ClassId::Roots = body.class {
        return false;
    }
    fits_shape(shape, body) && are_there(store, shape, news, body.values.as_slice())
}

/// Whether each of these objects published fits.
fn are_new(store: &Store, shape: &Shape, news: &[Body], bodies: &[Body]) -> bool
    requires { IsRising news.now }
    ensures { IsTrue result ↔ AllByRecursion (IsNewObject shape.now (body_in store.now) news.now) bodies.now }
{
    for body in bodies {
        if !is_new(store, shape, news, body) {
            return false;
        }
    }
    true
}

/// Whether the body has the field of the set, and the value fits it.
fn has_field(shape: &Shape, set: Set, body: &Body) -> bool
    ensures { IsTrue result ↔ HasField shape.now set body.now }
{
    if set.field as usize >= body.values.len() {
        return false;
    }
    fits(kind_at(shape, body.class, set.field as usize), set.value)
}

/// Whether a set fits.
fn fits_object(store: &Store, shape: &Shape, news: &[Body], set: Set) -> bool
    requires { IsRising news.now }
    ensures { IsTrue result ↔ FitsObject shape.now (body_in store.now) news.now set }
{
    let Some(body) = body_of(store, news, set.object) else {
        return false;
    };
    if !has_field(shape, set, body) {
        return false;
    }
    is_there(store, shape, news, set.value)
}

/// Whether each of the sets fits.
fn fit_objects(store: &Store, shape: &Shape, news: &[Body], sets: &[Set]) -> bool
    requires { IsRising news.now }
    ensures { IsTrue result ↔ AllByRecursion (FitsObject shape.now (body_in store.now) news.now) sets.now }
{
    for set in sets {
        if !fits_object(store, shape, news, *set) {
            return false;
        }
    }
    true
}

/// Whether a client's record fits the graph of the store. It takes no memory, and costs the logarithm of the graph and of
/// the news for each object that the record publishes, sets or names.
pub(crate) fn fits_graph(store: &Store, shape: &Shape, client: u8, txn: &Txn) -> bool
    ensures { IsTrue result ↔ FitsGraph shape.now (graph_in store.now) (client, txn.now) }
{
    if !is_next(txn.seq, store.last(client)) {
        return false;
    }
    let news = txn.news.as_slice();
    if !are_rising(news) {
        return false;
    }
    if !are_new(store, shape, news, news) {
        return false;
    }
    fit_objects(store, shape, news, txn.sets.as_slice())
}
