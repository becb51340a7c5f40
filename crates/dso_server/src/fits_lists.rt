//! Whether the lists of a record fit, item by item (`dso_law/specs/FitsUp.antt`).
ghost use Rattle.std.specs.Prelude.{◌≡◌, ◌↔◌, IsTrue};
ghost use Rattle.std.specs.List.{AllByRecursion};
ghost use Rattle.dso_base.specs.Block.{is_field_before};
ghost use Rattle.dso_law.specs.FitsUp.{FitsNewsBy, FitsNote, FitsSetBy, Rises};
ghost use Rattle.dso_server.specs.Fitting.{Tells, TellsIn, graph_in};
ghost use Rattle.dso_server.specs.Records.{FitsOut, FitsValue, IsRising};

use crate::fits_parts::{fits_news, fits_note, fits_set, is_literal, is_named, is_printed};
use crate::server::Server;
use dso_base::{Body, Items, Note, Set, Shape, Value};

/// Whether the news rise by object.
pub(crate) fn are_rising(news: &[Body]) -> bool
    ensures { IsTrue result ↔ IsRising news.now }
{
    let mut rest = news;
    while let [first, behind @ ..] = rest {
        if let [next, ..] = behind {
            if first.object >= next.object {
                return false;
            }
        }
        rest = behind;
    }
    true
}

/// Whether the first set is of a lesser object, or of a lesser field of the same object.
fn is_before(first: Set, next: Set) -> bool
    ensures { result ≡ is_field_before first next }
{
    first.object < next.object || (first.object == next.object && first.field < next.field)
}

/// Whether the sets rise by object and field.
pub(crate) fn are_rising_sets(sets: &[Set]) -> bool
    ensures { IsTrue result ↔ Rises is_field_before sets.now }
{
    let mut rest = sets;
    while let [first, behind @ ..] = rest {
        if let [next, ..] = behind {
            if !is_before(*first, *next) {
                return false;
            }
        }
        rest = behind;
    }
    true
}

/// Whether each object published fits.
pub(crate) fn all_news_fit(server: &Server, shape: &Shape, client: u8, news: &[Body]) -> bool
    ensures { TellsIn shape.now server.now result (λ p es. AllByRecursion (FitsNewsBy (graph_in server.now) p client es) news.now) }
{
    for body in news {
        if !fits_news(server, shape, client, body) {
            return false;
        }
    }
    true
}

/// Whether each set fits.
pub(crate) fn all_sets_fit(server: &Server, shape: &Shape, client: u8, sets: &[Set]) -> bool
    ensures { TellsIn shape.now server.now result (λ p es. AllByRecursion (FitsSetBy (graph_in server.now) p client es) sets.now) }
{
    for set in sets {
        if !fits_set(server, shape, client, *set) {
            return false;
        }
    }
    true
}

/// Whether a value that would be put in the graph names what is there.
fn value_fits(server: &Server, shape: &Shape, news: &Items<Body>, value: Value) -> bool
    requires { IsRising news.now }
    ensures { IsTrue result ↔ FitsValue shape.now (graph_in server.now) news.now value }
{
    if !is_named(server, news, value) {
        return false;
    }
    is_literal(shape, value)
}

/// Whether each of these does.
fn values_fit(server: &Server, shape: &Shape, news: &Items<Body>, values: &[Value]) -> bool
    requires { IsRising news.now }
    ensures { IsTrue result ↔ AllByRecursion (FitsValue shape.now (graph_in server.now) news.now) values.now }
{
    for value in values {
        if !value_fits(server, shape, news, *value) {
            return false;
        }
    }
    true
}

/// Whether each value of the bodies does.
pub(crate) fn body_values_fit(
    server: &Server,
    shape: &Shape,
    news: &Items<Body>,
    bodies: &[Body],
) -> bool
    requires { IsRising news.now }
    ensures { IsTrue result ↔ AllByRecursion (λ body. AllByRecursion (FitsValue shape.now (graph_in server.now) news.now) body.values) bodies.now }
{
    for body in bodies {
        if !values_fit(server, shape, news, body.values.as_slice()) {
            return false;
        }
    }
    true
}

/// Whether each value of the sets does.
pub(crate) fn set_values_fit(
    server: &Server,
    shape: &Shape,
    news: &Items<Body>,
    sets: &[Set],
) -> bool
    requires { IsRising news.now }
    ensures { IsTrue result ↔ AllByRecursion (λ set. FitsValue shape.now (graph_in server.now) news.now set.value) sets.now }
{
    for set in sets {
        if !value_fits(server, shape, news, set.value) {
            return false;
        }
    }
    true
}

/// Whether a printed value names what was given out.
fn out_fits(server: &Server, shape: &Shape, value: Value) -> bool
    ensures { Tells server.now result (λ p es. FitsOut shape.now es value) }
{
    if !is_printed(server, value) {
        return false;
    }
    is_literal(shape, value)
}

/// Whether each of these does.
pub(crate) fn outs_fit(server: &Server, shape: &Shape, outs: &[Value]) -> bool
    ensures { Tells server.now result (λ p es. AllByRecursion (FitsOut shape.now es) outs.now) }
{
    for value in outs {
        if !out_fits(server, shape, *value) {
            return false;
        }
    }
    true
}

/// Whether each notification fits.
pub(crate) fn notes_fit(server: &Server, client: u8, notes: &[Note]) -> bool
    ensures { Tells server.now result (λ p es. AllByRecursion (FitsNote p client es) notes.now) }
{
    for note in notes {
        if !fits_note(server, client, *note) {
            return false;
        }
    }
    true
}
