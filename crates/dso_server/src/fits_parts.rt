//! Whether the parts of a record fit, one by one (`dso_law/specs/FitsUp.antt`).
ghost use Rattle.std.specs.Prelude.{◌≡◌, ◌≢◌, ◌↔◌, IsTrue, None, Some};
ghost use Rattle.std.specs.List.{AllByRecursion};
ghost use Rattle.dso_base.specs.declared.record.Ending.TheVariants as ending;
ghost use Rattle.dso_base.specs.Block.{is_field_before};
ghost use Rattle.dso_law.specs.Copies.{is_among};
ghost use Rattle.dso_law.specs.FitsUp.{FitsEnding, FitsNewsBy, FitsNote, FitsSetBy, IsLiteral, IsNamedBy, IsPrinted, Rises, stored_values};
ghost use Rattle.dso_law.specs.Granting.{leased_to};
ghost use Rattle.dso_law.specs.ServerReadings.{last_ending};
ghost use Rattle.dso_server.specs.Fitting.{Tells, TellsIn, graph_in};
ghost use Rattle.dso_server.specs.Records.{FitsField, IsLiteralOf, IsPlaceOf, IsRising};

use crate::reads::{
    holds, is_given, is_given_to, is_stored, is_thread_of, last_ending, lease, may_write, stored,
};
use crate::server::Server;
use dso_base::{
    Body, Choice, ClassId, Ending, Items, LockName, Note, Set, Shape, ThreadId, Value, fits,
};
use dso_law::{fits_shape, guard_at, kind_at};

/// Whether the published object fits: its id was given to the client and isn't in the graph, its class isn't that of the
/// roots, and its class and values fit the shape.
pub(crate) fn fits_news(server: &Server, shape: &Shape, client: u8, body: &Body) -> bool
    ensures { TellsIn shape.now server.now result (λ p es. FitsNewsBy (graph_in server.now) p client es body.now) }
{
    if !is_given_to(server, client, body.object) {
        return false;
    }
    if is_stored(server, body.object) {
        return false;
    }
    if let ClassId::Roots = body.class {
        return false;
    }
    fits_shape(shape, body)
}

/// Whether the body has the field and the value fits it.
fn fits_field(shape: &Shape, set: Set, body: &Body) -> bool
    ensures { IsTrue result ↔ FitsField shape.now set body.now }
{
    if set.field as usize >= body.values.len() {
        return false;
    }
    fits(kind_at(shape, body.class, set.field as usize), set.value)
}

/// Whether a set fits: the client holds the object, and may change the field of it that is stored.
pub(crate) fn fits_set(server: &Server, shape: &Shape, client: u8, set: Set) -> bool
    ensures { TellsIn shape.now server.now result (λ p es. FitsSetBy (graph_in server.now) p client es set) }
{
    if !holds(server, client, set.object) {
        return false;
    }
    let Some(body) = stored(server, set.object) else {
        return false;
    };
    if !fits_field(shape, set, body) {
        return false;
    }
    may_write(
        server,
        client,
        guard_at(shape, body.class, set.object, set.field),
    )
}

/// The first place of the news, which rise by object, whose object isn't under this one.
fn place_of(news: &[Body], object: u64) -> usize
    requires { IsRising news.now }
    ensures { IsPlaceOf object news.now result }
{
    news.partition_point(|body| body.object < object)
}

/// Whether the object is among the news, which rise by object.
fn is_among(news: &Items<Body>, object: u64) -> bool
    requires { IsRising news.now }
    ensures { result ≡ is_among object news.now }
{
    match news.get(place_of(news.as_slice(), object)) {
        Some(body) => body.object == object,
        None => false,
    }
}

/// Whether an object named is in the graph or among the news.
pub(crate) fn is_named(server: &Server, news: &Items<Body>, value: Value) -> bool
    requires { IsRising news.now }
    ensures { IsTrue result ↔ IsNamedBy (graph_in server.now) news.now value }
{
    match value {
        Value::Ref(object) => is_stored(server, object) || is_among(news, object),
        _ => true,
    }
}

/// Whether an object printed has an id that was given out.
pub(crate) fn is_printed(server: &Server, value: Value) -> bool
    ensures { Tells server.now result (λ p es. IsPrinted es value) }
{
    match value {
        Value::Ref(object) => is_given(server, object),
        _ => true,
    }
}

/// Whether a text named is a literal.
pub(crate) fn is_literal(shape: &Shape, value: Value) -> bool
    ensures { IsTrue result ↔ IsLiteralOf shape.now value }
{
    match value {
        Value::Text(text) => text < shape.texts,
        _ => true,
    }
}

/// Whether a notification fits: its lock is leased to the client at Write, and a thread that was woken here is one of
/// the client's.
pub(crate) fn fits_note(server: &Server, client: u8, note: Note) -> bool
    ensures { Tells server.now result (λ p es. FitsNote p client es note) }
{
    if !may_write(server, client, note.lock) {
        return false;
    }
    match note.choice {
        Choice::Here(thread) => is_thread_of(server, client, thread),
        Choice::There => true,
        Choice::All => true,
    }
}

/// Whether the ending fits: the lock of an exit is leased to the client, that of a wait at Write; and where it is a
/// timeout, the thread's last record ended by a wait on that lock.
pub(crate) fn fits_ending(server: &Server, client: u8, thread: ThreadId, ending: Ending) -> bool
    ensures { Tells server.now result (λ p es. FitsEnding client thread ending es) }
{
    match ending {
        Ending::Exit(lock) => is_leased(server, client, lock),
        Ending::Wait(lock) => may_write(server, client, lock),
        Ending::End(_) => true,
        Ending::Timeout(lock) => waited(server, thread, lock),
    }
}

/// Whether the client has a lease of the lock.
fn is_leased(server: &Server, client: u8, lock: LockName) -> bool
    ensures { Tells server.now result (λ p es. leased_to client lock es ≢ None) }
{
    match lease(server, client, lock) {
        Some(_) => true,
        None => false,
    }
}

/// Whether the thread's last record ended by a wait on the lock.
fn waited(server: &Server, thread: ThreadId, lock: LockName) -> bool
    ensures { Tells server.now result (λ p es. last_ending thread es ≡ Some (ending.Wait lock)) }
{
    is_wait_on(last_ending(server, thread), lock)
}

/// Whether it is a wait on the lock.
fn is_wait_on(last: Option<Ending>, lock: LockName) -> bool
    ensures { IsTrue result ↔ (last ≡ Some (ending.Wait lock)) }
{
    match last {
        Some(Ending::Wait(waited)) => waited == lock,
        _ => false,
    }
}
