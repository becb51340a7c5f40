//! A client's copy of a field, read off a journal (`specs/Copies.antt`).
ghost use Rattle.std.specs.Prelude.{◌≡◌};
ghost use Rattle.dso_base.specs.declared.journal.Node.TheVariants.{Client};
ghost use Rattle.dso_law.specs.Entries.{newest_first, entries_of, by_taken_down, one_sent_up};
ghost use Rattle.dso_law.specs.Copies.{copy_of, is_among, is_resident, resident_by_taken, resident_by_sent, resident_after, unless_flushed, value_held, value_by_body, value_by_bodies, value_by_set, value_by_sets, value_by_taken, value_by_sent, value_after};

use crate::entries::Entries;
use crate::readings::is_client;
use dso_base::{Body, Down, Entry, Input, Journal, Sent, Set, Up, Value};

/// The client's copy of an object's field after a journal, None exactly where it has none. It takes no memory.
pub fn copy_of(journal: &Journal, client: u8, object: u64, field: u32) -> Option<Value>
    ensures { result ≡ copy_of object field (entries_of (Client client) (newest_first journal.now)) }
{
    let entries = Entries::new(journal.entries.as_slice());
    if is_resident(&entries, client, object) {
        value_held(&entries, client, object, field)
    } else {
        None
    }
}

/// Whether the object is resident with the client after these entries.
fn is_resident(entries: &Entries<'_>, client: u8, object: u64) -> bool
    ensures { result ≡ is_resident object (entries_of (Client client) entries.now) }
{
    let mut resident = false;
    for entry in entries.oldest_first() {
        if is_client(entry.node, client) {
            resident = resident_after(entry, object, resident);
        }
    }
    resident
}

/// The value that the client holds for an object's field after these entries, None exactly where it holds none. It
/// counts whether the object is resident or not.
fn value_held(entries: &Entries<'_>, client: u8, object: u64, field: u32) -> Option<Value>
    ensures { result ≡ value_held object field (entries_of (Client client) entries.now) }
{
    let mut value = None;
    for entry in entries.oldest_first() {
        if is_client(entry.node, client) {
            value = value_after(entry, object, field, value);
        }
    }
    value
}

/// Whether the object is one of the bodies.
fn is_among(bodies: &[Body], object: u64) -> bool
    ensures { result ≡ is_among object bodies.now }
{
    bodies.iter().any(|body| body.object == object)
}

/// Whether the object is resident after one more entry of the client.
fn resident_after(entry: &Entry, object: u64, before: bool) -> bool
    ensures { result ≡ resident_after object entry.now before }
{
    let mut is_resident = resident_by_taken(&entry.input, object, before);
    for sent in entry.sent.as_slice() {
        is_resident = resident_by_sent(sent, object, is_resident);
    }
    unless_flushed(&entry.input, object, is_resident)
}

/// What the message that an entry takes makes of the residency.
fn resident_by_taken(input: &Input, object: u64, before: bool) -> bool
    ensures { result ≡ by_taken_down (resident_by_taken object) input.now before }
{
    match input {
        Input::TookDown(Down::Object(body)) => body.get().object == object || before,
        _ => before,
    }
}

/// What a message sent makes of the residency.
fn resident_by_sent(sent: &Sent, object: u64, before: bool) -> bool
    ensures { result ≡ one_sent_up (resident_by_sent object) before sent.now }
{
    match sent {
        Sent::ToServer(Up::Commit(txn)) => is_among(txn.get().news.as_slice(), object) || before,
        _ => before,
    }
}

/// A flush of the object ends its residency.
fn unless_flushed(input: &Input, object: u64, before: bool) -> bool
    ensures { result ≡ unless_flushed object input.now before }
{
    match input {
        Input::Flush(flushed) => before && *flushed != object,
        _ => before,
    }
}

/// The value held for a field after one more entry of the client.
fn value_after(entry: &Entry, object: u64, field: u32, before: Option<Value>) -> Option<Value>
    ensures { result ≡ value_after object field entry.now before }
{
    let mut value = value_by_taken(&entry.input, object, field, before);
    for sent in entry.sent.as_slice() {
        value = value_by_sent(sent, object, field, value);
    }
    value
}

/// What the message that an entry takes makes of the value.
fn value_by_taken(input: &Input, object: u64, field: u32, before: Option<Value>) -> Option<Value>
    ensures { result ≡ by_taken_down (value_by_taken object field) input.now before }
{
    match input {
        Input::TookDown(Down::Object(body)) => value_by_body(body.get(), object, field, before),
        Input::TookDown(Down::Changes(sets)) => {
            value_by_sets(sets.as_slice(), object, field, before)
        }
        _ => before,
    }
}

/// What a message sent makes of the value.
fn value_by_sent(sent: &Sent, object: u64, field: u32, before: Option<Value>) -> Option<Value>
    ensures { result ≡ one_sent_up (value_by_sent object field) before sent.now }
{
    match sent {
        Sent::ToServer(Up::Commit(txn)) => {
            let txn = txn.get();
            let published = value_by_bodies(txn.news.as_slice(), object, field, before);
            value_by_sets(txn.sets.as_slice(), object, field, published)
        }
        _ => before,
    }
}

/// The value of the field in the body, if it is of the object.
fn value_by_body(body: &Body, object: u64, field: u32, before: Option<Value>) -> Option<Value>
    ensures { result ≡ value_by_body object field before body.now }
{
    if body.object == object {
        body.values.get(field as usize).copied()
    } else {
        before
    }
}

/// The value of the field in the last of the bodies that is of the object.
fn value_by_bodies(bodies: &[Body], object: u64, field: u32, before: Option<Value>) -> Option<Value>
    ensures { result ≡ value_by_bodies object field bodies.now before }
{
    let mut value = before;
    for body in bodies {
        value = value_by_body(body, object, field, value);
    }
    value
}

/// The value of the last of the sets that is of the field, else the value before.
fn value_by_sets(sets: &[Set], object: u64, field: u32, before: Option<Value>) -> Option<Value>
    ensures { result ≡ value_by_sets object field sets.now before }
{
    let mut value = before;
    for set in sets {
        if set.object == object && set.field == field {
            value = Some(set.value);
        }
    }
    value
}
