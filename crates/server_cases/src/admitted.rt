//! How answers are written: `Took(Done, Request(Mon(5), Write), 2) ; 1 Grant(Mon(5), Write)`.

use case_words::{debugged, with_sets, with_values};
use dso_admission::Admitted;
use dso_base::{Body, Down, NoMemory, Up};
use std::alloc::Global;

/// What was told and sent.
pub fn told(
    alloc: Global,
    admitted: Admitted,
    messages: &[(u8, Down)],
) -> Result<String, NoMemory> {
    let mut text = in_words(alloc, admitted)?;
    for (client, message) in messages {
        let with_client = format!(in alloc; "{text} ; {client}")?;
        text = with_message(alloc, with_client, message)?;
    }
    Ok(text)
}

/// What was told; of a record its number alone, of a return how many threads wait.
fn in_words(alloc: Global, admitted: Admitted) -> Result<String, NoMemory> {
    match admitted {
        Admitted::Took(taken, message, clock) => {
            let said = said(alloc, message)?;
            let text = format!(in alloc; "Took({taken:?}, {said}, {clock})")?;
            Ok(text)
        }
        other => debugged(alloc, other),
    }
}

/// The message.
fn said(alloc: Global, message: Up) -> Result<String, NoMemory> {
    match message {
        Up::Return(lock, threads) => {
            let waiting = threads.as_slice().len();
            let text = format!(in alloc; "Return({lock:?}, {waiting})")?;
            Ok(text)
        }
        Up::Commit(txn) => {
            let seq = txn.get().seq;
            let text = format!(in alloc; "Commit({seq})")?;
            Ok(text)
        }
        other => debugged(alloc, other),
    }
}

/// The text with the object behind it.
fn with_body(alloc: Global, text: String, body: &Body) -> Result<String, NoMemory> {
    let (object, class) = (body.object, body.class);
    let text = format!(in alloc; "{text} Object {object} {class:?}")?;
    with_values(alloc, text, body.values.as_slice())
}

/// The text with the message behind it.
fn with_message(alloc: Global, text: String, message: &Down) -> Result<String, NoMemory> {
    match message {
        Down::Object(body) => with_body(alloc, text, body.get()),
        Down::Changes(sets) => {
            let text = format!(in alloc; "{text} Changes")?;
            with_sets(alloc, text, sets.as_slice())
        }
        other => {
            let text = format!(in alloc; "{text} {other:?}")?;
            Ok(text)
        }
    }
}
