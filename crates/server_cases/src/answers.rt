//! How answers are written: `Done ; 1 Ack(1) ; 2 Changes 5.0=Long(7)`.

use case_words::{with_sets, with_values};
use dso_base::{Body, Down, NoMemory};
use std::alloc::Global;

/// The text with the object behind it.
fn with_body(alloc: Global, text: String, body: &Body) -> Result<String, NoMemory> {
    let (object, class) = (body.object, body.class);
    let text = format!(in alloc; "{text} Object {object} {class:?}")?;
    with_values(alloc, text, body.values.as_slice())
}

/// The text with the message behind it.
fn with_message(alloc: Global, text: String, message: &Down) -> Result<String, NoMemory> {
    match message {
        Down::Object(body) => with_body(alloc, text, body.get()),
        Down::Changes(sets) => {
            let text = format!(in alloc; "{text} Changes")?;
            with_sets(alloc, text, sets.as_slice())
        }
        other => {
            let text = format!(in alloc; "{text} {other:?}")?;
            Ok(text)
        }
    }
}

/// The text with the messages behind it.
pub fn with_messages(
    alloc: Global,
    text: String,
    messages: &[(u8, Down)],
) -> Result<String, NoMemory> {
    let mut text = text;
    for (client, message) in messages {
        let with_client = format!(in alloc; "{text} ; {client}")?;
        text = with_message(alloc, with_client, message)?;
    }
    Ok(text)
}
