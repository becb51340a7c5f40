//! How a report writes values (`specs/Texts.antt`).
ghost use Rattle.std.specs.Prelude.{◌≡◌, ◌++◌, Some, None, slice_get, IfOk, OnOk, IsErrOf};
ghost use Rattle.std.specs.Fmt.{decimal, signed_decimal, ◌++?◌};
ghost use Rattle.dso_report.specs.declared.unwritten.Unwritten.TheVariants as unwritten;
ghost use Rattle.dso_report.specs.Texts.{escaped, quoted, printed, shown_in, numbered, number_of, kind_text};

use crate::unwritten::Unwritten;
use dso_base::{Kind, Value, Word};
use indexmap::IndexSet;
use itoa::Buffer;
use std::alloc::AllocError;

/// Puts a number at the end, in decimal.
pub(crate) fn push_number(text: &mut Vec<u8>, number: u64) -> Result<(), AllocError>
    ensures { OnOk result (text.new.items ≡ text.old.items ++ decimal number) }
{
    let mut digits = Buffer::new();
    text.extend_from_slice(digits.format(number).as_bytes())
}

/// Puts a long at the end, in decimal.
pub(crate) fn push_long(text: &mut Vec<u8>, number: i64) -> Result<(), AllocError>
    ensures { OnOk result (text.new.items ≡ text.old.items ++ signed_decimal number) }
{
    let mut digits = Buffer::new();
    text.extend_from_slice(digits.format(number).as_bytes())
}

/// Puts a text in quotes at the end.
pub(crate) fn push_quoted(text: &mut Vec<u8>, literal: &[u8]) -> Result<(), AllocError>
    ensures { OnOk result (text.new.items ≡ text.old.items ++ quoted literal.now) }
{
    text.extend_from_slice(b"\"")?;
    for byte in literal {
        push_escaped(text, *byte)?;
    }
    text.extend_from_slice(b"\"")
}

/// Puts a byte of a text in quotes at the end.
fn push_escaped(text: &mut Vec<u8>, byte: u8) -> Result<(), AllocError>
    ensures { OnOk result (text.new.items ≡ text.old.items ++ escaped byte) }
{
    if byte == b'"' || byte == b'\\' {
        text.extend_from_slice(&[b'\\', byte])
    } else {
        text.extend_from_slice(&[byte])
    }
}

/// Puts a value at the end, as a thread prints it.
pub(crate) fn push_printed(
    text: &mut Vec<u8>,
    texts: &[Word],
    value: Value,
) -> Result<(), Unwritten>
    ensures written { OnOk result (Some text.old.items ++? printed texts.now value ≡ Some text.new.items) }
    ensures missing { IsErrOf result unwritten.Missing → printed texts.now value ≡ None }
{
    match value {
        Value::Null => text.extend_from_slice(b"null")?,
        Value::Long(number) => push_long(text, number)?,
        Value::Bool(true) => text.extend_from_slice(b"true")?,
        Value::Bool(false) => text.extend_from_slice(b"false")?,
        Value::Text(literal) => text.extend_from_slice(word_at(texts, literal as usize)?)?,
        Value::Ref(_) => text.extend_from_slice(b"ref")?,
    }
    Ok(())
}

/// The word at a place.
pub(crate) fn word_at(words: &[Word], at: usize) -> Result<&[u8], Unwritten>
    ensures there { IfOk result (λ word. slice_get words.now at ≡ Some word.now) }
    ensures missing { IsErrOf result unwritten.Missing → slice_get words.now at ≡ None }
{
    match words.get(at) {
        Some(word) => Ok(word.as_slice()),
        None => Err(Unwritten::Missing),
    }
}

/// Puts an object at the end, by its number.
pub(crate) fn push_numbered(
    text: &mut Vec<u8>,
    order: &IndexSet<u64>,
    object: u64,
) -> Result<(), Unwritten>
    ensures written { OnOk result (Some text.old.items ++? numbered order.now.keys object ≡ Some text.new.items) }
    ensures missing { IsErrOf result unwritten.Missing → numbered order.now.keys object ≡ None }
{
    let number = number_of(order, object).ok_or(Unwritten::Missing)?;
    text.extend_from_slice(b"#")?;
    push_number(text, number)?;
    Ok(())
}

/// The number of an object, if it has one.
fn number_of(order: &IndexSet<u64>, object: u64) -> Option<u64>
    ensures { result ≡ number_of order.now.keys object }
{
    // The length tells the check that no place is the last number there is.
    let _count = order.len();
    match order.get_index_of(&object) {
        Some(place) => Some(place as u64 + 1),
        None => None,
    }
}

/// Puts the value of a field at the end, if it has one, as the graph shows it.
pub(crate) fn push_shown(
    text: &mut Vec<u8>,
    texts: &[Word],
    order: &IndexSet<u64>,
    value: Option<Value>,
) -> Result<(), Unwritten>
    ensures written { OnOk result (Some text.old.items ++? shown_in texts.now order.now.keys value ≡ Some text.new.items) }
    ensures missing { IsErrOf result unwritten.Missing → shown_in texts.now order.now.keys value ≡ None }
{
    match value.ok_or(Unwritten::Missing)? {
        Value::Null => text.extend_from_slice(b"null")?,
        Value::Long(number) => push_long(text, number)?,
        Value::Bool(true) => text.extend_from_slice(b"true")?,
        Value::Bool(false) => text.extend_from_slice(b"false")?,
        Value::Text(literal) => push_quoted(text, word_at(texts, literal as usize)?)?,
        Value::Ref(object) => push_numbered(text, order, object)?,
    }
    Ok(())
}

/// Puts the kind of an array's elements at the end.
pub(crate) fn push_kind(text: &mut Vec<u8>, kind: Kind) -> Result<(), AllocError>
    ensures { OnOk result (text.new.items ≡ text.old.items ++ kind_text kind) }
{
    text.extend_from_slice(match kind {
        Kind::Long => b"long",
        Kind::Bool => b"boolean",
        Kind::Text => b"text",
        Kind::Ref => b"ref",
    })
}
