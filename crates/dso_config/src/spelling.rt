//! How names, patterns and levels are read (`specs/Spelling.antt`).

ghost use Rattle.std.specs.Prelude.{◌≡◌, ◌≤◌, length, IfOk};
ghost use Rattle.std.specs.List.{list_all, position_or_len, before_first, after_first};
ghost use Rattle.dso_config.specs.Spelling as spec;

use crate::Pattern;
use dso_base::{Grade, Items, NoMemory, Word};
use std::alloc::Global;

/// The most bytes of a name.
const LONGEST_NAME: usize = 64;

/// What a name begins with.
fn is_letter(b: u8) -> bool
    ensures { result ≡ spec.is_letter b }
{
    b.is_ascii_alphabetic() || b == b'_'
}

/// What a name goes on with.
fn is_word(b: u8) -> bool
    ensures { result ≡ spec.is_word b }
{
    is_letter(b) || b.is_ascii_digit()
}

/// Whether all bytes are such that a name goes on with.
fn are_words(text: &[u8]) -> bool
    ensures { result ≡ list_all spec.is_word text.now }
{
    let mut text = text;
    while let [b, rest @ ..] = text {
        if !is_word(*b) {
            return false;
        }
        text = rest;
    }
    true
}

/// Whether the text is a name: a letter or `_`, then letters, digits and `_`, 64 bytes at most.
pub fn is_name(text: &[u8]) -> bool
    ensures { result ≡ spec.is_name text.now }
{
    match text {
        [] => false,
        [b, rest @ ..] => is_letter(*b) && rest.len() < LONGEST_NAME && are_words(rest),
    }
}

/// How many bytes stand before the first dot, or in the text where it has none.
fn dot_place(text: &[u8]) -> usize
    ensures value { result ≡ position_or_len spec.is_dot text.now }
    ensures within { result ≤ length text.now }
{
    let mut text = text;
    let mut count = 0;
    while let [b, rest @ ..] = text {
        if *b == b'.' {
            break;
        }
        count += 1;
        text = rest;
    }
    count
}

/// What stands before the first dot, and what behind it.
fn around_dot(text: &[u8]) -> (&[u8], &[u8])
    ensures class { result.0.now ≡ before_first spec.is_dot text.now }
    ensures member { result.1.now ≡ after_first spec.is_dot text.now }
{
    let (class, rest) = text.split_at(dot_place(text));
    match rest {
        [] => (class, rest),
        [_dot, member @ ..] => (class, member),
    }
}

/// The bytes as a word of their own.
pub fn copied(alloc: Global, bytes: &[u8]) -> Result<Word, NoMemory>
    ensures { IfOk result (λ word. word ≡ bytes.now) }
{
    let mut word = Vec::new(alloc);
    word.extend_from_slice(bytes)?;
    Ok(Items::from_vec(word))
}

/// The methods of a class that are meant: all of them, or the one of this name.
fn pattern_in(alloc: Global, class: &[u8], member: &[u8]) -> Result<Option<Pattern>, NoMemory>
    ensures { IfOk result (λ pattern. pattern ≡ spec.pattern_in class.now member.now) }
{
    if !is_name(class) {
        return Ok(None);
    }
    if member == b"*".as_slice() {
        return Ok(Some(Pattern::Class(copied(alloc, class)?)));
    }
    if !is_name(member) {
        return Ok(None);
    }
    let class = copied(alloc, class)?;
    Ok(Some(Pattern::Method(class, copied(alloc, member)?)))
}

/// The pattern that the text is: `*.*`, `Class.*` or `Class.method`; None for another text.
pub fn pattern(alloc: Global, text: &str) -> Result<Option<Pattern>, NoMemory>
    ensures { IfOk result (λ pattern. pattern ≡ spec.pattern_of text.now) }
{
    if text == "*.*" {
        return Ok(Some(Pattern::All));
    }
    let (class, member) = around_dot(text.as_bytes());
    pattern_in(alloc, class, member)
}

/// The level that the text is: `read`, `write` or `synchronous-write`; None for another text.
pub fn grade(text: &str) -> Option<Grade>
    ensures { result ≡ spec.grade_of text.now }
{
    match text {
        "read" => Some(Grade::Read),
        "write" => Some(Grade::Write),
        "synchronous-write" => Some(Grade::Synchronous),
        _ => None,
    }
}

/// The name that the text is; None for another text.
pub fn name(alloc: Global, text: &str) -> Result<Option<Word>, NoMemory>
    ensures { IfOk result (λ name. name ≡ spec.name_of text.now) }
{
    if !is_name(text.as_bytes()) {
        return Ok(None);
    }
    Ok(Some(copied(alloc, text.as_bytes())?))
}
