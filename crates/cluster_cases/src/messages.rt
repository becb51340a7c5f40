//! Messages of the server, as the text of a journal writes them. The counts of lists are read over but for that of
//! sets.

use case_words::{count, first_of, kind, level, lock, number, thread, value, value_list};
use dso_base::{Body, ClassId, Down, Items, NoMemory, Set, Shared};
use std::alloc::Global;

/// The message of the words, None where they tell none.
pub fn message(alloc: Global, text: &str) -> Result<Option<Down>, NoMemory> {
    let (word, rest) = first_of(text);
    match word {
        "object" => object(alloc, rest),
        "changes" => Ok(Some(Down::Changes(sets(alloc, rest)?))),
        _ => Ok(short_message(word, rest)),
    }
}

/// An object that was asked for, None where the words tell none.
fn object(alloc: Global, text: &str) -> Result<Option<Down>, NoMemory> {
    match body(alloc, text)? {
        Some(body) => Ok(Some(Down::Object(Shared::new(alloc, body)?))),
        None => Ok(None),
    }
}

/// A message without lists.
fn short_message(word: &str, rest: &str) -> Option<Down> {
    let (first, second) = first_of(rest);
    match word {
        "ids" => Some(Down::Ids(number(first)?)),
        "ack" => Some(Down::Ack(number(first)?)),
        "grant" => Some(Down::Grant(lock(first)?, level(second)?)),
        "recall" => Some(Down::Recall(lock(first)?)),
        "wake" => Some(Down::Wake(lock(first)?, thread(second)?)),
        _ => None,
    }
}

/// An object, as `5 k0 2 false 7`.
fn body(alloc: Global, text: &str) -> Result<Option<Body>, NoMemory> {
    let (object, rest) = first_of(text);
    let (name, rest) = first_of(rest);
    let (_, values) = first_of(rest);
    let (Some(object), Some(class)) = (number(object), class(name)) else {
        return Ok(None);
    };
    Ok(Some(Body {
        object,
        class,
        values: value_list(alloc, values, ' ')?,
    }))
}

/// A class as `k0`, `along` or `roots`.
fn class(word: &str) -> Option<ClassId> {
    if word == "roots" {
        return Some(ClassId::Roots);
    }
    match word.strip_prefix('a') {
        Some(of) => Some(ClassId::Array(kind(of)?)),
        None => Some(ClassId::Plain(count(word.strip_prefix('k')?)?)),
    }
}

/// Sets behind their count, as `2 5 0 true 5 1 7`.
fn sets(alloc: Global, text: &str) -> Result<Items<Set>, NoMemory> {
    let mut sets = Items::new(alloc);
    let (many, mut rest) = first_of(text);
    for _set in 0..count(many).unwrap_or(0) {
        let (object, behind) = first_of(rest);
        let (field, behind) = first_of(behind);
        let (word, behind) = first_of(behind);
        if let Some(set) = set_of(object, field, word) {
            sets.push(set)?;
        }
        rest = behind;
    }
    Ok(sets)
}

/// A value in the field of an object.
fn set_of(object: &str, field: &str, word: &str) -> Option<Set> {
    Some(Set {
        object: number(object)?,
        field: count(field)?,
        value: value(word)?,
    })
}
