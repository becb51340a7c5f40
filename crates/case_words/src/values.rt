//! Values and classes.

use crate::numbers::{count, long, number};
use crate::words::kind;
use dso_base::{ClassId, Value};

/// A number as `7` or `l7`, a reference as `r1`, a text as `t0`, `true`, `false` or `null`.
pub fn value(word: &str) -> Option<Value> {
    match word {
        "null" => Some(Value::Null),
        "true" => Some(Value::Bool(true)),
        "false" => Some(Value::Bool(false)),
        _ => numbered_value(word),
    }
}

/// A number, a reference or a text.
fn numbered_value(word: &str) -> Option<Value> {
    if let Some(object) = word.strip_prefix('r') {
        return Some(Value::Ref(number(object)?));
    }
    match word.strip_prefix('t') {
        Some(text) => Some(Value::Text(count(text)?)),
        None => Some(Value::Long(long(word.strip_prefix('l').unwrap_or(word))?)),
    }
}

/// A class of the program as `c0`, an array as `[long`, or `roots`.
pub fn class(word: &str) -> Option<ClassId> {
    if word == "roots" {
        return Some(ClassId::Roots);
    }
    match word.strip_prefix('[') {
        Some(of) => Some(ClassId::Array(kind(of)?)),
        None => Some(ClassId::Plain(count(word.strip_prefix('c')?)?)),
    }
}
