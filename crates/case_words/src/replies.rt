//! What a thread is answered.

use crate::numbers::{count, number};
use crate::values::{class, value};
use crate::words::{fault, first_of};
use dso_base::Reply;

/// A reply, as `seen c0 2` or `refused WrongLock`.
pub fn reply(text: &str) -> Option<Reply> {
    let (verb, rest) = first_of(text);
    let (first, second) = first_of(rest);
    match verb {
        "done" => Some(Reply::Done),
        "local" => Some(Reply::Local),
        "made" => Some(Reply::Made(number(first)?)),
        "seen" => Some(Reply::Seen(class(first)?, count(second)?)),
        "val" => Some(Reply::Val(value(first)?)),
        "refused" => Some(Reply::Refused(fault(first)?)),
        _ => None,
    }
}
