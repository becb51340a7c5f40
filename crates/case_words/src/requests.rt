//! What a thread asks.

use crate::numbers::{count, number};
use crate::values::{class, value};
use crate::words::{fault, first_of, level, lock};
use dso_base::Request;

/// A request, as `put 1 0 r2` or `enter m5 write`.
pub fn request(text: &str) -> Option<Request> {
    let (verb, rest) = first_of(text);
    match verb {
        "pause" => Some(Request::Pause),
        "settle" => Some(Request::Settle),
        "print" => Some(Request::Print(value(rest)?)),
        "end" => end_request(rest),
        "new" | "look" | "get" | "put" => object_request(verb, rest),
        _ => lock_request(verb, rest),
    }
}

/// The end of a thread, with its fault where it has one.
fn end_request(rest: &str) -> Option<Request> {
    if rest.is_empty() {
        return Some(Request::End(None));
    }
    Some(Request::End(Some(fault(rest)?)))
}

/// A request of an object.
fn object_request(verb: &str, rest: &str) -> Option<Request> {
    let (first, behind) = first_of(rest);
    let (second, third) = first_of(behind);
    match verb {
        "new" => Some(Request::New(class(first)?, count(second)?)),
        "look" => Some(Request::Look(number(first)?)),
        "get" => Some(Request::Get(number(first)?, count(second)?)),
        _ => Some(Request::Put(number(first)?, count(second)?, value(third)?)),
    }
}

/// A request of a lock; an entry has its level.
fn lock_request(verb: &str, rest: &str) -> Option<Request> {
    let (first, second) = first_of(rest);
    let lock = lock(first)?;
    match verb {
        "enter" => Some(Request::Enter(lock, level(second)?)),
        "exit" => Some(Request::Exit(lock)),
        "wait" => Some(Request::Wait(lock)),
        "tick" => Some(Request::Tick(lock)),
        "timeout" => Some(Request::Timeout(lock)),
        "resume" => Some(Request::Resume(lock)),
        "notify" => Some(Request::Notify(lock)),
        "notify-all" | "notifyall" => Some(Request::NotifyAll(lock)),
        _ => None,
    }
}
