//! Calls of a map in words.

use crate::threads::Asked;
use case_words::{debugged, first_of, value_list};
use dso_base::{NoMemory, Request, Value};
use dso_map::{MapCall, MapOp, op_of};
use std::alloc::Global;

/// The call of these words, the method and its arguments; None where they are none.
pub fn op_of_words(alloc: Global, words: &str) -> Result<Option<MapOp>, NoMemory> {
    let (method, rest) = first_of(words);
    let args = value_list(alloc, rest, ' ')?;
    Ok(op_of(place_of(method), args.as_slice()))
}

/// The place of a method of the map.
fn place_of(method: &str) -> usize {
    match method {
        "get" => 0,
        "has" => 1,
        "size" => 2,
        "put" => 3,
        "remove" => 4,
        _ => 5,
    }
}

/// What a call asked, and what it gave.
pub fn asked(alloc: Global, requests: &[Request], gave: Option<Value>) -> Result<String, NoMemory> {
    let mut text = String::new(alloc);
    for request in requests {
        text = with_request(alloc, text, *request)?;
    }
    let told = format!(in alloc; "{text}gives {gave:?}")?;
    Ok(told)
}

/// How much a call asked, the last of it, and what it gave.
pub fn told_last(
    alloc: Global,
    requests: &[Request],
    most: Option<u32>,
    gave: Option<Value>,
) -> Result<String, NoMemory> {
    let number = requests.len();
    let before = number.saturating_sub(most.unwrap_or(0) as usize);
    let (_, last) = requests.split_at(before);
    let text = asked(alloc, last, gave)?;
    let told = format!(in alloc; "{number} requests, at last {text}")?;
    Ok(told)
}

/// What a thread asked.
pub fn requests_of(alloc: Global, asked: &[Asked]) -> Result<String, NoMemory> {
    let mut text = String::new(alloc);
    for asked in asked {
        text = with_request(alloc, text, asked.request)?;
    }
    Ok(String::from_str(alloc, text.trim_end())?)
}

/// What a thread asked, each request with what it held there.
pub fn requests_with_held(alloc: Global, asked: &[Asked]) -> Result<String, NoMemory> {
    let mut text = String::new(alloc);
    for asked in asked {
        text = with_request(alloc, text, asked.request)?;
        text = format!(in alloc; "{}{:?} ", text.trim_end(), asked.held)?;
    }
    Ok(String::from_str(alloc, text.trim_end())?)
}

/// How much a thread asked, and the last of it.
pub fn last_requests(
    alloc: Global,
    asked: &[Asked],
    most: Option<u32>,
) -> Result<String, NoMemory> {
    let number = asked.len();
    let before = number.saturating_sub(most.unwrap_or(0) as usize);
    let (_, last) = asked.split_at(before);
    let text = requests_of(alloc, last)?;
    Ok(format!(in alloc; "{number} requests, at last {text}")?)
}

/// The text with a request behind it.
fn with_request(alloc: Global, text: String, request: Request) -> Result<String, NoMemory> {
    let text = match request {
        Request::Get(_, field) => format!(in alloc; "{text}{field}? ")?,
        Request::Put(_, field, value) => format!(in alloc; "{text}{field}={value:?} ")?,
        _ => format!(in alloc; "{text}{request:?} ")?,
    };
    Ok(text)
}

/// What a call asks next, and its result.
pub fn standing(alloc: Global, call: MapCall) -> Result<String, NoMemory> {
    debugged(alloc, (call.next(), call.result()))
}
