//! Lists of words. A word that is none of the kind is left out.

use crate::numbers::number;
use crate::values::value;
use crate::words::thread;
use dso_base::{Items, NoMemory, ThreadId, Value};
use std::alloc::Global;

/// The numbers among the words.
pub fn number_list(alloc: Global, text: &str) -> Result<Items<u64>, NoMemory> {
    let mut numbers = Items::new(alloc);
    for word in text.split(' ') {
        if let Some(number) = number(word) {
            numbers.push(number)?;
        }
    }
    Ok(numbers)
}

/// The threads among the words.
pub fn thread_list(alloc: Global, text: &str) -> Result<Items<ThreadId>, NoMemory> {
    let mut threads = Items::new(alloc);
    for word in text.split(' ') {
        if let Some(thread) = thread(word) {
            threads.push(thread)?;
        }
    }
    Ok(threads)
}

/// The values among the words, which have this between two of them.
pub fn value_list(alloc: Global, text: &str, between: char) -> Result<Items<Value>, NoMemory> {
    let mut values = Items::new(alloc);
    for word in text.split(between) {
        if let Some(value) = value(word) {
            values.push(value)?;
        }
    }
    Ok(values)
}

/// A list of one.
pub fn single<T: Drop>(alloc: Global, item: T) -> Result<Items<T>, NoMemory> {
    let mut items = Items::new(alloc);
    items.push(item)?;
    Ok(items)
}
