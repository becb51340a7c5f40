//! How answers are written.

use dso_base::{NoMemory, Set, Value};
use std::alloc::{AllocError, Global};
use std::collections::BTreeSet;
use std::fmt::{Debug, Display};

/// The answer as text.
pub fn shown<T: Display + Drop>(alloc: Global, answer: T) -> Result<String, NoMemory> {
    let text = format!(in alloc; "{answer}")?;
    Ok(text)
}

/// The answer as Rust's own words for it.
pub fn debugged<T: Debug + Drop>(alloc: Global, answer: T) -> Result<String, NoMemory> {
    let text = format!(in alloc; "{answer:?}")?;
    Ok(text)
}

/// What is printed for a row: its name, and its answer.
pub fn row_answer(
    alloc: Global,
    name: &str,
    answer: Result<String, NoMemory>,
) -> Result<String, AllocError> {
    match answer {
        Ok(answer) => format!(in alloc; "{name}: {answer}"),
        Err(_) => Err(AllocError),
    }
}

/// The text with the values behind it.
pub fn with_values(alloc: Global, text: String, values: &[Value]) -> Result<String, NoMemory> {
    let mut text = text;
    for value in values {
        text = format!(in alloc; "{text} {value:?}")?;
    }
    Ok(text)
}

/// The text with the sets behind it, each as `5.0=Long(7)`.
pub fn with_sets(alloc: Global, text: String, sets: &[Set]) -> Result<String, NoMemory> {
    let mut text = text;
    for set in sets {
        let Set {
            object,
            field,
            value,
        } = *set;
        text = format!(in alloc; "{text} {object}.{field}={value:?}")?;
    }
    Ok(text)
}

/// The text with each of these numbers behind it, once and by rising number.
pub fn with_numbers(alloc: Global, text: String, numbers: &[u64]) -> Result<String, NoMemory> {
    let mut rising = BTreeSet::new(alloc);
    for number in numbers {
        rising.insert(*number)?;
    }
    let mut text = text;
    for number in rising.iter() {
        text = format!(in alloc; "{text} {number}")?;
    }
    Ok(text)
}

/// The text with each of these edges behind it, once and in order, as `1-2`.
pub fn with_edges(alloc: Global, text: String, edges: &[(u64, u64)]) -> Result<String, NoMemory> {
    let mut rising = BTreeSet::new(alloc);
    for edge in edges {
        rising.insert(*edge)?;
    }
    let mut text = text;
    for edge in rising.iter() {
        text = format!(in alloc; "{text} {}-{}", edge.0, edge.1)?;
    }
    Ok(text)
}
