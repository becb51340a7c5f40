//! The pool and the source of ids: `take`, `drain`, `refill 257`, `next`, `end`; `batch`, `given`.

use case_words::{debugged, first_of, number, shown};
use dso_base::NoMemory;
use dso_ids::{IdPool, IdSource};
use std::alloc::Global;

/// More than a pool ever has.
const MOST_LEFT: u32 = 1000;

/// The answer to the call.
pub fn told(
    alloc: Global,
    pool: &mut IdPool,
    source: &mut IdSource,
    text: &str,
) -> Result<String, NoMemory> {
    let (word, rest) = first_of(text);
    match word {
        "take" => debugged(alloc, pool.take()),
        "drain" => drained(alloc, pool),
        "refill" => refilled(alloc, pool, rest),
        "next" => shown(alloc, pool.next()),
        "end" => shown(alloc, pool.end()),
        "batch" => batch(alloc, source),
        "given" => shown(alloc, source.given()),
        _ => shown(alloc, "no such call"),
    }
}

/// Takes each id that is left, and tells how many these were, with the first and the last of them.
fn drained(alloc: Global, pool: &mut IdPool) -> Result<String, NoMemory> {
    let Some(first) = pool.take() else {
        return shown(alloc, "none was left");
    };
    let (mut last, mut count) = (first, 1_u32);
    for _ in 1..MOST_LEFT {
        let Some(id) = pool.take() else { break };
        last = id;
        count = count.saturating_add(1);
    }
    Ok(format!(in alloc; "{count} ids from {first} to {last}")?)
}

/// Fills the pool where the condition of the call holds.
fn refilled(alloc: Global, pool: &mut IdPool, text: &str) -> Result<String, NoMemory> {
    match number(text) {
        Some(first) if first < 1 << 60 && pool.next() == pool.end() => {
            pool.refill(first);
            shown(alloc, "filled")
        }
        _ => shown(alloc, "not empty"),
    }
}

/// The first id of the next batch.
fn batch(alloc: Global, source: &mut IdSource) -> Result<String, NoMemory> {
    if source.given() < 1 << 50 {
        shown(alloc, source.batch())
    } else {
        shown(alloc, "too many")
    }
}
