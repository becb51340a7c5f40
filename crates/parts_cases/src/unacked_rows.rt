//! The records that are not acknowledged: `add 1`, `ack 1`, `keeps 1`, `least`.

use case_words::{debugged, first_of, number, shown};
use dso_base::NoMemory;
use dso_txn::Unacked;
use std::alloc::Global;

/// The answer to the call.
pub fn told(alloc: Global, unacked: &mut Unacked, text: &str) -> Result<String, NoMemory> {
    let (word, rest) = first_of(text);
    match (word, number(rest)) {
        ("add", Some(seq)) => {
            unacked.add(seq)?;
            shown(alloc, "kept")
        }
        ("ack", Some(seq)) => shown(alloc, unacked.ack(seq)),
        ("keeps", Some(seq)) => shown(alloc, unacked.keeps(seq)),
        ("least", _) => debugged(alloc, unacked.least()),
        _ => shown(alloc, "no such call"),
    }
}
