//! Records of one object.

use case_words::bare_record;
use dso_base::{Body, ClassId, Ending, Items, Kind, NoMemory, Set, ThreadId, Txn, Value};
use std::alloc::Global;

/// A record of the client's first thread, which ended, with nothing else in it.
fn ended(alloc: Global, client: u8, seq: u64) -> Txn {
    bare_record(alloc, seq, ThreadId { client, index: 1 }, Ending::End(None))
}

/// A record that publishes the object, an array of two longs that are 0.
pub fn publishing(alloc: Global, client: u8, seq: u64, object: u64) -> Result<Txn, NoMemory> {
    let values = vec![in alloc; Value::Long(0), Value::Long(0)]?;
    let mut txn = ended(alloc, client, seq);
    txn.news.push(Body {
        object,
        class: ClassId::Array(Kind::Long),
        values: Items::from_vec(values),
    })?;
    Ok(txn)
}

/// A record of one set.
pub fn setting(alloc: Global, client: u8, seq: u64, set: Set) -> Result<Txn, NoMemory> {
    let mut txn = ended(alloc, client, seq);
    txn.sets.push(set)?;
    Ok(txn)
}
