//! A client's ids, and the numbers of its records.
use dso_ids::IdPool;
use dso_txn::Unacked;

/// The ids for new objects; whether a batch was asked for and didn't come yet; how many records were sent, and the
/// numbers of those that aren't acknowledged.
#[derive(Drop)]
pub struct Sequences {
    pub pool: IdPool,
    pub is_asking: bool,
    pub records: u64,
    pub unacked: Unacked,
}
