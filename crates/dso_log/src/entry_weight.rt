//! What an entry weighs (`dso_base/specs/Weight.antt`).
ghost use Rattle.std.specs.Prelude.{ℕ, ◌≡◌, ◌+◌, ◌-◌, ◌^◌, min};
ghost use Rattle.dso_base.specs.Weight.{entry_weight_of, sent_values_of, txn_values_of};

use dso_base::{Down, Entry, Sent, Txn, Up};

/// What the entry weighs, and 2^64 - 1 where that is more.
fn weight_of(entry: &Entry) -> u64
    ensures { result ≡ min (entry_weight_of entry.now) (2 ^ 64 - 1) }
{
    let mut values: u64 = 0;
    for sent in entry.sent.as_slice() {
        values = values.saturating_add(values_of(sent));
    }
    values.saturating_add(1)
}

/// How many values a message has, and 2^64 - 1 where they are more.
fn values_of(sent: &Sent) -> u64
    ensures { result ≡ min (sent_values_of sent.now) (2 ^ 64 - 1) }
{
    match sent {
        Sent::ToServer(Up::Commit(txn)) => txn_values(txn.get()),
        Sent::ToClient(_, Down::Object(body)) => body.get().values.len() as u64,
        Sent::ToClient(_, Down::Changes(sets)) => sets.len() as u64,
        _ => 0,
    }
}

/// How many values a record has, and 2^64 - 1 where they are more.
fn txn_values(txn: &Txn) -> u64
    ensures { result ≡ min (txn_values_of txn.now) (2 ^ 64 - 1) }
{
    let mut values: u64 = 0;
    for body in txn.news.as_slice() {
        values = values.saturating_add(body.values.len() as u64);
    }
    values
        .saturating_add(txn.sets.len() as u64)
        .saturating_add(txn.outs.len() as u64)
}

/// A weight with what the entry weighs added to it, and 2^64 - 1 where that is more. It takes no memory.
pub fn with_weight(weight: u64, entry: &Entry) -> u64
    ensures { (before : ℕ) → weight ≡ min before (2 ^ 64 - 1) → result ≡ min (before + entry_weight_of entry.now) (2 ^ 64 - 1) }
{
    weight.saturating_add(weight_of(entry))
}
