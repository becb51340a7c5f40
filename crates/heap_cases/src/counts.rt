//! Whether a journal is so small that its weight is a number of 64 bits.
ghost use Rattle.std.specs.List.{list_all};
ghost use Rattle.std.specs.Prelude.{◌≡◌, IsTrue};
ghost use Rattle.heap_cases.specs.SmallJournals.{IsSmall, sends_nothing};

use dso_base::Entry;

/// Whether the entries are fewer than 2^32 and none of them sends anything.
pub fn is_small(entries: &[Entry]) -> bool
    ensures { IsTrue result → IsSmall entries.now }
{
    entries.len() < 1 << 32 && send_nothing(entries)
}

/// Whether the entries send nothing.
fn send_nothing(entries: &[Entry]) -> bool
    ensures { result ≡ list_all sends_nothing entries.now }
{
    entries.iter().all(|entry| entry.sent.len() == 0)
}
