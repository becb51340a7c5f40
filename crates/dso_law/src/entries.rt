//! The entries of a journal so far, which contracts see with the newest first.
ghost use Rattle.std.specs.Prelude.{◌≡◌, reverse};

use dso_base::Entry;
use std::marker::Model;

/// The entries of a journal so far. Contracts see them with the newest first, so that one more entry is one more at the
/// front.
#[derive(Debug, Drop)]
pub struct Entries<'a> {
    oldest_first: &'a [Entry],
}

impl<'a> Model for Entries<'a> {
    ghost use Rattle.std.specs.Prelude.{List, reverse};
    ghost use Rattle.dso_base.specs.declared.journal.Entry.{Entry};

    ghost Value = { List Entry };

    ghost view = { λ entries. reverse entries.oldest_first.now };
}

impl<'a> Entries<'a> {
    /// These entries, which stand in the order in which they were made. It takes no memory.
    pub fn new(oldest_first: &'a [Entry]) -> Self
        ensures { result ≡ reverse oldest_first.now }
    {
        Entries { oldest_first }
    }

    /// The entries in the order in which they were made.
    pub(crate) fn oldest_first(&self) -> &'a [Entry]
        ensures { reverse result.now ≡ self.now }
    {
        self.oldest_first
    }
}
