//! How a journal's text is put together: words, one behind the other (`specs/JournalWords.antt`).
ghost use Rattle.std.specs.Prelude.{◌≡◌, ◌++◌, ℕ, List, OnOk, flat_map};
ghost use Rattle.std.specs.Fmt.{decimal};
ghost use Rattle.dso_report.specs.JournalWords.{list_words};

use crate::value_texts::push_number;
use dso_base::Items;
use std::alloc::AllocError;

/// What a journal's text has words for.
pub(crate) trait Written {
    /// Its words.
    ghost words: { Self → List ℕ };

    /// Puts its words at the end of a text.
    fn put(&self, text: &mut Vec<u8>) -> Result<(), AllocError>
        ensures { OnOk result (text.new.items ≡ text.old.items ++ words self.now) };
}

impl Written for u64 {
    ghost words = { decimal };

    fn put(&self, text: &mut Vec<u8>) -> Result<(), AllocError> {
        push_number(text, *self)
    }
}

impl Written for u32 {
    ghost words = { decimal };

    fn put(&self, text: &mut Vec<u8>) -> Result<(), AllocError> {
        push_number(text, *self as u64)
    }
}

impl Written for u8 {
    ghost words = { decimal };

    fn put(&self, text: &mut Vec<u8>) -> Result<(), AllocError> {
        push_number(text, *self as u64)
    }
}

/// A list: its count, and each item behind a space.
impl<T: Written> Written for Items<T> {
    ghost words = { list_words T.words };

    fn put(&self, text: &mut Vec<u8>) -> Result<(), AllocError> {
        push_number(text, self.len() as u64)?;
        put_each(text, b" ", self.as_slice())
    }
}

/// Puts some bytes at the end of a text, and behind them the words of an item.
pub(crate) fn put_behind<T: Written>(
    text: &mut Vec<u8>,
    lead: &[u8],
    item: &T,
) -> Result<(), AllocError>
    ensures { OnOk result (text.new.items ≡ text.old.items ++ lead.now ++ T.words item.now) }
{
    text.extend_from_slice(lead)?;
    item.put(text)
}

/// Puts the words of each item at the end of a text, each behind the same bytes.
pub(crate) fn put_each<T: Written>(
    text: &mut Vec<u8>,
    lead: &[u8],
    items: &[T],
) -> Result<(), AllocError>
    ensures { OnOk result (text.new.items ≡ text.old.items ++ flat_map (λ item. lead.now ++ T.words item) items.now) }
{
    for item in items {
        put_behind(text, lead, item)?;
    }
    Ok(())
}
