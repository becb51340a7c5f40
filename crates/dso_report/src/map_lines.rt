//! How a report writes the entries of a map (`specs/Report.antt`).
ghost use Rattle.std.specs.Prelude.{◌≡◌, Some, None, OnOk, IsErrOf};
ghost use Rattle.std.specs.Fmt.{◌++?◌};
ghost use Rattle.dso_report.specs.declared.unwritten.Unwritten.TheVariants as unwritten;
ghost use Rattle.dso_report.specs.Report.{entry_text};
ghost use Rattle.dso_report.specs.Texts.{each_of};

use crate::maps::MapEntry;
use crate::unwritten::Unwritten;
use crate::value_texts::{push_long, push_numbered};
use indexmap::IndexSet;

/// Puts the entries of a map at the end.
pub(crate) fn push_entries(
    text: &mut Vec<u8>,
    order: &IndexSet<u64>,
    entries: &[MapEntry],
) -> Result<(), Unwritten>
    ensures written { OnOk result (Some text.old.items ++? each_of (entry_text order.now.keys) entries.now ≡ Some text.new.items) }
    ensures missing { IsErrOf result unwritten.Missing → each_of (entry_text order.now.keys) entries.now ≡ None }
{
    for entry in entries {
        push_entry(text, order, *entry)?;
    }
    Ok(())
}

/// Puts a key of a map and its object at the end.
fn push_entry(text: &mut Vec<u8>, order: &IndexSet<u64>, entry: MapEntry) -> Result<(), Unwritten>
    ensures written { OnOk result (Some text.old.items ++? entry_text order.now.keys entry ≡ Some text.new.items) }
    ensures missing { IsErrOf result unwritten.Missing → entry_text order.now.keys entry ≡ None }
{
    text.extend_from_slice(b" ")?;
    push_long(text, entry.key)?;
    text.extend_from_slice(b"=")?;
    push_numbered(text, order, entry.object)
}
