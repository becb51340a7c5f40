//! A law of records (`specs/Laws.antt`). It is the contract of a function that does nothing.
ghost use Rattle.dso_change.specs.Laws.{RecordsAgree};

/// The record that [`crate::fold`] makes of a block's events is the one that [`crate::Draft::close`] makes of the work that
/// the thread has in hand after them.
pub fn records()
    ensures { RecordsAgree }
{}
