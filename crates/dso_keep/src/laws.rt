//! The laws of a store's file (`specs/Laws.antt`). Each is the contract of a function that does nothing.
ghost use Rattle.dso_keep.specs.Laws.{BadNeverReopens, OneReopening};

use dso_wire::one_frame;

/// A file reopens to one list of records at most, and to none where an open gate is followed by no record that fits.
pub fn reopens_once()
    ensures one { OneReopening }
    ensures bad { BadNeverReopens }
{
    one_frame();
}
