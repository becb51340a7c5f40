//! Laws of the records that a server applies (`specs/Keeping.antt`). Each is the contract of a function that does nothing.
ghost use Rattle.dso_kept.specs.Keeping.{AcknowledgedAreApplied, AppliedRecordsFit};

/// The records that the server of a lawful journal has applied fit, each the graph of those before it, and their graph is
/// the server's: the bodies that it stores, and the number of each client's last record.
pub fn applied_records_fit()
    ensures { AppliedRecordsFit }
{}

/// Each record of which a client took the acknowledgement is among those that the server has applied. So what a step leaves
/// in a store, at any moment of it, has each record that was acknowledged before.
pub fn acknowledged_are_applied()
    ensures { AcknowledgedAreApplied }
{}
