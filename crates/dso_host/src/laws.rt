//! The laws of logs that are brought together. Each is the contract of a function that does nothing.
ghost use Rattle.dso_host.specs.Gathered.{GatheredIsMerged};
ghost use Rattle.dso_host.specs.GoodMessages.{NoMessageIsBad};
ghost use Rattle.dso_host.specs.Journals.{GatheredIsLawful, GatheredWeight};
ghost use Rattle.dso_host.specs.Merged.{MergedIsLawful};
ghost use Rattle.dso_host.specs.OpenSlots.{AnyOpenByCells, FinishedByCells, OpenByCells};

/// Whatever the nodes of a cluster did in threads, and in whatever order: where the log of each is a local run with its clocks, and
/// takes the messages that the other end's log sends, the journal that all logs make, by their clocks, is lawful for sound code.
/// Losses, breaks and rejoins are entries like others.
pub fn merged_is_lawful()
    ensures { MergedIsLawful }
{}

/// A journal that has all entries of the logs, in which clocks don't fall, is the journal that they make: the clocks of one log
/// climb, so whatever becomes of entries of several nodes at one clock, each node's own stand as in its log.
pub fn gathered_is_merged()
    ensures { GatheredIsMerged }
{}

/// Where the cells of a sound program stand, and each end of a connection knows all that is in its ring, the journal that is gathered
/// of their logs is lawful.
pub fn gathered_is_lawful()
    ensures { GatheredIsLawful }
{}

/// The weight of the journal that is gathered of cells is the sum of the weights of their logs.
pub fn gathered_weight()
    ensures { GatheredWeight }
{}

/// Which slots are open in the journal that is gathered of the cells of a host is told by their cores, by how many messages were sent
/// and accepted, and by how often connections broke and were taken up.
pub fn open_by_cells()
    ensures { OpenByCells }
{}

/// So is whether any slot is open: one of which that is told, or none.
pub fn any_open_by_cells()
    ensures { AnyOpenByCells }
{}

/// So is whether the journal is finished.
pub fn finished_by_cells()
    ensures { FinishedByCells }
{}

/// No message of a lawful journal is bad: whatever the server answers to the message that comes next of a client, it takes it, or the
/// client was lost.
pub fn no_message_is_bad()
    ensures { NoMessageIsBad }
{}
