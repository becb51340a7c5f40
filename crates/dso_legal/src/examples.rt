//! Journals of finished runs, each judged by the definitions: it is lawful, it is finished, these slots are open before
//! each of its entries, it commits this history, and it weighs so much. Each is the contract of a function that does
//! nothing.
ghost use Rattle.dso_legal.specs.examples.Counter.{CounterJournal};
ghost use Rattle.dso_legal.specs.examples.Misfits.{Misfits};
ghost use Rattle.dso_legal.specs.examples.Unfitting.{Unfitting};
ghost use Rattle.dso_legal.specs.examples.NearMisses.{NearMisses};
ghost use Rattle.dso_legal.specs.examples.Refusals.{Refusals, WrongSendings};
ghost use Rattle.dso_legal.specs.examples.Recall.{RecallJournal};
ghost use Rattle.dso_legal.specs.examples.Flush.{FlushJournal};
ghost use Rattle.dso_legal.specs.examples.Waiting.{WaitingJournal};
ghost use Rattle.dso_legal.specs.examples.TimedOutHere.{TimedOutHereJournal};
ghost use Rattle.dso_legal.specs.examples.TimedOutThere.{TimedOutThereJournal};
ghost use Rattle.dso_legal.specs.examples.CrossedTimeout.{CrossedTimeoutJournal};
ghost use Rattle.dso_legal.specs.examples.Settling.{SettlingJournal};
ghost use Rattle.dso_legal.specs.examples.Broken.{BrokenJournal};
ghost use Rattle.dso_legal.specs.examples.LostClient.{LostClientJournal};
ghost use Rattle.dso_legal.specs.examples.LostWaiters.{LostWaitersJournal};
ghost use Rattle.dso_legal.specs.examples.SettledThenLost.{SettledThenLostJournal};
ghost use Rattle.dso_legal.specs.examples.Premises.{CounterMeets, RecallMeets, FlushMeets, SettlingMeets, TimedOutHereMeets, TimedOutThereMeets, CrossedTimeoutMeets, LostClientMeets, LostWaitersMeets, SettledThenLostMeets};

/// One thread makes a counter, shares it, and adds to it under its monitor.
pub fn counter()
    ensures { CounterJournal }
{}

/// Two clients want the root's lock at Write: it passes on by a recall and a return.
pub fn recall()
    ensures { RecallJournal }
{}

/// A client that is to keep one object flushes others, and asks for one of them again.
pub fn flush()
    ensures { FlushJournal }
{}

/// A thread waits and gives its lock's lease back; a thread of another client notifies, and the server wakes the first.
pub fn waiting()
    ensures { WaitingJournal }
{}

/// A thread waits for two ticks and times out: it stands in its client's list, and is marked at once.
pub fn timed_out_here()
    ensures { TimedOutHereJournal }
{}

/// A thread whose client gave its lock back times out: the server wakes it as it takes the record of the timeout.
pub fn timed_out_there()
    ensures { TimedOutThereJournal }
{}

/// The record of a timeout crosses a notification, which wakes the thread first: the timeout then wakes nobody.
pub fn crossed_timeout()
    ensures { CrossedTimeoutJournal }
{}

/// A thread settles after a release: it goes on once the record of its release is acknowledged.
pub fn settling()
    ensures { SettlingJournal }
{}

/// A connection breaks with messages in flight, twice, and both ends take it up again.
pub fn broken()
    ensures { BrokenJournal }
{}

/// A client is lost while it has the lease of a lock, which the server then grants to the other; what the lost client
/// sends later changes nothing.
pub fn lost_client()
    ensures { LostClientJournal }
{}

/// A client is lost while its thread stands first in the server's list, after another client's thread notified: the server takes the
/// notification's record later, and wakes the next one.
pub fn lost_waiters()
    ensures { LostWaitersJournal }
{}

/// A thread settles after a release, and then its client is lost: the release is in the history, a later one isn't.
pub fn settled_then_lost()
    ensures { SettledThenLostJournal }
{}

/// Entries that break one rule each and so may not follow.
pub fn refusals()
    ensures { Refusals }
{}

/// And for what an entry sends.
pub fn wrong_sendings()
    ensures { WrongSendings }
{}

/// And for each row that says how a message fits, messages that break it.
pub fn misfits()
    ensures { Misfits }
{}

/// A program that puts a number into a root doesn't stay within its shape: in a lawful journal of it a record comes that
/// doesn't fit. So `laws::messages_fit` asks that of a program.
pub fn unfitting()
    ensures { Unfitting }
{}

/// Messages that are near to not fitting, each in a lawful journal in which it comes and fits: a request that crosses a recall of
/// the lease that was given back before it, a return that carries a waiter whose timeout is behind it, an object to a client
/// that was lost since it asked for it.
pub fn near_misses()
    ensures { NearMisses }
{}

/// What the central law asks of a journal is met by the first three journals above, by that of a thread that settles, by the
/// three in which a thread times out, one of them with a notification that crosses, and by the three in which a client is lost:
/// in the middle of a section, with a waiter in the server's list, after its thread settled; each with a program that asks what
/// the journal's scripts do, goes by the replies, and is sound.
pub fn law_applies()
    ensures counter { CounterMeets }
    ensures recall { RecallMeets }
    ensures flush { FlushMeets }
    ensures settling { SettlingMeets }
    ensures timed_out_here { TimedOutHereMeets }
    ensures timed_out_there { TimedOutThereMeets }
    ensures crossed_timeout { CrossedTimeoutMeets }
    ensures lost_client { LostClientMeets }
    ensures lost_waiters { LostWaitersMeets }
    ensures settled_then_lost { SettledThenLostMeets }
{}
