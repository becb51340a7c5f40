//! What an answered request makes of the holds, before anything is sent (`specs/ActEffects.antt`).
ghost use Rattle.std.specs.Prelude.{ℕ, ◌≡◌, ◌≤◌, ◌<◌, ◌+◌, ◌-◌, ◌^◌, suc, None, Some, OnOk};
ghost use Rattle.std.specs.Option.{option_map_or};
ghost use Rattle.dso_base.specs.declared.lock.Level.TheVariants.{Write};
ghost use Rattle.dso_base.specs.declared.request.Reply.TheVariants.{Done};
ghost use Rattle.dso_base.specs.declared.request.Request.TheVariants.{Enter, Exit, Resume, Wait};
ghost use Rattle.dso_hold.specs.Holds.{NoConflict, count_at, entered, hold_in, with_hold};
ghost use Rattle.dso_law.specs.Threads.{locks_of};
ghost use Rattle.dso_client.specs.LockEntries.{IsLetIn, count_owed};
ghost use Rattle.dso_client.specs.ActEffects.{CountsAtMost, HoldsStand, applied};
ghost use Rattle.dso_client.specs.RunPoints.{RunPoint};
ghost use Rattle.dso_client.specs.RunFacts.{RunFacts};
ghost use Rattle.dso_client.specs.Turns.{AnswersNext};

use crate::answered::Answered;
use crate::locks::WantedEntry;
use crate::thread_context::Waiting;
use dso_base::{Level, LockName, NoMemory, Reply, Request, ThreadId};
use dso_hold::Hold;
use std::alloc::Global;

/// A thread that waits gives its whole hold of the lock up. It takes no memory.
pub(crate) fn apply_wait(holds: &mut Hold, act: Answered, lock: LockName)
    ensures stands { (clock : ℕ) (at : RunPoint) → HoldsStand at holds.old → act.request ≡ Wait lock → act.reply ≡ Done → HoldsStand (applied clock act at) holds.new }
    ensures most { (most : ℕ) → CountsAtMost most holds.old → CountsAtMost most holds.new }
{
    let count = holds.count(act.thread, lock);
    holds.exit(act.thread, lock, count);
}

/// A thread that leaves the lock once has one entry less. It takes no memory.
fn apply_exit(holds: &mut Hold, act: Answered, lock: LockName)
    ensures stands { (clock : ℕ) (at : RunPoint) → HoldsStand at holds.old → RunFacts at → act.request ≡ Exit lock → act.reply ≡ Done → HoldsStand (applied clock act at) holds.new }
    ensures most { (most : ℕ) → CountsAtMost most holds.old → CountsAtMost most holds.new }
{
    holds.exit(act.thread, lock, 1);
}

/// A thread enters so many times, where it is let in.
fn enter(alloc: Global, holds: &mut Hold, wanted: WantedEntry, count: u32) -> Result<(), NoMemory>
    requires once { 1 ≤ count }
    requires fits { count_at (hold_in holds.old (wanted.lock, wanted.thread)) + count < 2 ^ 32 }
    ensures entered { OnOk result (IsLetIn wanted.thread wanted.lock wanted.level (hold_in holds.old)
        → hold_in holds.new ≡ with_hold wanted.lock wanted.thread (Some (entered wanted.level count (hold_in holds.old (wanted.lock, wanted.thread)))) (hold_in holds.old)) }
    ensures most { OnOk result ((most : ℕ) → CountsAtMost most holds.old → count_at (hold_in holds.old (wanted.lock, wanted.thread)) + count ≤ most → CountsAtMost most holds.new) }
{
    holds.enter(alloc, wanted.thread, wanted.lock, wanted.level, count)?;
    Ok(())
}

/// An entry that is done.
fn apply_enter(
    alloc: Global,
    holds: &mut Hold,
    act: Answered,
    lock: LockName,
    level: Level,
) -> Result<(), NoMemory>
    requires counts { CountsAtMost (2 ^ 32 - 2) holds.old }
    ensures stands { OnOk result ((clock : ℕ) (at : RunPoint) → HoldsStand at holds.old → RunFacts at → act.request ≡ Enter lock level → act.reply ≡ Done
        → AnswersNext at act.thread act.request act.reply act.woken → HoldsStand (applied clock act at) holds.new) }
    ensures most { OnOk result ((most : ℕ) → CountsAtMost most holds.old → CountsAtMost (suc most) holds.new) }
{
    let wanted = WantedEntry {
        thread: act.thread,
        lock,
        level,
    };
    enter(alloc, holds, wanted, 1)
}

/// A thread has a hold at `Write` of this count, in place of what it held of the lock.
fn hold_again(
    alloc: Global,
    holds: &mut Hold,
    thread: ThreadId,
    lock: LockName,
    count: u32,
) -> Result<(), NoMemory>
    ensures held { OnOk result (1 ≤ count → NoConflict thread lock Write (hold_in holds.old)
        → hold_in holds.new ≡ with_hold lock thread (Some (record { level = Write; count = count })) (hold_in holds.old)) }
    ensures most { OnOk result ((most : ℕ) → CountsAtMost most holds.old → count ≤ most → CountsAtMost most holds.new) }
{
    let before = holds.count(thread, lock);
    holds.exit(thread, lock, before);
    if count == 0 {
        return Ok(());
    }
    let wanted = WantedEntry {
        thread,
        lock,
        level: Level::Write,
    };
    enter(alloc, holds, wanted, count)
}

/// A resume: the thread has its hold again, with the count that it had as it began to wait.
fn apply_resume(
    alloc: Global,
    holds: &mut Hold,
    act: Answered,
    lock: LockName,
    waiting: Option<Waiting>,
) -> Result<(), NoMemory>
    ensures stands { OnOk result ((clock : ℕ) (at : RunPoint) → HoldsStand at holds.old → RunFacts at → act.request ≡ Resume lock → act.reply ≡ Done
        → waiting ≡ (locks_of act.thread at.entries).waiting → AnswersNext at act.thread act.request act.reply act.woken → HoldsStand (applied clock act at) holds.new) }
    ensures most { OnOk result ((most : ℕ) → CountsAtMost most holds.old → count_owed waiting ≤ most → CountsAtMost most holds.new) }
{
    match waiting {
        Some(waiting) => hold_again(alloc, holds, act.thread, lock, waiting.count()),
        None => Ok(()),
    }
}

/// What a done act makes of the holds.
fn done_holds(
    alloc: Global,
    holds: &mut Hold,
    act: Answered,
    waiting: Option<Waiting>,
) -> Result<(), NoMemory>
    requires counts { CountsAtMost (2 ^ 32 - 2) holds.old }
    ensures stands { OnOk result ((clock : ℕ) (at : RunPoint) → HoldsStand at holds.old → RunFacts at → act.reply ≡ Done
        → waiting ≡ (locks_of act.thread at.entries).waiting → AnswersNext at act.thread act.request act.reply act.woken → HoldsStand (applied clock act at) holds.new) }
    ensures most { OnOk result ((most : ℕ) → CountsAtMost most holds.old → count_owed waiting ≤ most → CountsAtMost (suc most) holds.new) }
{
    match act.request {
        Request::Enter(lock, level) => apply_enter(alloc, holds, act, lock, level),
        Request::Exit(lock) => {
            apply_exit(holds, act, lock);
            Ok(())
        }
        Request::Wait(lock) => {
            apply_wait(holds, act, lock);
            Ok(())
        }
        Request::Resume(lock) => apply_resume(alloc, holds, act, lock, waiting),
        _ => Ok(()),
    }
}

/// What an act makes of the holds: an entry and an exit count one up and one down; a wait gives the whole hold up, and
/// a resume has it again. No lock is held more often than before by more than one.
///
/// It answers `NoMemory` where an allocation was refused.
pub(crate) fn apply_to_holds(
    alloc: Global,
    holds: &mut Hold,
    act: Answered,
    waiting: Option<Waiting>,
) -> Result<(), NoMemory>
    requires counts { CountsAtMost (2 ^ 32 - 2) holds.old }
    ensures stands { OnOk result ((clock : ℕ) (at : RunPoint) → HoldsStand at holds.old → RunFacts at → waiting ≡ (locks_of act.thread at.entries).waiting
        → AnswersNext at act.thread act.request act.reply act.woken → HoldsStand (applied clock act at) holds.new) }
    ensures most { OnOk result ((most : ℕ) → CountsAtMost most holds.old → count_owed waiting ≤ most → CountsAtMost (suc most) holds.new) }
{
    match act.reply {
        Reply::Done => done_holds(alloc, holds, act, waiting),
        _ => Ok(()),
    }
}
