//! What an answered request makes of the locks, before anything is sent (`specs/ActEffects.antt`).
ghost use Rattle.std.specs.Prelude.{ℕ, ◌≡◌, ◌≤◌, ◌-◌, ◌^◌, suc, OnOk};
ghost use Rattle.dso_law.specs.Threads.{locks_of};
ghost use Rattle.dso_client.specs.LockEntries.{count_owed};
ghost use Rattle.dso_client.specs.ActEffects.{CountsAtMost, applied};
ghost use Rattle.dso_client.specs.LockStateStands.{LockStateStands};
ghost use Rattle.dso_client.specs.RunPoints.{RunPoint};
ghost use Rattle.dso_client.specs.RunFacts.{RunFacts};
ghost use Rattle.dso_client.specs.Turns.{AnswersNext};

use crate::act_effect::{apply_to_leases, apply_to_lists};
use crate::answered::Answered;
use crate::hold_effect::apply_to_holds;
use crate::lock_state::LockState;
use crate::thread_context::Waiting;
use dso_base::NoMemory;
use std::alloc::Global;

/// What an act makes of the holds, the leases and the lists of waiters. No lock is held more often than before by more
/// than one.
///
/// It answers `NoMemory` where an allocation was refused.
pub(crate) fn apply_to_lock_state(
    alloc: Global,
    lock_state: &mut LockState,
    act: Answered,
    waiting: Option<Waiting>,
) -> Result<(), NoMemory>
    requires counts { CountsAtMost (2 ^ 32 - 2) lock_state.old.holds }
    ensures stands { OnOk result ((clock : ℕ) (at : RunPoint) → LockStateStands at lock_state.old → RunFacts at → waiting ≡ (locks_of act.thread at.entries).waiting
        → AnswersNext at act.thread act.request act.reply act.woken → LockStateStands (applied clock act at) lock_state.new) }
    ensures most { OnOk result ((most : ℕ) → CountsAtMost most lock_state.old.holds → count_owed waiting ≤ most → CountsAtMost (suc most) lock_state.new.holds) }
{
    apply_to_holds(alloc, &mut lock_state.holds, act, waiting)?;
    apply_to_leases(&mut lock_state.leases, act);
    apply_to_lists(alloc, &mut lock_state.lists, act)
}
