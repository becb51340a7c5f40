//! What a thread does next (`specs/ThreadActs.antt`).
ghost use Rattle.std.specs.Prelude.{ℕ, ◌≡◌, ◌≤◌, ◌<◌, ◌+◌, ◌-◌, ◌^◌, suc, IfOk, OnOk, Some, None};
ghost use Rattle.dso_machine.specs.Sound.{IsSoundCode};
ghost use Rattle.dso_client.specs.ThreadActs.{Acts, HoldsAtMost, LeavesAlone, TakesTurn};
ghost use Rattle.dso_client.specs.CodeRuns.{RunsCode};
ghost use Rattle.dso_client.specs.declared.acted.Acted.TheVariants as acted;
ghost use Rattle.dso_client.specs.ActEffects.{event_of};
ghost use Rattle.dso_client.specs.ContextPlaces.{context_in};
ghost use Rattle.dso_client.specs.Turns.{IsTurnOfContext};

use crate::acted::Acted;
use crate::answered::Answered;
use crate::answered_act::act_answering;
use crate::asked_act::act_asking;
use crate::client_state::ClientState;
use crate::turn::{Turn, turn_at};
use dso_base::{Event, NoMemory, Request, ThreadId, Up};
use dso_machine::Code;
use std::alloc::Global;

/// The event that an answer makes.
fn event_of(act: Answered) -> Event
    ensures { result ≡ event_of act }
{
    Event::Act {
        thread: act.thread,
        request: act.request,
        reply: act.reply,
        woken: act.woken,
    }
}

/// The thread of this index takes its turn, which comes to this with its next request.
///
/// It answers `NoMemory` where an allocation was refused.
fn take_turn(
    alloc: Global,
    code: &Code,
    kept: &mut ClientState,
    index: u8,
    next: (Request, Turn),
) -> Result<(Acted, Vec<Up>), NoMemory>
    requires sound { IsSoundCode code.now }
    requires runs { RunsCode code.now kept.old }
    requires few { kept.old.sequences.records < 2 ^ 62 }
    requires counts { HoldsAtMost (2 ^ 32 - 2) kept.old }
    requires its { IsTurnOfContext (context_in kept.old.contexts.items index) (Some next) }
    ensures acts { IfOk result (λ made. TakesTurn code.now index next.0 next.1 kept.old kept.new made.0 made.1.items) }
    ensures alone { IfOk result (λ made. LeavesAlone made.0 made.1.items kept.old kept.new) }
    ensures runs { OnOk result (RunsCode code.now kept.new) }
    ensures records { OnOk result (kept.new.sequences.records ≤ kept.old.sequences.records + 1) }
    ensures holds { OnOk result ((most : ℕ) → HoldsAtMost most kept.old → HoldsAtMost (suc most) kept.new) }
    ensures spent { kept.new.spent ≡ kept.old.spent }
{
    let (request, turn) = next;
    match turn {
        Turn::AnswersNext(reply, woken) => {
            let client = kept.number;
            let act = Answered {
                thread: ThreadId { client, index },
                request,
                reply,
                woken,
            };
            let sent = act_answering(alloc, code, kept, act)?;
            Ok((Acted::Event(event_of(act)), sent))
        }
        Turn::Asks(message) => {
            let sent = act_asking(alloc, kept, index, message)?;
            Ok((Acted::Asked, sent))
        }
        Turn::Waits(cause) => Ok((Acted::Blocked(cause), Vec::new(alloc))),
    }
}

/// The thread of this index makes its next request, where it can: the request is answered, or what it lacks is asked
/// for. Nothing is changed or sent where it can't, and where there is no such request.
///
/// It answers `NoMemory` where an allocation was refused.
pub(crate) fn act(
    alloc: Global,
    code: &Code,
    kept: &mut ClientState,
    index: u8,
) -> Result<(Acted, Vec<Up>), NoMemory>
    requires sound { IsSoundCode code.now }
    requires runs { RunsCode code.now kept.old }
    requires few { kept.old.sequences.records < 2 ^ 62 }
    requires counts { HoldsAtMost (2 ^ 32 - 2) kept.old }
    ensures acts { IfOk result (λ made. Acts code.now index kept.old kept.new made.0 made.1.items) }
    ensures alone { IfOk result (λ made. LeavesAlone made.0 made.1.items kept.old kept.new) }
    ensures absent { context_in kept.old.contexts.items index ≡ None → IfOk result (λ made. made.0 ≡ acted.Over) }
    ensures runs { OnOk result (RunsCode code.now kept.new) }
    ensures records { OnOk result (kept.new.sequences.records ≤ kept.old.sequences.records + 1) }
    ensures holds { OnOk result ((most : ℕ) → HoldsAtMost most kept.old → HoldsAtMost (suc most) kept.new) }
    ensures spent { kept.new.spent ≡ kept.old.spent }
{
    match turn_at(kept, &code.shape, index) {
        Some(next) => take_turn(alloc, code, kept, index, next),
        None => Ok((Acted::Over, Vec::new(alloc))),
    }
}
