//! What a thread asks next, by the machine.
ghost use Rattle.std.specs.Prelude.{◌≡◌, ◌≢◌, ◌∷◌, ◌++◌, [], None, IfOk, IsTrue, OnOk, List};
ghost use Rattle.dso_base.specs.declared.lock.ThreadId.{ThreadId};
ghost use Rattle.dso_base.specs.declared.request.Event.{Event};
ghost use Rattle.dso_machine.specs.Next.{body_of, next_request};
ghost use Rattle.dso_machine.specs.Sound.{IsSoundCode};
ghost use Rattle.dso_machine.specs.Standing.{ThreadStands};
ghost use Rattle.dso_plain.specs.History.{events_of};
ghost use Rattle.report_cases.specs.LegalRun.{CanFollow, FollowsCode};

use dso_base::{Event, NoMemory, Request, ThreadId};
use dso_machine::{Code, Thread, ThreadBody};
use std::alloc::Global;

/// What a thread of the code asks after its events among these, which follow the code; None after its end. The thread
/// runs from its start on with the replies that the events have.
pub(crate) fn next_request(
    alloc: Global,
    code: &Code,
    thread: ThreadId,
    events: &[Event],
) -> Result<Option<Request>, NoMemory>
    requires sound { IsSoundCode code.now }
    requires there { body_of thread code.now.bodies ≢ None }
    requires follows { FollowsCode code.now thread events.now }
    ensures { IfOk result (λ asked. asked ≡ next_request code.now thread (events_of thread events.now)) }
{
    let mut run = Thread::new(alloc, code, thread)?;
    let asked = ask_after(alloc, code, &mut run, thread, events);
    // A call, so that the proof of this function doesn't go into the parts of a thread.
    drop(run);
    asked
}

/// What a thread that stands for no events asks after its events among these, which follow the code; None after its
/// end.
fn ask_after(
    alloc: Global,
    code: &Code,
    run: &mut Thread,
    thread: ThreadId,
    events: &[Event],
) -> Result<Option<Request>, NoMemory>
    requires sound { IsSoundCode code.now }
    requires stands { ThreadStands code.now thread run.old [] }
    requires follows { FollowsCode code.now thread events.now }
    ensures { IfOk result (λ asked. asked ≡ next_request code.now thread (events_of thread events.now)) }
{
    follow_all(alloc, code, run, thread, events)?;
    ask(alloc, code, run)
}

/// What a thread that stands for some events asks next; None after its end.
fn ask(alloc: Global, code: &Code, run: &mut Thread) -> Result<Option<Request>, NoMemory>
    requires { IsSoundCode code.now }
    ensures { IfOk result (λ asked. (thread : ThreadId) (events : List Event) → ThreadStands code.now thread run.old events → asked ≡ next_request code.now thread events) }
{
    if run.over() {
        return Ok(None);
    }
    Ok(Some(run.next(alloc, code)?))
}

/// Follows these events, each in its turn.
fn follow_all(
    alloc: Global,
    code: &Code,
    run: &mut Thread,
    thread: ThreadId,
    events: &[Event],
) -> Result<(), NoMemory>
    requires sound { IsSoundCode code.now }
    requires stands { ThreadStands code.now thread run.old [] }
    requires follows { FollowsCode code.now thread events.now }
    ensures { OnOk result (ThreadStands code.now thread run.new (events_of thread events.now)) }
{
    for event in events {
        follow(alloc, code, run, thread, event)?;
    }
    Ok(())
}

/// Follows an event: where it is the thread's, it takes the reply.
fn follow(
    alloc: Global,
    code: &Code,
    run: &mut Thread,
    thread: ThreadId,
    event: &Event,
) -> Result<(), NoMemory>
    requires sound { IsSoundCode code.now }
    requires next { CanFollow code.now thread run.old event.now }
    ensures { OnOk result ((events : List Event) → ThreadStands code.now thread run.old events → ThreadStands code.now thread run.new (events ++ events_of thread (event.now ∷ []))) }
{
    match event {
        Event::Act {
            thread: actor,
            reply,
            ..
        } if *actor == thread => {
            run.next(alloc, code)?;
            run.answer(*reply);
            Ok(())
        }
        _ => Ok(()),
    }
}

/// Whether the thread is one of these.
pub(crate) fn is_there(bodies: &[ThreadBody], thread: ThreadId) -> bool
    ensures { IsTrue result → body_of thread bodies.now ≢ None }
{
    match bodies {
        [] => false,
        [body, rest @ ..] => body.thread == thread || is_there(rest, thread),
    }
}
