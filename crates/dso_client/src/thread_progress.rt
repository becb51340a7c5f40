//! A thread hears a reply and goes on to its next request (`specs/ThreadProgress.antt`).
ghost use Rattle.std.specs.List.{AllByRecursion};
ghost use Rattle.std.specs.Prelude.{◌≡◌, IfOk};
ghost use Rattle.dso_base.specs.Following.{IsListedFor};
ghost use Rattle.dso_machine.specs.Sound.{IsSoundCode};
ghost use Rattle.dso_client.specs.CodeRuns.{ContextRuns};
ghost use Rattle.dso_client.specs.ThreadProgress.{GoesOn, HasGoneOn, next_at, with_next};

use crate::opening::next_request;
use crate::thread_context::ThreadContext;
use dso_base::{NoMemory, Reply, Request};
use dso_machine::Code;
use std::alloc::Global;

/// The thread hears the reply to the request that is out; its next request, None where it has ended.
///
/// It answers `NoMemory` where an allocation was refused.
fn go_on(
    alloc: Global,
    code: &Code,
    context: &mut ThreadContext,
    reply: Reply,
) -> Result<Option<Request>, NoMemory>
    requires sound { IsSoundCode code.now }
    requires runs { ContextRuns code.now context.old }
    requires listed { IsListedFor context.old.next reply }
    ensures goes { IfOk result (GoesOn code.now context.old.id reply context.old.thread context.new.thread) }
    ensures rest { context.new ≡ record context.old { thread = context.new.thread } }
{
    context.thread.answer(reply);
    next_request(alloc, code, context.id, &mut context.thread)
}

/// The thread of this index, which has a request out, hears the reply; its next request, None where it has ended. Its
/// context still has the request that was answered.
///
/// It answers `NoMemory` where an allocation was refused.
pub(crate) fn go_on_at(
    alloc: Global,
    code: &Code,
    contexts: &mut [ThreadContext],
    index: u8,
    reply: Reply,
) -> Result<Option<Request>, NoMemory>
    requires sound { IsSoundCode code.now }
    requires runs { AllByRecursion (ContextRuns code.now) contexts.old }
    requires listed { IsListedFor (next_at contexts.old index) reply }
    ensures { IfOk result (HasGoneOn code.now index reply contexts.old contexts.new) }
{
    let at = index as usize - 1;
    go_on(alloc, code, &mut contexts[at], reply)
}

/// The thread of this index has this next request, where there is one. It takes no memory.
pub(crate) fn set_next(contexts: &mut [ThreadContext], index: u8, next: Option<Request>)
    ensures { contexts.new ≡ with_next index next contexts.old }
{
    if index == 0 {
        return;
    }
    let at = index as usize - 1;
    if at < contexts.len() {
        contexts[at].next = next;
    }
}
