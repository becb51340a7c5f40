//! A client before its first entry (`specs/Openings.antt`).
ghost use Rattle.std.specs.List.{AllByRecursion};
ghost use Rattle.std.specs.Prelude.{◌≡◌, ◌≢◌, None, map, length, IfOk};
ghost use Rattle.dso_machine.specs.declared.code.Code.{Code};
ghost use Rattle.dso_machine.specs.Next.{body_of};
ghost use Rattle.dso_machine.specs.Sound.{IsSoundCode};
ghost use Rattle.dso_client.specs.Openings.{HasThreads, IsAtStart, IsOpening, first_threads};
ghost use Rattle.dso_client.specs.CodeRuns.{IsOfCode, IsNextOf};

use crate::thread_context::ThreadContext;
use dso_base::{NoMemory, Request, ThreadId};
use dso_machine::{Code, Thread};
use dso_txn::{OpenBlock, Privates};
use std::alloc::Global;

/// The next request of a thread that runs the code, None where it has ended.
pub(crate) fn next_request(
    alloc: Global,
    code: &Code,
    id: ThreadId,
    thread: &mut Thread,
) -> Result<Option<Request>, NoMemory>
    requires sound { IsSoundCode code.now }
    requires runs { IsOfCode code.now id thread.old }
    ensures { IfOk result (λ next. IsNextOf code.now id thread.old thread.new next) }
{
    if thread.over() {
        return Ok(None);
    }
    let request = thread.next(alloc, code)?;
    Ok(Some(request))
}

/// The context of a thread that did nothing yet, with its first request.
fn context_of(alloc: Global, id: ThreadId, thread: Thread, next: Option<Request>) -> ThreadContext
    ensures id { result.id ≡ id }
    ensures opening { (code : Code) → IsAtStart code id thread next → IsOpening code result }
{
    ThreadContext {
        id,
        thread,
        next,
        privates: Privates::new(alloc),
        block: OpenBlock::new(alloc, id),
        seen: None,
        waiting: None,
        is_marked: false,
        last_record: None,
    }
}

/// The context of a thread that did nothing yet.
fn context(alloc: Global, code: &Code, id: ThreadId) -> Result<ThreadContext, NoMemory>
    requires sound { IsSoundCode code.now }
    requires there { body_of id code.now.bodies ≢ None }
    ensures id { IfOk result (λ context. context.id ≡ id) }
    ensures opening { IfOk result (IsOpening code.now) }
{
    let mut thread = Thread::new(alloc, code, id)?;
    match next_request(alloc, code, id, &mut thread) {
        Ok(next) => Ok(context_of(alloc, id, thread, next)),
        Err(refused) => {
            // A call, so that the proof of this function doesn't go into the thread's parts.
            drop(thread);
            Err(refused)
        }
    }
}

/// The contexts of the client's first threads.
pub(crate) fn contexts(
    alloc: Global,
    code: &Code,
    client: u8,
    threads: u8,
) -> Result<Vec<ThreadContext>, NoMemory>
    requires sound { IsSoundCode code.now }
    requires there { HasThreads code.now client threads }
    ensures ids { IfOk result (λ contexts. map (λ context. context.id) contexts.items ≡ first_threads client threads) }
    ensures many { IfOk result (λ contexts. length contexts.items ≡ threads) }
    ensures opening { IfOk result (λ contexts. AllByRecursion (IsOpening code.now) contexts.items) }
{
    let mut contexts = Vec::new(alloc);
    for at in 0..threads {
        let id = ThreadId {
            client,
            index: at + 1,
        };
        contexts.push(context(alloc, code, id)?)?;
    }
    Ok(contexts)
}
