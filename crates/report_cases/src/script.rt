//! What is done in a case, word by word: `1.2` is an act of the second thread of client 1, `1.2*` are all acts that it
//! can make now, and `loss:2` is the loss of client 2; `-` is nothing.
ghost use Rattle.std.specs.Prelude.{◌≡◌, ◌≢◌, Some, None, false, IfOk, OnOk};
ghost use Rattle.dso_class.specs.Sound.{IsSoundProgram};
ghost use Rattle.dso_machine.specs.Next.{body_of, next_request};
ghost use Rattle.dso_plain.specs.History.{events_of};
ghost use Rattle.report_cases.specs.LegalRun.{IsLegalRun};

use crate::cases::Unreported;
use crate::legal_run::LegalRun;
use crate::next_request::{is_there, next_request};
use crate::replies::{PLAIN_REPLIES, told};
use case_words::{is_listed, small, thread};
use dso_base::{Event, NoMemory, Reply, Request, ThreadId};
use dso_class::Program;
use std::alloc::Global;

/// The most acts of one word.
const MOST_ACTS: u32 = 1000;

/// Does what each word of the script tells.
pub(crate) fn play(
    alloc: Global,
    program: &Program,
    run: &mut LegalRun,
    script: &str,
) -> Result<(), Unreported>
    requires sound { IsSoundProgram program.now }
    requires legal { IsLegalRun program.now run.old }
    ensures { OnOk result (IsLegalRun program.now run.new) }
{
    for word in script.split(' ') {
        play_word(alloc, program, run, word)?;
    }
    Ok(())
}

/// Does what a word tells.
fn play_word(
    alloc: Global,
    program: &Program,
    run: &mut LegalRun,
    word: &str,
) -> Result<(), Unreported>
    requires sound { IsSoundProgram program.now }
    requires legal { IsLegalRun program.now run.old }
    ensures { OnOk result (IsLegalRun program.now run.new) }
{
    if word == "-" {
        return Ok(());
    }
    if let Some(client) = word.strip_prefix("loss:") {
        return lose(alloc, program, run, client);
    }
    match word.strip_suffix("*") {
        Some(name) => act_on(alloc, program, run, thread_of(program, name)?),
        None => act_once(alloc, program, run, thread_of(program, word)?),
    }
}

/// Lets a thread make one act, which it has to be able to make.
fn act_once(
    alloc: Global,
    program: &Program,
    run: &mut LegalRun,
    thread: ThreadId,
) -> Result<(), Unreported>
    requires sound { IsSoundProgram program.now }
    requires there { body_of thread program.now.code.bodies ≢ None }
    requires legal { IsLegalRun program.now run.old }
    ensures { OnOk result (IsLegalRun program.now run.new) }
{
    if act(alloc, program, run, thread)? {
        Ok(())
    } else {
        Err(Unreported::Script)
    }
}

/// Lets a thread make all acts that it can make now.
fn act_on(
    alloc: Global,
    program: &Program,
    run: &mut LegalRun,
    thread: ThreadId,
) -> Result<(), Unreported>
    requires sound { IsSoundProgram program.now }
    requires there { body_of thread program.now.code.bodies ≢ None }
    requires legal { IsLegalRun program.now run.old }
    ensures { OnOk result (IsLegalRun program.now run.new) }
{
    for _ in 0..MOST_ACTS {
        if !act(alloc, program, run, thread)? {
            break;
        }
    }
    Ok(())
}

/// The thread that is told by its client and its number there, if the program has it.
fn thread_of(program: &Program, name: &str) -> Result<ThreadId, Unreported>
    ensures { IfOk result (λ thread. body_of thread program.now.code.bodies ≢ None) }
{
    match thread(name) {
        Some(thread) if is_there(program.code.bodies.as_slice(), thread) => Ok(thread),
        _ => Err(Unreported::Script),
    }
}

/// Loses a client that is still there.
fn lose(
    alloc: Global,
    program: &Program,
    run: &mut LegalRun,
    client: &str,
) -> Result<(), Unreported>
    requires legal { IsLegalRun program.now run.old }
    ensures { OnOk result (IsLegalRun program.now run.new) }
{
    let Some(client) = small(client) else {
        return Err(Unreported::Script);
    };
    if run.make(alloc, program, Event::Lost(client))? {
        Ok(())
    } else {
        Err(Unreported::Script)
    }
}

/// Lets a thread make its next act, if it can make one now. The reply is the first one offered that the heap takes.
fn act(
    alloc: Global,
    program: &Program,
    run: &mut LegalRun,
    thread: ThreadId,
) -> Result<bool, NoMemory>
    requires sound { IsSoundProgram program.now }
    requires there { body_of thread program.now.code.bodies ≢ None }
    requires legal { IsLegalRun program.now run.old }
    ensures { OnOk result (IsLegalRun program.now run.new) }
{
    let Some(request) = next_request(alloc, &program.code, thread, run.events.as_slice())? else {
        return Ok(false);
    };
    let told = told(&run.plain, run.events.len() as u64 + 1, request);
    let asked = Asked { thread, request };
    let made = offer(alloc, program, run, asked, &[told])?;
    if made {
        return Ok(true);
    }
    offer(alloc, program, run, asked, PLAIN_REPLIES)
}

/// What a thread asks for next.
#[derive(Clone, Copy)]
struct Asked {
    thread: ThreadId,
    request: Request,
}

/// Makes the act with the first of these replies that is listed and that the heap takes, and answers whether there is
/// one.
fn offer(
    alloc: Global,
    program: &Program,
    run: &mut LegalRun,
    asked: Asked,
    replies: &[Reply],
) -> Result<bool, NoMemory>
    requires legal { IsLegalRun program.now run.old }
    requires asks { next_request program.now.code asked.thread (events_of asked.thread run.old.events.items) ≡ Some asked.request }
    ensures legal { OnOk result (IsLegalRun program.now run.new) }
    ensures asks { IfOk result (λ made. made ≡ false → next_request program.now.code asked.thread (events_of asked.thread run.new.events.items) ≡ Some asked.request) }
{
    let [reply, rest @ ..] = replies else {
        return Ok(false);
    };
    if try_reply(alloc, program, run, asked, *reply)? {
        return Ok(true);
    }
    offer(alloc, program, run, asked, rest)
}

/// Makes the act with this reply, if it is listed and the heap takes it, and answers whether it does.
#[tactic(auto, using(crate::proofs::LegalRuns::asks_still))]
fn try_reply(
    alloc: Global,
    program: &Program,
    run: &mut LegalRun,
    asked: Asked,
    reply: Reply,
) -> Result<bool, NoMemory>
    requires legal { IsLegalRun program.now run.old }
    requires asks { next_request program.now.code asked.thread (events_of asked.thread run.old.events.items) ≡ Some asked.request }
    ensures legal { OnOk result (IsLegalRun program.now run.new) }
    ensures asks { IfOk result (λ made. made ≡ false → next_request program.now.code asked.thread (events_of asked.thread run.new.events.items) ≡ Some asked.request) }
{
    if !is_listed(asked.request, reply) {
        return Ok(false);
    }
    let act = Event::Act {
        thread: asked.thread,
        request: asked.request,
        reply,
        woken: None,
    };
    run.make(alloc, program, act)
}
