//! What a thread asks that makes one call of a map, and what it holds meanwhile.

ghost use Rattle.std.specs.Prelude.{◌≢◌, None};
ghost use Rattle.dso_machine.specs.Next.{body_of};
ghost use Rattle.dso_machine.specs.Sound as machine;

use crate::fields::Fields;
use crate::map::MAP;
use crate::program::{MAPS, THREAD};
use case_words::is_listed;
use dso_base::{ClassId, NoMemory, Reply, Request};
use dso_machine::{Code, Thread};
use std::alloc::Global;

/// The object that a thread makes for an argument.
const OBJECT: u64 = 7;

/// What a thread asked, and the objects that it held there, each once and in their order.
#[derive(Drop)]
pub struct Asked {
    pub request: Request,
    pub held: Vec<u64>,
}

/// What the thread of the code asks, up to its end, where these fields answer it.
pub fn asked_by(alloc: Global, code: &Code, fields: &mut Fields) -> Result<Vec<Asked>, NoMemory>
    requires sound { machine.IsSoundCode code.now }
    requires there { body_of (record { client = 1; index = 1 }) code.now.bodies ≢ None }
{
    let mut thread = Thread::new(alloc, code, THREAD)?;
    let asked = asked_to_end(alloc, code, &mut thread, fields);
    // A call, so that the proof of this function doesn't go into the parts of a thread.
    drop(thread);
    asked
}

/// What the thread asks, up to its end.
fn asked_to_end(
    alloc: Global,
    code: &Code,
    thread: &mut Thread,
    fields: &mut Fields,
) -> Result<Vec<Asked>, NoMemory>
    requires { machine.IsSoundCode code.now }
{
    let mut asked = Vec::new(alloc);
    for _ in 0..1000u32 {
        match ask(alloc, code, thread, fields)? {
            Some(request) => asked.push(request)?,
            None => break,
        }
    }
    Ok(asked)
}

/// What the thread asks next, which is answered; None behind its end.
fn ask(
    alloc: Global,
    code: &Code,
    thread: &mut Thread,
    fields: &mut Fields,
) -> Result<Option<Asked>, NoMemory>
    requires { machine.IsSoundCode code.now }
{
    if thread.over() {
        return Ok(None);
    }
    let request = thread.next(alloc, code)?;
    let mut held = thread.named(alloc)?;
    held.sort_unstable();
    held.dedup();
    let reply = reply_to(fields, request);
    if is_listed(request, reply) {
        thread.answer(reply);
    }
    Ok(Some(Asked { request, held }))
}

/// The reply to a request: the fields tell and take their values, and all else is done.
fn reply_to(fields: &mut Fields, request: Request) -> Reply {
    match request {
        Request::New(ClassId::Plain(MAPS), _) => Reply::Made(MAP),
        Request::New(_, _) => Reply::Made(OBJECT),
        Request::Look(_) => Reply::Seen(ClassId::Plain(MAPS), 769),
        Request::Get(_, _) | Request::Put(_, _, _) => fields.reply(request),
        _ => Reply::Done,
    }
}
