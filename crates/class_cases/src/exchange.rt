//! What the first thread of a text asks, each request with the reply that it is given or with what the thread holds there.

ghost use Rattle.dso_config.specs.InRange.{IsInRange};
ghost use Rattle.dso_machine.specs.Sound as machine;

use crate::names::{program_of, refusal_line};
use case_words::{is_listed, reply};
use dso_base::{NoMemory, Reply, Request};
use dso_config::Config;
use dso_machine::{Code, Thread};
use std::alloc::{AllocError, Global};
use std::fmt::Write;

/// What is printed beside each request.
#[derive(Clone, Copy)]
pub(crate) enum Beside {
    /// The reply to it.
    Reply,
    /// The objects that the thread holds where it is out.
    Held,
}

/// What a thread is answered, with `; ` between the replies, and what is printed beside its requests.
#[derive(Clone, Copy)]
pub(crate) struct Answers<'a> {
    pub(crate) replies: &'a str,
    pub(crate) beside: Beside,
}

/// What the first thread of a text asks, by these replies.
pub(crate) fn exchanges(
    alloc: Global,
    config: &Config,
    text: &str,
    answers: Answers,
) -> Result<String, NoMemory>
    requires { IsInRange config.now }
{
    match program_of(alloc, config, text.as_bytes()) {
        Ok(program) => exchanges_of(alloc, &program.code, answers),
        Err(refusal) => refusal_line(alloc, refusal),
    }
}

/// Why a thread goes no further along its replies.
#[derive(Clone, Copy)]
enum Stop {
    /// It has ended.
    Ended,
    /// The reply can't be read.
    Unread,
    /// The reply isn't listed for the request.
    Unlisted(Request, Reply),
    NoMemory(NoMemory),
}

impl From<AllocError> for Stop {
    fn from(refused: AllocError) -> Self {
        Stop::NoMemory(NoMemory::from(refused))
    }
}

impl From<NoMemory> for Stop {
    fn from(refusal: NoMemory) -> Self {
        Stop::NoMemory(refusal)
    }
}

/// What the first thread of the code asks, and whether it ended behind the last reply.
#[tactic(auto, using(crate::proofs::FirstBody::first_there))]
fn exchanges_of(alloc: Global, code: &Code, answers: Answers) -> Result<String, NoMemory>
    requires { machine.IsSoundCode code.now }
{
    let Some(body) = code.bodies.get(0) else {
        return Ok(String::from_str(alloc, "no thread\n")?);
    };
    let mut thread = Thread::new(alloc, code, body.thread)?;
    let mut asked = String::new(alloc);
    for words in answers.replies.split("; ") {
        match exchange(alloc, code, &mut thread, words) {
            Ok(answered) => add_exchange(&mut asked, &answered, answers.beside)?,
            Err(stop) => {
                let line = stop_line(alloc, stop, words)?;
                asked.push_str(line.as_str())?;
                return Ok(asked);
            }
        }
    }
    asked.push_str(if thread.over() {
        "ended\n"
    } else {
        "goes on\n"
    })?;
    Ok(asked)
}

/// The line that says why a thread goes no further at a reply in these words.
fn stop_line(alloc: Global, stop: Stop, words: &str) -> Result<String, NoMemory> {
    match stop {
        Stop::Ended => Ok(format!(in alloc; "ended before {words}\n")?),
        Stop::Unread => Ok(format!(in alloc; "no reply: {words}\n")?),
        Stop::Unlisted(request, reply) => {
            Ok(format!(in alloc; "{request:?} is not answered {reply:?}\n")?)
        }
        Stop::NoMemory(refusal) => Err(refusal),
    }
}

/// What a thread asked, its reply, and what the thread held where it asked, each object once and in their order.
#[derive(Drop)]
struct Answered {
    request: Request,
    reply: Reply,
    held: Vec<u64>,
}

/// What the thread asks next and what it holds there, with its reply.
fn exchange(alloc: Global, code: &Code, thread: &mut Thread, words: &str) -> Result<Answered, Stop>
    requires { machine.IsSoundCode code.now }
{
    if thread.over() {
        return Err(Stop::Ended);
    }
    let request = thread.next(alloc, code)?;
    let reply = reply(words).ok_or(Stop::Unread)?;
    if !is_listed(request, reply) {
        return Err(Stop::Unlisted(request, reply));
    }
    let mut held = thread.named(alloc)?;
    held.sort_unstable();
    held.dedup();
    thread.answer(reply);
    Ok(Answered {
        request,
        reply,
        held,
    })
}

/// Adds the line of an exchange.
fn add_exchange(words: &mut String, answered: &Answered, beside: Beside) -> Result<(), NoMemory> {
    let request = answered.request;
    match beside {
        Beside::Reply => writeln!(words, "{request:?} -> {:?}", answered.reply)?,
        Beside::Held => writeln!(words, "{request:?}, held {:?}", answered.held)?,
    }
    Ok(())
}
