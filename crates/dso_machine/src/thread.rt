//! A thread of a program: what it asks, by what it was answered.
ghost use Rattle.std.specs.Prelude.{ℕ, ◌≡◌, ◌≢◌, ◌++◌, ◌∷◌, ◌↔◌, [], IfOk, IsTrue, List, None, Option, Some};
ghost use Rattle.std.specs.Option.{option_copied};
ghost use Rattle.dso_base.specs.declared.lock.ThreadId.{ThreadId};
ghost use Rattle.dso_base.specs.declared.request.Event.{Event};
ghost use Rattle.dso_base.specs.declared.request.Request.{Request};
ghost use Rattle.dso_base.specs.Following.{IsListedFor};
ghost use Rattle.dso_machine.specs.declared.code.Code.{Code};
ghost use Rattle.dso_machine.specs.declared.thread.Due.{Due};
ghost use Rattle.dso_machine.specs.Frames.{IsAtRest, frames_after, holds_then, is_listed};
ghost use Rattle.dso_machine.specs.Next.{body_of, next_request};
ghost use Rattle.dso_machine.specs.Continuation.{IsAsk, StandsAt};
ghost use Rattle.dso_machine.specs.Sound.{IsSoundCode};
ghost use Rattle.dso_machine.specs.Standing.{IsAnswered, IsOver, Resumes, ThreadStands, StandsFor, asked, asked_at, asked_by, is_over};

use crate::call::variables;
use crate::continuation::{Frame, Now, OnReply};
use crate::held::objects_held;
use crate::machine::Core;
use crate::on_reply::hear;
use crate::rest::Rest;
use crate::stack::Stack;
use crate::{Code, ThreadBody};
use dso_base::{Items, NoMemory, Reply, Request, ThreadId, Value};
use std::alloc::Global;
use std::mem;

/// The most frames of a thread, that of its body among them.
const MOST_FRAMES: u32 = 64;

/// Where a thread stands.
#[derive(Debug, Drop)]
enum Due {
    /// It is about to do this; at a request it waits for its reply.
    Going(Now),
    /// The reply to its last request is there.
    Heard(Reply, OnReply),
    /// It has ended.
    Over,
}

/// A thread of a program.
///
/// A thread stands for the list of its events so far, and asks what the program asks next after them.
#[derive(Debug, Drop)]
pub struct Thread {
    due: Due,
    core: Core,
}

impl Thread {
    /// The thread before its first statement, of a program that has it.
    ///
    /// It answers NoMemory where an allocation was refused.
    #[tactic(auto, using(crate::proofs::standing::AfterEvents::stands_first))]
    pub fn new(alloc: Global, code: &Code, thread: ThreadId) -> Result<Thread, NoMemory>
        requires there { body_of thread code.now.bodies ≢ None }
        ensures { IfOk result (λ made. ThreadStands code.now thread made []) }
    {
        let Some(found) = find_body(code.bodies.as_slice(), thread) else {
            unreachable!()
        };
        let vars = variables(found.vars, Items::new(alloc))?;
        let body = found.body.again(alloc)?;
        Ok(Thread {
            due: Due::Going(Now::Run(Rest::new(body))),
            core: Core {
                frame: Frame {
                    this: Value::Null,
                    vars,
                    room: MOST_FRAMES - 1,
                },
                moves: 0,
                tasks: Stack::new(alloc),
            },
        })
    }

    /// Goes on up to the next request, and answers it.
    ///
    /// Until it is answered, the same request is given again: the thread stands for the same events. Between two requests it
    /// makes at most 1,000 moves and what lies between them. It answers NoMemory where an allocation was refused; the thread
    /// stands for no known events afterwards.
    pub fn next(&mut self, alloc: Global, code: &Code) -> Result<Request, NoMemory>
        requires sound { IsSoundCode code.now }
        requires goes { IsOver self.old → ⊥ }
        ensures stands { IfOk result (λ request. (t : ThreadId) (events : List Event) → ThreadStands code.now t self.old events → ThreadStands code.now t self.new events) }
        ensures asks { IfOk result (λ request. (t : ThreadId) (events : List Event) → ThreadStands code.now t self.old events → next_request code.now t events ≡ Some request) }
        ensures out { IfOk result (λ request. asked self.new ≡ Some request) }
    {
        let due = mem::replace(&mut self.due, Due::Over);
        let begun = resume(&mut self.core, alloc, code, due)?;
        let now = self.core.go(alloc, code, begun)?;
        let request = request_of(&now);
        put_in(&mut self.due, Due::Going(now));
        Ok(request)
    }

    /// Takes the reply to the request that is out. It takes no memory.
    pub fn answer(&mut self, reply: Reply)
        requires listed { IsListedFor (asked self.old) reply }
        ensures stands { (code : Code) (t : ThreadId) (events : List Event) (request : Request) (woken : Option ThreadId) → ThreadStands code t self.old events
            → ThreadStands code t self.new (events ++ Event.Act t request reply woken ∷ []) }
    {
        let due = mem::replace(&mut self.due, Due::Over);
        put_in(&mut self.due, answered(due, reply));
        self.core.moves = 0;
    }

    /// Whether the thread's end was answered: it asks nothing more. It takes no memory.
    pub fn over(&self) -> bool
        ensures ended { IsTrue result ↔ IsOver self.now }
        ensures asks { (code : Code) (t : ThreadId) (events : List Event) → ThreadStands code t self.now events → (IsTrue result ↔ (next_request code t events ≡ None)) }
    {
        matches!(self.due, Due::Over)
    }

    /// The objects that the thread holds where it rests: those in its frames, and those that its request names.
    ///
    /// It rests where its request is out, and where it has ended; then it holds nothing. An object is listed as often as it is held.
    /// It answers NoMemory where an allocation was refused.
    pub fn named(&self, alloc: Global) -> Result<Vec<u64>, NoMemory>
        requires rests { IsAtRest self.now }
        ensures { IfOk result (λ named. (code : Code) (t : ThreadId) (events : List Event) → ThreadStands code t self.now events
            → (o : ℕ) → is_listed o named.items ≡ holds_then (next_request code) (frames_after code) t events o) }
    {
        match &self.due {
            Due::Going(now) => objects_held(alloc, &self.core, now, request_of(now)),
            Due::Heard(_, _) => unreachable!(),
            Due::Over => Ok(Vec::new(alloc)),
        }
    }
}

/// The value stands in the place, and not what stood there.
fn put_in<T: Drop>(place: &mut T, value: T)
    ensures { place.new ≡ value }
{
    *place = value;
}

/// What the thread runs, if it is there.
fn find_body(bodies: &[ThreadBody], thread: ThreadId) -> Option<&ThreadBody>
    ensures { option_copied result ≡ body_of thread bodies.now }
{
    match bodies {
        [] => None,
        [body, ..] if body.thread == thread => Some(body),
        [_, rest @ ..] => find_body(rest, thread),
    }
}

/// What the thread is about to do, after the reply that is there was taken.
fn resume(core: &mut Core, alloc: Global, code: &Code, due: Due) -> Result<Now, NoMemory>
    requires goes { is_over due → ⊥ }
    ensures { IfOk result (λ now. Resumes code.now due core.old now core.new) }
{
    match due {
        Due::Going(now) => Ok(now),
        Due::Heard(reply, on) => hear_reply(core, alloc, code, reply, on),
        Due::Over => unreachable!(),
    }
}

/// The reply that is there is taken.
fn hear_reply(
    core: &mut Core,
    alloc: Global,
    code: &Code,
    reply: Reply,
    on: OnReply,
) -> Result<Now, NoMemory>
    ensures { IfOk result (λ now. Resumes code.now (Due.Heard reply on) core.old now core.new) }
{
    let step = hear(alloc, code, &mut core.frame, reply, on)?;
    core.follow(step)
}

/// The request that is out.
fn request_of(now: &Now) -> Request
    requires { IsAsk now.now }
    ensures { asked_by now.now ≡ Some result }
{
    match now {
        Now::Ask(request, _) => *request,
        Now::End(fault) => Request::End(*fault),
        _ => unreachable!(),
    }
}

/// Where a thread stands after the reply to the request that is out.
fn answered(due: Due, reply: Reply) -> Due
    requires { asked_at due ≢ None }
    ensures { IsAnswered due reply result }
{
    match due {
        Due::Going(Now::Ask(_, on)) => Due::Heard(reply, on),
        Due::Going(Now::End(_)) => Due::Over,
        _ => unreachable!(),
    }
}
