//! How a method is called.
ghost use Rattle.std.specs.Prelude.{◌≡◌, ◌-◌, ◌<◌, ℕ, IfOk, List, Some};
ghost use Rattle.dso_base.specs.declared.request.Reply.{Reply};
ghost use Rattle.dso_machine.specs.declared.code.Code.{Code};
ghost use Rattle.dso_machine.specs.declared.continuation.OnReply.{OnReply};
ghost use Rattle.dso_machine.specs.Calls as calls;
ghost use Rattle.dso_machine.specs.Outcome.{State};
ghost use Rattle.dso_base.specs.declared.value.Value.{Value};
ghost use Rattle.dso_machine.specs.Continuation.{Takes, body_at, in_frame, meant, stepped};
ghost use Rattle.dso_machine.specs.Statements.{methods};

use crate::continuation::{Call, Frame, Locked, Now, OnReply, Step};
use crate::map::call_map;
use crate::on_reply::{enter_monitor, unwanted};
use crate::operators::{level_of, lookup};
use crate::{Code, Places};
use dso_base::{ClassId, Fault, Grade, Items, LockName, NoMemory, Reply, Request, Value};
use std::alloc::Global;
use std::mem;

/// So many variables: these values, and then nulls.
pub(crate) fn variables(count: u32, values: Items<Value>) -> Result<Items<Value>, NoMemory>
    ensures { IfOk result (λ vars. vars ≡ calls.variables count values) }
{
    let mut vars = values.into_vec();
    let count = count as usize;
    if vars.len() < count {
        vars.resize(count, Value::Null)?;
    }
    Ok(Items::from_vec(vars))
}

impl Frame {
    /// The frame of a method that is called on this object, with these variables; the caller's is given back, on which it stands.
    fn enter(&mut self, object: u64, vars: Items<Value>) -> Frame
        requires { 0 < self.old.room }
        ensures below { result ≡ self.old }
        ensures above { self.new ≡ record { this = Value.Ref object; vars = vars; room = self.old.room - 1 } }
    {
        let room = self.room - 1;
        let this = Value::Ref(object);
        mem::replace(self, Frame { this, vars, room })
    }
}

/// A method in its frame: its locks, the named one first, and then its body.
fn enter_named(named: Option<(u32, Grade)>, call: Call) -> Now
    ensures is { (code : Code) (n k : ℕ) (at : State) → meant code n k result at
        ≡ calls.under_name named (calls.under_monitor call.synced call.object (body_at code n k call.method)) at }
{
    match named {
        Some((lock, grade)) => {
            let lock = LockName::Name(lock);
            let request = Request::Enter(lock, level_of(grade));
            Now::Ask(
                request,
                OnReply::Entered(lock, grade, Locked::Monitor(call)),
            )
        }
        None => enter_monitor(call),
    }
}

/// A method of this number is called. The numbers behind those of the code are those of the map's methods.
fn call_method(
    alloc: Global,
    code: &Code,
    frame: &mut Frame,
    object: u64,
    number: u32,
    args: Items<Value>,
) -> Result<Step, NoMemory>
    ensures is { IfOk result (λ step. (n k moves : ℕ) (outer : List Value) (rs : List Reply) → stepped code.now n k step (in_frame frame.new outer moves rs)
        ≡ calls.call_number code.now (methods code.now n) object args (Some number) (in_frame frame.old outer moves rs)) }
{
    let Some(method) = code.methods.get(number as usize) else {
        let place = number as usize - code.methods.len();
        return call_map(alloc, object, place, args.as_slice());
    };
    if frame.room == 0 {
        return Ok(Step::fail(Fault::StackOverflow));
    }
    let vars = variables(method.vars, args)?;
    let below = frame.enter(object, vars);
    let call = Call {
        object,
        method: number,
        synced: method.synced,
    };
    Ok(Step::above(enter_named(method.named, call), below))
}

/// An object was seen of which a method is called.
pub(crate) fn call_seen(
    alloc: Global,
    code: &Code,
    frame: &mut Frame,
    reply: Reply,
    object: u64,
    callees: Places,
    args: Items<Value>,
) -> Result<Step, NoMemory>
    ensures takes { IfOk result (λ step. Takes code.now (OnReply.Call object callees args) reply frame.old step frame.new) }
{
    match reply {
        Reply::Seen(ClassId::Plain(class), _) => match lookup(callees.get().as_slice(), class) {
            Some(number) => call_method(alloc, code, frame, object, number, args),
            None => Ok(Step::fail(Fault::NoSuchField)),
        },
        Reply::Seen(_, _) => Ok(Step::fail(Fault::NoSuchField)),
        _ => Ok(unwanted(reply)),
    }
}
