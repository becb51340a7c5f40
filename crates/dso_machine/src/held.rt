//! What a thread holds: the values in its frame, in its continuation, and in what it is about to do.
ghost use Rattle.std.specs.Prelude.{◌≡◌, ◌++◌, ◌∷◌, IfOk, OnOk};
ghost use Rattle.dso_machine.specs.Continuation.{end_values, held_at, locked_values, map_values, monitor_values, reply_values, task_values, use_values, write_values};
ghost use Rattle.dso_machine.specs.Frames.{all_held, objects_of, request_values, with_tasks};
ghost use Rattle.dso_machine.specs.Outcome.{monitor_of};

use crate::continuation::{End, Locked, Monitor, Now, OnReply, OnValue, Task, Writing};
use crate::machine::Core;
use dso_base::{LockName, NoMemory, Request, Value};
use dso_map::{MapCall, MapOp};
use std::alloc::Global;

/// These values too.
fn add(held: &mut Vec<Value>, values: &[Value]) -> Result<(), NoMemory>
    ensures { OnOk result (held.new.items ≡ held.old.items ++ values.now) }
{
    held.extend_from_slice(values)?;
    Ok(())
}

/// An object and the variables beside it.
fn add_with(held: &mut Vec<Value>, object: Value, vars: &[Value]) -> Result<(), NoMemory>
    ensures { OnOk result (held.new.items ≡ held.old.items ++ object ∷ vars.now) }
{
    held.push(object)?;
    add(held, vars)
}

/// The object whose monitor a lock is.
fn add_monitor(held: &mut Vec<Value>, lock: LockName) -> Result<(), NoMemory>
    ensures { OnOk result (held.new.items ≡ held.old.items ++ monitor_of lock) }
{
    match lock {
        LockName::Mon(object) => add(held, &[Value::Ref(object)]),
        LockName::Name(_) => add(held, &[]),
    }
}

/// What the end of a part holds.
fn add_end(held: &mut Vec<Value>, end: End) -> Result<(), NoMemory>
    ensures { OnOk result (held.new.items ≡ held.old.items ++ end_values end) }
{
    match end {
        End::Gives(value) | End::Leaves(value) => add(held, &[value]),
        End::Fails(_) => add(held, &[]),
    }
}

/// What is held by what is done under a lock.
fn add_locked(held: &mut Vec<Value>, part: &Locked) -> Result<(), NoMemory>
    ensures { OnOk result (held.new.items ≡ held.old.items ++ locked_values part.now) }
{
    match part {
        Locked::Bind(_, value) => add(held, &[*value]),
        _ => add(held, &[]),
    }
}

/// What is held by what is done with a reply.
fn add_reply(held: &mut Vec<Value>, on: &OnReply) -> Result<(), NoMemory>
    ensures { OnOk result (held.new.items ≡ held.old.items ++ reply_values on.now) }
{
    match on {
        OnReply::Call(_, _, args) => add(held, args.as_slice()),
        OnReply::PutField(_, _, value) | OnReply::PutElement(_, _, value) => add(held, &[*value]),
        OnReply::Bind(_, value) => add(held, &[*value]),
        OnReply::Entered(_, _, part) => add_locked(held, part),
        OnReply::Left(_, end) | OnReply::Settled(end) => add_end(held, *end),
        _ => add(held, &[]),
    }
}

/// What is held by what is written.
fn add_written(held: &mut Vec<Value>, writing: &Writing) -> Result<(), NoMemory>
    ensures { OnOk result (held.new.items ≡ held.old.items ++ write_values writing.now) }
{
    match writing {
        Writing::Field(object, _) => add(held, &[*object]),
        Writing::ElementAt(array, _) => add(held, &[*array]),
        Writing::Element(array, index) => add(held, &[*array, *index]),
        Writing::FieldOf(_, _) | Writing::ElementOf(_, _) | Writing::Root(_) => add(held, &[]),
    }
}

/// What is held by what is done with a monitor.
fn add_monitor_use(held: &mut Vec<Value>, monitor: &Monitor) -> Result<(), NoMemory>
    ensures { OnOk result (held.new.items ≡ held.old.items ++ monitor_values monitor.now) }
{
    match monitor {
        Monitor::WaitFor(object) => add(held, &[*object]),
        _ => add(held, &[]),
    }
}

/// What is held by what is done with a value.
fn add_use(held: &mut Vec<Value>, then: &OnValue) -> Result<(), NoMemory>
    ensures { OnOk result (held.new.items ≡ held.old.items ++ use_values then.now) }
{
    match then {
        OnValue::Index(array) => add(held, &[*array]),
        OnValue::Argument(_, object, before, _) => add_with(held, *object, before.as_slice()),
        OnValue::Second(_, first) => add(held, &[*first]),
        OnValue::Write(writing) => add_written(held, writing),
        OnValue::Monitor(monitor) => add_monitor_use(held, monitor),
        _ => add(held, &[]),
    }
}

/// What a call of a map holds: the map and the arguments.
fn add_map(held: &mut Vec<Value>, call: MapCall) -> Result<(), NoMemory>
    ensures { OnOk result (held.new.items ≡ held.old.items ++ map_values call) }
{
    let map = Value::Ref(call.object);
    match call.op {
        MapOp::Get(key) => add_with(held, map, &[Value::Long(key)]),
        MapOp::Has(key) => add_with(held, map, &[Value::Long(key)]),
        MapOp::Remove(key) => add_with(held, map, &[Value::Long(key)]),
        MapOp::Put(key, object) => add_with(held, map, &[Value::Long(key), Value::Ref(object)]),
        MapOp::Size => add_with(held, map, &[]),
    }
}

/// What a task of the continuation holds.
fn add_task(held: &mut Vec<Value>, task: &Task) -> Result<(), NoMemory>
    ensures { OnOk result (held.new.items ≡ held.old.items ++ task_values task.now) }
{
    match task {
        Task::Then(then) => add_use(held, then),
        Task::Back(frame) => add_with(held, frame.this, frame.vars.as_slice()),
        Task::Leave(lock, _) => add_monitor(held, *lock),
        Task::Close(lock) => add_monitor(held, *lock),
        Task::Mapped(call) => add_map(held, *call.get()),
    }
}

/// What the tasks hold.
fn add_tasks(held: &mut Vec<Value>, tasks: &[Task]) -> Result<(), NoMemory>
    ensures { OnOk result (held.new.items ≡ with_tasks held.old.items tasks.now) }
{
    for task in tasks {
        add_task(held, task)?;
    }
    Ok(())
}

/// What is held by what the thread is about to do.
fn add_now(held: &mut Vec<Value>, now: &Now) -> Result<(), NoMemory>
    ensures { OnOk result (held.new.items ≡ held.old.items ++ held_at now.now) }
{
    match now {
        Now::Ask(_, on) => add_reply(held, on),
        _ => add(held, &[]),
    }
}

/// What a request names.
fn add_request(held: &mut Vec<Value>, request: Request) -> Result<(), NoMemory>
    ensures { OnOk result (held.new.items ≡ held.old.items ++ request_values request) }
{
    match request {
        Request::Look(object) | Request::Get(object, _) => add(held, &[Value::Ref(object)]),
        Request::Put(object, _, value) => add(held, &[Value::Ref(object), value]),
        Request::Enter(lock, _) => add_monitor(held, lock),
        Request::Exit(lock)
        | Request::Wait(lock)
        | Request::Tick(lock)
        | Request::Timeout(lock)
        | Request::Resume(lock)
        | Request::Notify(lock)
        | Request::NotifyAll(lock) => add_monitor(held, lock),
        Request::Print(value) => add(held, &[value]),
        Request::New(_, _) | Request::End(_) | Request::Pause | Request::Settle => add(held, &[]),
    }
}

/// The objects of the values, each as often as it stands there.
fn objects_in(alloc: Global, values: &[Value]) -> Result<Vec<u64>, NoMemory>
    ensures { IfOk result (λ objects. objects.items ≡ objects_of values.now) }
{
    let mut objects = Vec::new(alloc);
    for value in values {
        if let Value::Ref(object) = value {
            objects.push(*object)?;
        }
    }
    Ok(objects)
}

/// The objects that a thread holds that is about to do this, where this request is out, each as often as it is held.
pub(crate) fn objects_held(
    alloc: Global,
    core: &Core,
    now: &Now,
    request: Request,
) -> Result<Vec<u64>, NoMemory>
    ensures { IfOk result (λ objects. objects.items ≡ objects_of (all_held now.now core.now request)) }
{
    let mut held = Vec::new(alloc);
    add_with(&mut held, core.frame.this, core.frame.vars.as_slice())?;
    add_now(&mut held, now)?;
    add_tasks(&mut held, core.tasks.as_slice())?;
    add_request(&mut held, request)?;
    objects_in(alloc, held.as_slice())
}
