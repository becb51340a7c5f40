//! What is done with a value.
ghost use Rattle.std.specs.Prelude.{ℕ, ◌<◌, ◌+◌, ◌≡◌, IfErr, IfOk, slice_set};
ghost use Rattle.dso_base.specs.declared.op.Op.{Op};
ghost use Rattle.dso_base.specs.declared.value.Value.{Value};
ghost use Rattle.dso_machine.specs.declared.code.Code.{Code};
ghost use Rattle.dso_machine.specs.declared.continuation.Frame.{Frame};
ghost use Rattle.dso_machine.specs.declared.continuation.Monitor.{Monitor};
ghost use Rattle.dso_machine.specs.declared.continuation.Now.{Now};
ghost use Rattle.dso_machine.specs.declared.continuation.OnValue.{OnValue};
ghost use Rattle.dso_machine.specs.declared.continuation.Writing.{Writing};
ghost use Rattle.dso_machine.specs.Outcome.{Fails, Meaning, State, on_object, result_of};
ghost use Rattle.dso_machine.specs.Continuation.{Uses, stepped, used};
ghost use Rattle.dso_machine.specs.Weight.{block_weight, expr_weight, monitor_weight, step_weight, use_weight, write_weight};

use crate::continuation::{
    End, Frame, Locked, Monitor, Move, Now, OnReply, OnValue, Step, Task, Writing,
};
use crate::operators::{binary, level_of, takes, unary};
use crate::rest::Rest;
use crate::{Block, Branch, Expr, FieldRef};
use dso_base::{ClassId, Fault, Grade, Items, Kind, Level, LockName, NoMemory, Op, Request, Value};
use std::alloc::Global;
use std::mem;

/// The most elements of an array.
const MOST_ELEMENTS: i64 = 256;

/// The object that a value is.
pub(crate) fn object_of(value: Value) -> Result<u64, Fault>
    ensures object { IfOk result (λ object. value ≡ Value.Ref object) }
    ensures fault { IfErr result (λ fault. (f : ℕ → Meaning) (at : State) → on_object f value at ≡ Fails fault at) }
{
    match value {
        Value::Ref(object) => Ok(object),
        Value::Null => Err(Fault::NullPointer),
        Value::Long(_) | Value::Bool(_) | Value::Text(_) => Err(Fault::BadValue),
    }
}

/// A field of a value is read.
fn read_field(value: Value, field: FieldRef) -> Step
    ensures uses { (code : Code) (frame : Frame) → Uses code (OnValue.Field field) value frame result frame }
    ensures lighter { step_weight result < 3 }
{
    match object_of(value) {
        Ok(object) => Step::ask(Request::Look(object), OnReply::Field(object, field)),
        Err(fault) => Step::fail(fault),
    }
}

/// An element of an array is read.
fn read_element(array: Value, index: Value) -> Step
    ensures uses { (code : Code) (frame : Frame) → Uses code (OnValue.Index array) index frame result frame }
    ensures lighter { step_weight result < 3 }
{
    match (object_of(array), index) {
        (Ok(object), Value::Long(index)) => {
            Step::ask(Request::Look(object), OnReply::Element(object, index))
        }
        (Ok(_), _) => Step::fail(Fault::BadValue),
        (Err(fault), _) => Step::fail(fault),
    }
}

/// A field of a value is written.
fn write_field(object: Value, field: FieldRef, value: Value) -> Step
    ensures uses { (code : Code) (frame : Frame) → Uses code (OnValue.Write (Writing.Field object field)) value frame result frame }
    ensures lighter { step_weight result < 3 }
{
    match object_of(object) {
        Ok(object) => Step::ask(
            Request::Look(object),
            OnReply::PutField(object, field, value),
        ),
        Err(fault) => Step::fail(fault),
    }
}

/// An element of an array is written.
fn write_element(array: Value, index: Value, value: Value) -> Step
    ensures uses { (code : Code) (frame : Frame) → Uses code (OnValue.Write (Writing.Element array index)) value frame result frame }
    ensures lighter { step_weight result < 3 }
{
    match (object_of(array), index) {
        (Ok(object), Value::Long(index)) => {
            Step::ask(
                Request::Look(object),
                OnReply::PutElement(object, index, value),
            )
        }
        (Ok(_), _) => Step::fail(Fault::BadValue),
        (Err(fault), _) => Step::fail(fault),
    }
}

/// A new array is made.
fn make_array(kind: Kind, size: Value) -> Step
    ensures uses { (code : Code) (frame : Frame) → Uses code (OnValue.Size kind) size frame result frame }
    ensures lighter { step_weight result < 3 }
{
    match size {
        Value::Long(size) if 0 <= size && size <= MOST_ELEMENTS => {
            Step::ask(
                Request::New(ClassId::Array(kind), size as u32),
                OnReply::Made,
            )
        }
        Value::Long(_) => Step::fail(Fault::BadSize),
        _ => Step::fail(Fault::BadValue),
    }
}

/// The value of an operation, or its fault.
fn outcome_of(operation: Result<Value, Fault>) -> Step
    ensures is { (code : Code) (n k : ℕ) (at : State) → stepped code n k result at ≡ result_of operation at }
    ensures lighter { step_weight result < 3 }
{
    match operation {
        Ok(value) => Step::give(value),
        Err(fault) => Step::fail(fault),
    }
}

/// The second operand of `&&`.
fn second_of_and(operand: Branch<Expr>, first: Value) -> Step
    ensures uses { (code : Code) (frame : Frame) → Uses code (OnValue.First Op.And operand) first frame result frame }
    ensures lighter { step_weight result < expr_weight operand + 3 }
{
    match first {
        Value::Bool(true) => Step::evaluate(operand, OnValue::Boolean),
        Value::Bool(false) => Step::give(first),
        _ => Step::fail(Fault::BadValue),
    }
}

/// The second operand of `||`.
fn second_of_or(operand: Branch<Expr>, first: Value) -> Step
    ensures uses { (code : Code) (frame : Frame) → Uses code (OnValue.First Op.Or operand) first frame result frame }
    ensures lighter { step_weight result < expr_weight operand + 3 }
{
    match first {
        Value::Bool(true) => Step::give(first),
        Value::Bool(false) => Step::evaluate(operand, OnValue::Boolean),
        _ => Step::fail(Fault::BadValue),
    }
}

/// The second operand, after the value of the first; of `&&` and `||` only where the first doesn't decide.
fn second(op: Op, operand: Branch<Expr>, first: Value) -> Step
    ensures uses { (code : Code) (frame : Frame) → Uses code (OnValue.First op operand) first frame result frame }
    ensures lighter { step_weight result < expr_weight operand + 3 }
{
    match op {
        Op::And => second_of_and(operand, first),
        Op::Or => second_of_or(operand, first),
        _ => Step::evaluate(operand, OnValue::Second(op, first)),
    }
}

/// A value that is to be a boolean.
fn boolean(value: Value) -> Step
    ensures uses { (code : Code) (frame : Frame) → Uses code OnValue.Boolean value frame result frame }
    ensures lighter { step_weight result < 3 }
{
    match value {
        Value::Bool(_) => Step::give(value),
        _ => Step::fail(Fault::BadValue),
    }
}

/// A root is given a value.
fn write_root(root: u32, value: Value) -> Step
    ensures uses { (code : Code) (frame : Frame) → Uses code (OnValue.Write (Writing.Root root)) value frame result frame }
    ensures lighter { step_weight result < 3 }
{
    if !takes(Kind::Ref, value) {
        return Step::fail(Fault::BadValue);
    }
    let lock = LockName::Name(root);
    let entered = OnReply::Entered(lock, Grade::Write, Locked::Bind(root, value));
    Step::ask(Request::Enter(lock, Level::Write), entered)
}

/// One block or the other.
fn choose(test: Value, all: Block, others: Block) -> Step
    ensures uses { (code : Code) (frame : Frame) → Uses code (OnValue.If all others) test frame result frame }
    ensures lighter { step_weight result < block_weight all + block_weight others + 3 }
{
    match test {
        Value::Bool(true) => Step::alone(Now::Run(Rest::new(all))),
        Value::Bool(false) => Step::alone(Now::Run(Rest::new(others))),
        _ => Step::fail(Fault::BadValue),
    }
}

/// A turn of a loop, or its end.
pub(crate) fn turn(
    alloc: Global,
    test: Value,
    again: Branch<Expr>,
    body: Block,
) -> Result<Step, NoMemory>
    ensures uses { IfOk result (λ step. (code : Code) (frame : Frame) → Uses code (OnValue.While again body) test frame step frame) }
    ensures lighter { IfOk result (λ step. step_weight step < block_weight body + 3) }
{
    match test {
        Value::Bool(true) => {
            let once = body.again(alloc)?;
            Ok(Step {
                now: Now::Run(Rest::new(once)),
                then: Some(Task::Then(OnValue::Again(again, body))),
            })
        }
        Value::Bool(false) => Ok(Step::give(Value::Null)),
        _ => Ok(Step::fail(Fault::BadValue)),
    }
}

/// Statements under the monitor of a value.
fn synchronize(object: Value, grade: Grade, body: Block) -> Step
    ensures uses { (code : Code) (frame : Frame) → Uses code (OnValue.Monitor (Monitor.Sync grade body)) object frame result frame }
    ensures lighter { step_weight result < block_weight body + 3 }
{
    match object_of(object) {
        Ok(object) => {
            let lock = LockName::Mon(object);
            let entered = OnReply::Entered(lock, grade, Locked::Block(body));
            Step::ask(Request::Enter(lock, level_of(grade)), entered)
        }
        Err(fault) => Step::fail(fault),
    }
}

/// The thread waits on a value's monitor.
fn wait(object: Value) -> Step
    ensures uses { (code : Code) (frame : Frame) → Uses code (OnValue.Monitor Monitor.Wait) object frame result frame }
    ensures lighter { step_weight result < 3 }
{
    match object_of(object) {
        Ok(object) => {
            let lock = LockName::Mon(object);
            Step::ask(Request::Wait(lock), OnReply::Waited(lock, 0))
        }
        Err(fault) => Step::fail(fault),
    }
}

/// The thread waits on a value's monitor, for as many ticks as the other one says.
fn timed_wait(object: Value, ticks: Value) -> Step
    ensures uses { (code : Code) (frame : Frame) → Uses code (OnValue.Monitor (Monitor.WaitFor object)) ticks frame result frame }
    ensures lighter { step_weight result < 3 }
{
    match (object_of(object), ticks) {
        (Ok(object), Value::Long(ticks)) if 0 <= ticks => {
            let lock = LockName::Mon(object);
            Step::ask(Request::Wait(lock), OnReply::Waited(lock, ticks as u64))
        }
        (Ok(_), _) => Step::fail(Fault::BadValue),
        (Err(fault), _) => Step::fail(fault),
    }
}

/// A thread that waits on a value's monitor is woken.
fn notify(object: Value) -> Step
    ensures uses { (code : Code) (frame : Frame) → Uses code (OnValue.Monitor Monitor.Notify) object frame result frame }
    ensures lighter { step_weight result < 3 }
{
    match object_of(object) {
        Ok(object) => Step::ask(Request::Notify(LockName::Mon(object)), OnReply::Done),
        Err(fault) => Step::fail(fault),
    }
}

/// All threads that wait on a value's monitor are woken.
fn notify_all(object: Value) -> Step
    ensures uses { (code : Code) (frame : Frame) → Uses code (OnValue.Monitor Monitor.NotifyAll) object frame result frame }
    ensures lighter { step_weight result < 3 }
{
    match object_of(object) {
        Ok(object) => Step::ask(Request::NotifyAll(LockName::Mon(object)), OnReply::Done),
        Err(fault) => Step::fail(fault),
    }
}

impl Frame {
    /// A variable is given a value.
    fn assign(&mut self, alloc: Global, index: u32, value: Value)
        ensures { self.new ≡ record self.old { vars = slice_set self.old.vars index value } }
    {
        let mut vars = mem::replace(&mut self.vars, Items::new(alloc)).into_vec();
        if let Some(place) = vars.get_mut(index as usize) {
            *place = value;
        }
        self.vars = Items::from_vec(vars);
    }
}

/// An expression comes next, and its value is used for what is written.
fn next(expr: Branch<Expr>, then: Writing) -> Step
    ensures { result ≡ used (Now.Evaluate expr) (OnValue.Write then) }
{
    Step::evaluate(expr, OnValue::Write(then))
}

/// A value is written, or that into which another one is written.
fn write(value: Value, then: Writing) -> Step
    ensures uses { (code : Code) (frame : Frame) → Uses code (OnValue.Write then) value frame result frame }
    ensures lighter { step_weight result < write_weight then + 2 }
{
    match then {
        Writing::FieldOf(field, new) => next(new, Writing::Field(value, field)),
        Writing::Field(object, field) => write_field(object, field, value),
        Writing::ElementOf(index, new) => next(index, Writing::ElementAt(value, new)),
        Writing::ElementAt(array, new) => next(new, Writing::Element(array, value)),
        Writing::Element(array, index) => write_element(array, index, value),
        Writing::Root(root) => write_root(root, value),
    }
}

/// A value's monitor is used.
fn use_monitor(object: Value, then: Monitor) -> Step
    ensures uses { (code : Code) (frame : Frame) → Uses code (OnValue.Monitor then) object frame result frame }
    ensures lighter { step_weight result < monitor_weight then + 2 }
{
    match then {
        Monitor::Sync(grade, body) => synchronize(object, grade, body),
        Monitor::Wait => wait(object),
        Monitor::TimedWait(ticks) => {
            Step::evaluate(ticks, OnValue::Monitor(Monitor::WaitFor(object)))
        }
        Monitor::WaitFor(waited) => timed_wait(waited, object),
        Monitor::Notify => notify(object),
        Monitor::NotifyAll => notify_all(object),
    }
}

/// A value is used.
pub(crate) fn use_value(
    alloc: Global,
    frame: &mut Frame,
    value: Value,
    then: OnValue,
) -> Result<Step, NoMemory>
    ensures uses { IfOk result (λ step. (code : Code) → Uses code then value frame.old step frame.new) }
    ensures lighter { IfOk result (λ step. step_weight step < use_weight then + 2) }
{
    match then {
        OnValue::Field(field) => Ok(read_field(value, field)),
        OnValue::Array(index) => Ok(Step::evaluate(index, OnValue::Index(value))),
        OnValue::Index(array) => Ok(read_element(array, value)),
        OnValue::Object(callees, args) => {
            let none = Items::new(alloc);
            Ok(Step::alone(Now::Arguments(callees, value, none, args)))
        }
        OnValue::Argument(callees, object, mut before, rest) => {
            before.push(value)?;
            Ok(Step::alone(Now::Arguments(callees, object, before, rest)))
        }
        OnValue::Size(kind) => Ok(make_array(kind, value)),
        OnValue::Operand(op) => Ok(outcome_of(unary(op, value))),
        OnValue::First(op, operand) => Ok(second(op, operand, value)),
        OnValue::Second(op, first) => Ok(outcome_of(binary(op, first, value))),
        OnValue::Boolean => Ok(boolean(value)),
        OnValue::Assign(index) => {
            frame.assign(alloc, index, value);
            Ok(Step::give(Value::Null))
        }
        OnValue::Write(then) => Ok(write(value, then)),
        OnValue::If(all, others) => Ok(choose(value, all, others)),
        OnValue::While(test, body) => turn(alloc, value, test, body),
        OnValue::Again(test, body) => Ok(Step::alone(Now::Pace(Move::Turn(test, body)))),
        OnValue::Monitor(then) => Ok(use_monitor(value, then)),
        OnValue::Print => Ok(Step::ask(Request::Print(value), OnReply::Done)),
        OnValue::Return => Ok(Step::have(End::Leaves(value))),
        OnValue::Next(rest) => Ok(Step::alone(Now::Run(rest))),
    }
}
