//! What a thread is about to do, and its continuation: the tasks that come after that, which hold the parts of the trees that are left.
ghost use Rattle.std.specs.Prelude.{◌≡◌, IfOk, Some};
ghost use Rattle.dso_machine.specs.Continuation.{alone, used};

use crate::rest::Rest;
use crate::{Block, Branch, Expr, FieldRef, Places, Stmt};
use dso_base::{Fault, Grade, Items, Kind, LockName, NoMemory, Op, Request, Shared, Value};
use dso_map::MapCall;
use std::alloc::Global;

/// The frame of a method, or of the thread's body: the object, the variables, and how many more frames may stand on it.
#[derive(Debug, Drop)]
pub(crate) struct Frame {
    pub(crate) this: Value,
    pub(crate) vars: Items<Value>,
    pub(crate) room: u32,
}

/// How a part ends: with a value, by a return, or with a fault.
#[derive(Clone, Copy, Debug)]
pub(crate) enum End {
    Gives(Value),
    Leaves(Value),
    Fails(Fault),
}

/// A method whose frame is the thread's: on which object it is called, and at which grade it takes the object's monitor.
#[derive(Clone, Copy, Debug)]
pub(crate) struct Call {
    pub(crate) object: u64,
    pub(crate) method: u32,
    pub(crate) synced: Option<Grade>,
}

/// What starts with a move: the evaluation of a loop's condition, or a method's body.
#[derive(Debug, Drop)]
pub(crate) enum Move {
    Turn(Branch<Expr>, Block),
    Body(u32),
}

/// What is done under a lock.
#[derive(Debug, Drop)]
pub(crate) enum Locked {
    /// A root is read.
    Read(u32),
    /// A root is bound to a value, if it is not bound.
    Bind(u32, Value),
    /// The statements of a block.
    Block(Block),
    /// A method whose monitor is still to be entered, if it takes one.
    Monitor(Call),
    /// The body of a method that has its locks.
    Body(u32),
    /// A call of a map.
    Map(Shared<MapCall>),
}

/// What is written, and into what.
#[derive(Debug, Drop)]
pub(crate) enum Writing {
    /// A field of the object that comes now; the new value comes next.
    FieldOf(FieldRef, Branch<Expr>),
    /// A field of this object; the new value comes now.
    Field(Value, FieldRef),
    /// An element of the array that comes now; the index and the new value come next.
    ElementOf(Branch<Expr>, Branch<Expr>),
    /// An element of this array at the index that comes now; the new value comes next.
    ElementAt(Value, Branch<Expr>),
    /// An element of this array at this index; the new value comes now.
    Element(Value, Value),
    /// A root; the new value comes now.
    Root(u32),
}

/// What is done with a monitor.
#[derive(Debug, Drop)]
pub(crate) enum Monitor {
    /// These statements are under it.
    Sync(Grade, Block),
    Wait,
    /// The thread waits on it for as many ticks as come next.
    TimedWait(Branch<Expr>),
    /// The thread waits on this object's monitor, for as many ticks as come now.
    WaitFor(Value),
    Notify,
    NotifyAll,
}

/// What is done with a value.
#[derive(Debug, Drop)]
pub(crate) enum OnValue {
    /// It is an object, of which a field is read.
    Field(FieldRef),
    /// It is an array; its index comes next.
    Array(Branch<Expr>),
    /// It is the index into this array.
    Index(Value),
    /// It is the object of a call; the arguments come next.
    Object(Places, Rest<Expr>),
    /// It is an argument of a call on this object, behind those before it; the rest comes next.
    Argument(Places, Value, Items<Value>, Rest<Expr>),
    /// It is the size of a new array.
    Size(Kind),
    /// It is the operand.
    Operand(Op),
    /// It is the first operand; the second one comes next, if it is wanted.
    First(Op, Branch<Expr>),
    /// It is the second operand; the first one is known.
    Second(Op, Value),
    /// It is to be a boolean.
    Boolean,
    /// It is given to a variable.
    Assign(u32),
    /// It is written, or that into which another one is written.
    Write(Writing),
    /// It decides between these blocks.
    If(Block, Block),
    /// It decides whether a loop goes on.
    While(Branch<Expr>, Block),
    /// A turn of this loop is done.
    Again(Branch<Expr>, Block),
    /// It is an object whose monitor is used.
    Monitor(Monitor),
    Print,
    Return,
    /// The statement is done, and these come next.
    Next(Rest<Stmt>),
}

/// What is done with a reply.
#[derive(Debug, Drop)]
pub(crate) enum OnReply {
    Done,
    Made,
    Got,
    /// A field is read of the object that was looked at.
    Field(u64, FieldRef),
    /// The element at this index is read.
    Element(u64, i64),
    /// A method is called with these arguments.
    Call(u64, Places, Items<Value>),
    /// A field is written.
    PutField(u64, FieldRef, Value),
    /// The element at this index is written.
    PutElement(u64, i64, Value),
    /// The lock was asked for, at this grade.
    Entered(LockName, Grade, Locked),
    /// The lock was left that was entered at this grade, after a part that ended so.
    Left(Grade, End),
    /// The thread settled after it left a lock, after a part that ended so.
    Settled(End),
    /// The root was read, and is bound to the value if it is null.
    Bind(u32, Value),
    /// The thread waits on the lock, for so many ticks; 0 stands for no limit.
    Waited(LockName, u64),
    /// A tick of a thread that waits on the lock, with so many more to come.
    Ticked(LockName, u64),
    /// The thread waits on the lock no longer.
    TimedOut(LockName),
    /// The thread paused before the move.
    Paused(Move),
    /// A call of a map asked something of the map's fields.
    Map(Shared<MapCall>),
}

/// A task of the continuation: what is still to be done after a part.
#[derive(Debug, Drop)]
pub(crate) enum Task {
    /// The part's value is used.
    Then(OnValue),
    /// The frame below is the thread's again.
    Back(Frame),
    /// The lock is left, which was entered at this grade.
    Leave(LockName, Grade),
    /// The block of a private object ends: nothing is left.
    Close(LockName),
    /// A call of a map ends: the map and the arguments are held no longer.
    Mapped(Shared<MapCall>),
}

/// What the thread is about to do.
#[derive(Debug, Drop)]
pub(crate) enum Now {
    Evaluate(Branch<Expr>),
    /// The arguments that are left are evaluated, behind those before them, and then the call is made on the object.
    Arguments(Places, Value, Items<Value>, Rest<Expr>),
    Execute(Branch<Stmt>),
    Run(Rest<Stmt>),
    /// A move, before which a pause may be due.
    Pace(Move),
    /// A part has ended.
    Have(End),
    /// A request is out.
    Ask(Request, OnReply),
    /// The thread's end is asked for, with its fault where it has one.
    End(Option<Fault>),
}

/// What comes of a step: what the thread is about to do, and after it.
#[derive(Debug, Drop)]
pub(crate) struct Step {
    pub(crate) now: Now,
    pub(crate) then: Option<Task>,
}

impl Step {
    /// What the thread is about to do, and nothing after it.
    pub(crate) fn alone(now: Now) -> Step
        ensures { result ≡ alone now }
    {
        Step { now, then: None }
    }

    /// An end of a part.
    pub(crate) fn have(end: End) -> Step
        ensures { result ≡ alone (Now.Have end) }
    {
        Step::alone(Now::Have(end))
    }

    /// A value.
    pub(crate) fn give(value: Value) -> Step
        ensures { result ≡ alone (Now.Have (End.Gives value)) }
    {
        Step::have(End::Gives(value))
    }

    /// A fault.
    pub(crate) fn fail(fault: Fault) -> Step
        ensures { result ≡ alone (Now.Have (End.Fails fault)) }
    {
        Step::have(End::Fails(fault))
    }

    /// A request, and what is done with its reply.
    pub(crate) fn ask(request: Request, on: OnReply) -> Step
        ensures { result ≡ alone (Now.Ask request on) }
    {
        Step::alone(Now::Ask(request, on))
    }

    /// An expression, and what is done with its value.
    pub(crate) fn evaluate(expr: Branch<Expr>, then: OnValue) -> Step
        ensures { result ≡ used (Now.Evaluate expr) then }
    {
        Step {
            now: Now::Evaluate(expr),
            then: Some(Task::Then(then)),
        }
    }

    /// A part of a tree that stays there too, and what is done with its value. NoMemory: an allocation was refused.
    pub(crate) fn part(alloc: Global, expr: &Branch<Expr>, then: OnValue) -> Result<Step, NoMemory>
        ensures { IfOk result (λ step. step ≡ used (Now.Evaluate expr.now) then) }
    {
        Ok(Step::evaluate(expr.again(alloc)?, then))
    }

    /// What a method begins with, after which the frame below is the thread's again.
    pub(crate) fn above(now: Now, below: Frame) -> Step
        ensures { result ≡ record { now = now; then = Some (Task.Back below) } }
    {
        Step {
            now,
            then: Some(Task::Back(below)),
        }
    }
}
