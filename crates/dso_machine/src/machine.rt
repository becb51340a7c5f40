//! The machine of a thread: its frame, what it is about to do, and what it has still to do.
ghost use Rattle.std.specs.Prelude.{◌≡◌, ◌+◌, ◌++◌, ◌<◌, ◌≤◌, ◌↔◌, IfOk, IsTrue, OnOk, Some, slice_get};
ghost use Rattle.std.specs.Option.{option_to_list};
ghost use Rattle.dso_machine.specs.declared.continuation.End.{End};
ghost use Rattle.dso_machine.specs.declared.continuation.Move.{Move};
ghost use Rattle.dso_machine.specs.declared.continuation.Now.{Now};
ghost use Rattle.dso_machine.specs.declared.continuation.OnValue.{OnValue};
ghost use Rattle.dso_machine.specs.declared.continuation.Task.{Task};
ghost use Rattle.dso_machine.specs.declared.code.Code.{Code};
ghost use Rattle.dso_machine.specs.Continuation.{IsAsk, IsSuspended, Keeps, Leads, MakesMove, with_then};
ghost use Rattle.dso_machine.specs.Limits.{most_moves};
ghost use Rattle.dso_machine.specs.Sound.{IsSoundCode};
ghost use Rattle.dso_machine.specs.Statements.{statements_of};
ghost use Rattle.dso_machine.specs.Weight.{step_weight, task_weight, tasks_weight, then_weight, use_weight, weigh};

use crate::continuation::{End, Frame, Move, Now, OnReply, OnValue, Step, Task};
use crate::evaluate::evaluate;
use crate::execute::execute;
use crate::known::known;
use crate::next_part::next_argument;
use crate::on_value::{turn, use_value};
use crate::rest::Rest;
use crate::stack::Stack;
use crate::{Block, Branch, Code, Expr, Places, Stmt};
use dso_base::{Items, NoMemory, Request, Value};
use std::alloc::Global;

/// The most moves of a thread between two of its requests.
const MOST_MOVES: u32 = 1000;

/// A thread's frame, its moves since the last request, what it is about to do, and what it has still to do, the next
/// task first.
#[derive(Debug, Drop)]
pub(crate) struct Core {
    pub(crate) frame: Frame,
    pub(crate) moves: u32,
    pub(crate) tasks: Stack<Task>,
}

impl Core {
    /// What comes of a step: its task, if there is one, is put on top of the others.
    pub(crate) fn follow(&mut self, step: Step) -> Result<Now, NoMemory>
        ensures now { IfOk result (λ now. now ≡ step.now) }
        ensures tasks { IfOk result (λ now. self.new ≡ with_then step.then self.old) }
    {
        let Step { now, then } = step;
        put_before(&mut self.tasks, then)?;
        Ok(now)
    }

    /// A frame ends: the one below is the thread's again. A body that did not return gives null.
    #[tactic(auto, using(crate::proofs::steps::Steps::steps))]
    fn back(&mut self, frame: Frame, end: End) -> Now
        ensures keeps { (code : Code) → Keeps code (Now.Have end) (with_then (Some (Task.Back frame)) self.old) result self.new }
        ensures lighter { weigh result self.new < weigh (Now.Have end) self.old + 1 }
        ensures calm { self.new.moves ≡ self.old.moves }
    {
        match end {
            End::Gives(_) => {
                self.frame = frame;
                Now::Have(End::Gives(Value::Null))
            }
            End::Leaves(value) => {
                self.frame = frame;
                Now::Have(End::Gives(value))
            }
            End::Fails(fault) => {
                self.frame = frame;
                Now::Have(End::Fails(fault))
            }
        }
    }

    /// A value is used.
    #[tactic(auto, using(crate::proofs::steps::Steps::steps))]
    fn use_value(&mut self, alloc: Global, value: Value, then: OnValue) -> Result<Now, NoMemory>
        ensures keeps { IfOk result (λ now. (code : Code) → Keeps code (Now.Have (End.Gives value)) (with_then (Some (Task.Then then)) self.old) now self.new) }
        ensures lighter { IfOk result (λ now. weigh now self.new < weigh (Now.Have (End.Gives value)) self.old + use_weight then) }
        ensures calm { IfOk result (λ now. self.new.moves ≡ self.old.moves) }
    {
        let step = use_value(alloc, &mut self.frame, value, then)?;
        self.follow(step)
    }

    /// An expression begins whose value is used so: where the value is known it is used at once.
    #[tactic(auto, using(crate::proofs::steps::Goes::begins))]
    fn begin(&mut self, alloc: Global, expr: &Branch<Expr>, then: OnValue) -> Result<Now, NoMemory>
        ensures keeps { IfOk result (λ now. (code : Code) → Keeps code (Now.Evaluate expr.now) (with_then (Some (Task.Then then)) self.old) now self.new) }
        ensures lighter { IfOk result (λ now. weigh now self.new ≤ weigh (Now.Evaluate expr.now) self.old + use_weight then) }
        ensures calm { IfOk result (λ now. self.new.moves ≡ self.old.moves) }
    {
        match known(&self.frame, expr.get()) {
            Some(Ok(value)) => self.use_value(alloc, value, then),
            Some(Err(fault)) => {
                discard(then);
                Ok(Now::Have(End::Fails(fault)))
            }
            None => {
                self.tasks.push(Task::Then(then))?;
                Ok(Now::Evaluate(expr.again(alloc)?))
            }
        }
    }

    /// An expression comes, and then this task. Where the task uses its value and that is known, it is used at once.
    fn evaluate_for(
        &mut self,
        alloc: Global,
        expr: Branch<Expr>,
        then: Task,
    ) -> Result<Now, NoMemory>
        ensures keeps { IfOk result (λ now. (code : Code) → Keeps code (Now.Evaluate expr) (with_then (Some then) self.old) now self.new) }
        ensures lighter { IfOk result (λ now. weigh now self.new ≤ weigh (Now.Evaluate expr) self.old + task_weight then) }
        ensures calm { IfOk result (λ now. self.new.moves ≡ self.old.moves) }
    {
        match then {
            Task::Then(then) => self.begin(alloc, &expr, then),
            then => {
                self.tasks.push(then)?;
                Ok(Now::Evaluate(expr))
            }
        }
    }

    /// An expression comes, and then the task, if there is one.
    #[tactic(auto, using(crate::proofs::steps::Goes::begins))]
    fn evaluate_first(
        &mut self,
        alloc: Global,
        expr: Branch<Expr>,
        then: Option<Task>,
    ) -> Result<Now, NoMemory>
        ensures keeps { IfOk result (λ now. (code : Code) → Keeps code (Now.Evaluate expr) (with_then then self.old) now self.new) }
        ensures lighter { IfOk result (λ now. weigh now self.new ≤ weigh (Now.Evaluate expr) self.old + then_weight then) }
        ensures calm { IfOk result (λ now. self.new.moves ≡ self.old.moves) }
    {
        match then {
            Some(then) => self.evaluate_for(alloc, expr, then),
            None => Ok(Now::Evaluate(expr)),
        }
    }

    /// What comes of a step, as `follow` has it; but an expression whose value is known isn't begun, its value is used at once.
    fn advance(&mut self, alloc: Global, step: Step) -> Result<Now, NoMemory>
        ensures keeps { IfOk result (λ now. (code : Code) → Keeps code step.now (with_then step.then self.old) now self.new) }
        ensures lighter { IfOk result (λ now. weigh now self.new ≤ step_weight step + tasks_weight self.old.tasks) }
        ensures calm { IfOk result (λ now. self.new.moves ≡ self.old.moves) }
    {
        let Step { now, then } = step;
        match now {
            Now::Evaluate(expr) => self.evaluate_first(alloc, expr, then),
            now => {
                put_before(&mut self.tasks, then)?;
                Ok(now)
            }
        }
    }

    /// The value of a part is used, as `use_value` has it; but where statements come next the first of them begins at once, and so does
    /// an expression whose value is known.
    fn use_given(&mut self, alloc: Global, value: Value, then: OnValue) -> Result<Now, NoMemory>
        ensures keeps { IfOk result (λ now. (code : Code) → Keeps code (Now.Have (End.Gives value)) (with_then (Some (Task.Then then)) self.old) now self.new) }
        ensures lighter { IfOk result (λ now. weigh now self.new < weigh (Now.Have (End.Gives value)) self.old + use_weight then) }
        ensures calm { IfOk result (λ now. self.new.moves ≡ self.old.moves) }
    {
        match then {
            OnValue::Next(rest) => self.begin_next(alloc, rest),
            then => {
                let step = use_value(alloc, &mut self.frame, value, then)?;
                self.advance(alloc, step)
            }
        }
    }

    /// A part ends whose value is used: a return and a fault pass by.
    #[tactic(auto, using(crate::proofs::steps::Steps::steps))]
    fn hand_on(&mut self, alloc: Global, then: OnValue, end: End) -> Result<Now, NoMemory>
        ensures keeps { IfOk result (λ now. (code : Code) → Keeps code (Now.Have end) (with_then (Some (Task.Then then)) self.old) now self.new) }
        ensures lighter { IfOk result (λ now. weigh now self.new < weigh (Now.Have end) self.old + use_weight then) }
        ensures calm { IfOk result (λ now. self.new.moves ≡ self.old.moves) }
    {
        match end {
            End::Gives(value) => self.use_given(alloc, value, then),
            End::Leaves(value) => {
                discard(then);
                Ok(Now::Have(End::Leaves(value)))
            }
            End::Fails(fault) => {
                discard(then);
                Ok(Now::Have(End::Fails(fault)))
            }
        }
    }

    /// Goes on from the end of a part.
    #[tactic(auto, using(crate::proofs::steps::Steps::steps))]
    fn close(&mut self, alloc: Global, end: End) -> Result<Now, NoMemory>
        ensures keeps { IfOk result (λ then. (code : Code) → Keeps code (Now.Have end) self.old then self.new) }
        ensures lighter { IfOk result (λ then. weigh then self.new < weigh (Now.Have end) self.old) }
        ensures calm { IfOk result (λ then. self.new.moves ≡ self.old.moves) }
    {
        match self.tasks.pop() {
            None => match end {
                End::Gives(_) | End::Leaves(_) => Ok(Now::End(None)),
                End::Fails(fault) => Ok(Now::End(Some(fault))),
            },
            Some(Task::Then(then)) => self.hand_on(alloc, then, end),
            Some(Task::Back(frame)) => Ok(self.back(frame, end)),
            Some(Task::Leave(lock, grade)) => {
                Ok(Now::Ask(Request::Exit(lock), OnReply::Left(grade, end)))
            }
            Some(Task::Close(_) | Task::Mapped(_)) => Ok(Now::Have(end)),
        }
    }

    /// The evaluation of an expression begins.
    #[tactic(auto, using(crate::proofs::steps::Goes::goes))]
    fn begin_expr(
        &mut self,
        alloc: Global,
        code: &Code,
        expr: Branch<Expr>,
    ) -> Result<Now, NoMemory>
        requires sound { IsSoundCode code.now }
        ensures keeps { IfOk result (λ then. Keeps code.now (Now.Evaluate expr) self.old then self.new) }
        ensures lighter { IfOk result (λ then. weigh then self.new < weigh (Now.Evaluate expr) self.old) }
        ensures calm { IfOk result (λ then. self.new.moves ≡ self.old.moves) }
    {
        match known(&self.frame, expr.get()) {
            Some(Ok(value)) => self.close(alloc, End::Gives(value)),
            Some(Err(fault)) => self.close(alloc, End::Fails(fault)),
            None => {
                let step = evaluate(alloc, code, &self.frame, expr.get())?;
                self.advance(alloc, step)
            }
        }
    }

    /// The next argument's evaluation begins, or the call where none is left.
    #[tactic(auto, using(crate::proofs::steps::Goes::goes))]
    fn begin_argument(
        &mut self,
        alloc: Global,
        callees: Places,
        object: Value,
        before: Items<Value>,
        rest: Rest<Expr>,
    ) -> Result<Now, NoMemory>
        ensures keeps { IfOk result (λ then. (code : Code) → Keeps code (Now.Arguments callees object before rest) self.old then self.new) }
        ensures lighter { IfOk result (λ then. weigh then self.new < weigh (Now.Arguments callees object before rest) self.old) }
        ensures calm { IfOk result (λ then. self.new.moves ≡ self.old.moves) }
    {
        let step = next_argument(alloc, callees, object, before, rest)?;
        self.advance(alloc, step)
    }

    /// The execution of a statement begins. An expression of it whose value is known isn't begun, its value is used at once.
    #[tactic(auto, using(crate::proofs::forms::Weights::weights))]
    fn begin_statement(&mut self, alloc: Global, statement: &Stmt) -> Result<Now, NoMemory>
        ensures keeps { IfOk result (λ then. (code : Code) → Keeps code (Now.Execute statement.now) self.old then self.new) }
        ensures lighter { IfOk result (λ then. weigh then self.new < weigh (Now.Execute statement.now) self.old) }
        ensures calm { IfOk result (λ then. self.new.moves ≡ self.old.moves) }
    {
        match statement {
            Stmt::Assign(variable, value) => self.begin(alloc, value, OnValue::Assign(*variable)),
            Stmt::Eval(expr) => Ok(Now::Evaluate(expr.again(alloc)?)),
            Stmt::If(test, all, others) => {
                self.begin(
                    alloc,
                    test,
                    OnValue::If(all.again(alloc)?, others.again(alloc)?),
                )
            }
            Stmt::While(test, body) => Ok(Now::Pace(Move::Turn(
                test.again(alloc)?,
                body.again(alloc)?,
            ))),
            Stmt::Print(value) => self.begin(alloc, value, OnValue::Print),
            _ => {
                let step = execute(alloc, statement)?;
                self.advance(alloc, step)
            }
        }
    }

    /// The next statement begins, or the block ends where none is left.
    fn begin_next(&mut self, alloc: Global, mut rest: Rest<Stmt>) -> Result<Now, NoMemory>
        ensures keeps { IfOk result (λ then. (code : Code) → Keeps code (Now.Run rest) self.old then self.new) }
        ensures lighter { IfOk result (λ then. weigh then self.new < weigh (Now.Run rest) self.old) }
        ensures calm { IfOk result (λ then. self.new.moves ≡ self.old.moves) }
    {
        match rest.pop(alloc)? {
            Some(statement) => {
                self.tasks.push(Task::Then(OnValue::Next(rest)))?;
                self.begin_statement(alloc, statement.get())
            }
            None => Ok(Now::Have(End::Gives(Value::Null))),
        }
    }

    /// One step, which makes no move.
    fn step(&mut self, alloc: Global, code: &Code, now: Now) -> Result<Now, NoMemory>
        requires sound { IsSoundCode code.now }
        requires local { ¬ IsSuspended now }
        ensures keeps { IfOk result (λ then. Keeps code.now now self.old then self.new) }
        ensures lighter { IfOk result (λ then. weigh then self.new < weigh now self.old) }
        ensures calm { IfOk result (λ then. self.new.moves ≡ self.old.moves) }
    {
        match now {
            Now::Evaluate(expr) => self.begin_expr(alloc, code, expr),
            Now::Arguments(callees, object, before, rest) => {
                self.begin_argument(alloc, callees, object, before, rest)
            }
            Now::Execute(statement) => self.begin_statement(alloc, statement.get()),
            Now::Run(rest) => self.begin_next(alloc, rest),
            Now::Have(end) => self.close(alloc, end),
            Now::Pace(_) | Now::Ask(_, _) | Now::End(_) => unreachable!(),
        }
    }

    /// Makes steps up to a request, a move or the end.
    fn settle(&mut self, alloc: Global, code: &Code, begun: Now) -> Result<Now, NoMemory>
        requires sound { IsSoundCode code.now }
        ensures keeps { IfOk result (λ then. Keeps code.now begun self.old then self.new) }
        ensures rests { IfOk result (λ then. IsSuspended then) }
        ensures calm { IfOk result (λ then. self.new.moves ≡ self.old.moves) }
    {
        let mut now = begun;
        'going: while !is_suspended(&now) {
            now = self.step(alloc, code, now)?;
        }
        Ok(now)
    }

    /// The condition of a loop has a value: a turn, or the end of the loop.
    fn turn(
        &mut self,
        alloc: Global,
        value: Value,
        test: Branch<Expr>,
        body: Block,
    ) -> Result<Now, NoMemory>
        ensures keeps { IfOk result (λ now. (code : Code) → Keeps code (Now.Have (End.Gives value)) (with_then (Some (Task.Then (OnValue.While test body))) self.old) now self.new) }
        ensures calm { IfOk result (λ now. self.new.moves ≡ self.old.moves) }
    {
        let step = turn(alloc, value, test, body)?;
        self.follow(step)
    }

    /// A turn of a loop is made: its condition is evaluated, which stays for the next turn. Where its value is known nothing of it is begun.
    #[tactic(auto, using(crate::proofs::standing::AfterReplies::turned))]
    fn make_turn(&mut self, alloc: Global, test: Branch<Expr>, body: Block) -> Result<Now, NoMemory>
        requires { self.old.moves < most_moves }
        ensures makes { IfOk result (λ then. (code : Code) → MakesMove code (Now.Pace (Move.Turn test body)) self.old then self.new) }
        ensures moved { IfOk result (λ then. self.new.moves ≡ self.old.moves + 1) }
    {
        self.moves += 1;
        match known(&self.frame, test.get()) {
            Some(Ok(value)) => self.turn(alloc, value, test, body),
            Some(Err(fault)) => {
                discard((test, body));
                Ok(Now::Have(End::Fails(fault)))
            }
            None => {
                let once = test.again(alloc)?;
                self.follow(Step::evaluate(once, OnValue::While(test, body)))
            }
        }
    }

    /// A method's body is begun, in its frame.
    #[tactic(auto, using(crate::proofs::standing::AfterReplies::begun))]
    fn make_body(&mut self, alloc: Global, code: &Code, method: u32) -> Result<Now, NoMemory>
        requires { self.old.moves < most_moves }
        ensures makes { IfOk result (λ then. MakesMove code.now (Now.Pace (Move.Body method)) self.old then self.new) }
        ensures moved { IfOk result (λ then. self.new.moves ≡ self.old.moves + 1) }
    {
        let body = body_of(alloc, code, method)?;
        self.moves += 1;
        Ok(Now::Run(Rest::new(body)))
    }

    /// A move is made.
    fn make(&mut self, alloc: Global, code: &Code, then: Move) -> Result<Now, NoMemory>
        requires { self.old.moves < most_moves }
        ensures makes { IfOk result (λ now. MakesMove code.now (Now.Pace then) self.old now self.new) }
        ensures moved { IfOk result (λ now. self.new.moves ≡ self.old.moves + 1) }
    {
        match then {
            Move::Turn(test, body) => self.make_turn(alloc, test, body),
            Move::Body(method) => self.make_body(alloc, code, method),
        }
    }

    /// Goes on up to a request or the end.
    pub(crate) fn go(&mut self, alloc: Global, code: &Code, begun: Now) -> Result<Now, NoMemory>
        requires sound { IsSoundCode code.now }
        ensures leads { IfOk result (λ then. Leads code.now begun self.old then self.new) }
        ensures asks { IfOk result (λ then. IsAsk then) }
    {
        let mut now = begun;
        'going: loop {
            now = self.settle(alloc, code, now)?;
            match now {
                Now::Pace(then) => {
                    if MOST_MOVES <= self.moves {
                        return Ok(Now::Ask(Request::Pause, OnReply::Paused(then)));
                    }
                    now = self.make(alloc, code, then)?;
                }
                Now::Ask(request, on) => return Ok(Now::Ask(request, on)),
                Now::End(fault) => return Ok(Now::End(fault)),
                _ => unreachable!(),
            }
        }
    }
}

/// The task, if there is one, is put on top of the others.
fn put_before<T: Drop>(tasks: &mut Stack<T>, then: Option<T>) -> Result<(), NoMemory>
    ensures { OnOk result (tasks.new ≡ option_to_list then ++ tasks.old) }
{
    if let Some(task) = then {
        tasks.push(task)?;
    }
    Ok(())
}

/// What is no longer needed.
fn discard<T: Drop>(_unneeded: T) {}

/// Whether the thread is at a request, a move or its end.
fn is_suspended(now: &Now) -> bool
    ensures { IsTrue result ↔ IsSuspended now.now }
{
    matches!(now, Now::Pace(_) | Now::Ask(_, _) | Now::End(_))
}

/// The statements of a method.
fn body_of(alloc: Global, code: &Code, method: u32) -> Result<Block, NoMemory>
    ensures { IfOk result (λ body. body ≡ statements_of (slice_get code.now.methods method)) }
{
    match code.methods.get(method as usize) {
        Some(method) => Ok(method.body.again(alloc)?),
        None => Ok(Branch::new(alloc, Items::new(alloc))?),
    }
}
