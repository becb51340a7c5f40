//! Expressions and statements. Their parts may be held by several at once, so nobody has to copy a tree.

ghost use Rattle.std.specs.Prelude.{◌≡◌, IfOk};

use crate::Branch;
use dso_base::{Grade, Items, Kind, NoMemory, Op, Value};
use std::alloc::Global;

/// The statements of a block.
pub type Block = Branch<Items<Branch<Stmt>>>;

/// The arguments of a call.
pub type Arguments = Branch<Items<Branch<Expr>>>;

/// Classes, each with a number there.
pub type Places = Branch<Items<(u32, u32)>>;

/// Where a field of some name is: each class that has it, with the field's number there.
///
/// `length` says that the name is that of an array's size.
#[derive(Debug, Drop)]
pub struct FieldRef {
    pub places: Places,
    pub length: bool,
}

impl FieldRef {
    /// The same field once more. NoMemory: an allocation was refused.
    pub(crate) fn again(&self, alloc: Global) -> Result<FieldRef, NoMemory>
        ensures { IfOk result (λ field. field ≡ self.now) }
    {
        Ok(FieldRef {
            places: self.places.again(alloc)?,
            length: self.length,
        })
    }
}

/// A statement.
#[derive(Debug, Drop)]
pub enum Stmt {
    /// A variable is given a value.
    Assign(u32, Branch<Expr>),
    /// A field of an object is given a value.
    PutField(Branch<Expr>, FieldRef, Branch<Expr>),
    /// An element of an array is given a value: the array, the index, the value.
    PutElem(Branch<Expr>, Branch<Expr>, Branch<Expr>),
    /// A root is given a value.
    PutRoot(u32, Branch<Expr>),
    /// An expression is evaluated, and its value dropped.
    Eval(Branch<Expr>),
    /// One block or the other, by a boolean.
    If(Branch<Expr>, Block, Block),
    /// A block again and again while a boolean is true.
    While(Branch<Expr>, Block),
    /// The statements under the object's monitor, which is taken at this level.
    Sync(Branch<Expr>, Grade, Block),
    /// The thread waits on an object's monitor.
    Wait(Branch<Expr>),
    /// The thread waits on an object's monitor for a notification or for so many ticks: the object, the ticks.
    TimedWait(Branch<Expr>, Branch<Expr>),
    /// A thread that waits on an object's monitor is woken.
    Notify(Branch<Expr>),
    /// All threads that wait on an object's monitor are woken.
    NotifyAll(Branch<Expr>),
    /// A value is printed.
    Print(Branch<Expr>),
    /// The body is left with a value, or with null.
    Return(Option<Branch<Expr>>),
}

/// An expression.
#[derive(Debug, Drop)]
pub enum Expr {
    /// A literal.
    Const(Value),
    /// A variable of the body, by its number.
    Var(u32),
    /// The object that the method is called on.
    This,
    /// A root, by its number.
    Root(u32),
    /// A field of an object; an array's size, where its name is that of sizes.
    Field(Branch<Expr>, FieldRef),
    /// An element: the array, the index.
    Elem(Branch<Expr>, Branch<Expr>),
    /// A call: the object, the methods of that name and number of arguments, each by its class and its number, and the
    /// arguments.
    Call(Branch<Expr>, Places, Arguments),
    /// A new object of a class.
    NewObject(u32),
    /// A new array of a kind, with its size.
    NewArray(Kind, Branch<Expr>),
    /// An operator before one operand.
    Unary(Op, Branch<Expr>),
    /// An operator between two operands, the left one first.
    Binary(Op, Branch<Expr>, Branch<Expr>),
}
