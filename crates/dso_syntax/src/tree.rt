//! The tree of a program text. Each form carries the line of its first token, counted from 1.

use dso_base::{Boxed, Items, Kind, Op, Word};

/// A name where it is written.
#[derive(Debug, Drop)]
pub struct Ident {
    pub line: u32,
    pub name: Word,
}

/// A program text: its classes and threads in the order of the text.
#[derive(Debug, Drop)]
pub struct Ast {
    pub items: Items<Item>,
}

/// A class or a thread.
#[derive(Debug, Drop)]
pub enum Item {
    Class {
        line: u32,
        name: Ident,
        members: Items<Member>,
    },
    Thread {
        line: u32,
        number: i64,
        number_line: u32,
        body: Items<StmtTree>,
    },
}

/// A member of a class.
#[derive(Debug, Drop)]
pub enum Member {
    Field {
        line: u32,
        kind: Kind,
        name: Ident,
    },
    Static {
        line: u32,
        name: Ident,
    },
    Method {
        line: u32,
        synced: bool,
        name: Ident,
        params: Items<Ident>,
        body: Items<StmtTree>,
    },
}

/// A statement.
#[cycle(statements)]
#[derive(Debug, Drop)]
pub struct StmtTree {
    pub line: u32,
    pub form: StmtForm,
}

/// What a statement is. An absent `else` is an empty list, an `else if` the list of that one statement. A `TimedWait` has
/// what is waited on and for how many ticks at most.
#[cycle(statements)]
#[derive(Debug, Drop)]
pub enum StmtForm {
    Var(Ident, ExprTree),
    Assign(ExprTree, ExprTree),
    Eval(ExprTree),
    If(ExprTree, Items<StmtTree>, Items<StmtTree>),
    While(ExprTree, Items<StmtTree>),
    Sync(ExprTree, Items<StmtTree>),
    Wait(ExprTree),
    TimedWait(ExprTree, ExprTree),
    Notify(ExprTree),
    NotifyAll(ExprTree),
    Print(ExprTree),
    Return(Option<ExprTree>),
}

/// An expression.
#[cycle(expressions)]
#[derive(Debug, Drop)]
pub struct ExprTree {
    pub line: u32,
    pub form: ExprForm,
}

/// What an expression is. A pair of parentheses round an expression is a `Paren`.
#[cycle(expressions)]
#[derive(Debug, Drop)]
pub enum ExprForm {
    Number(i64),
    Text(Word),
    Truth(bool),
    Null,
    This,
    Name(Word),
    Paren(Boxed<ExprTree>),
    NewObject(Ident),
    NewArray(Kind, Boxed<ExprTree>),
    Field(Boxed<ExprTree>, Ident),
    Call(Boxed<ExprTree>, Ident, Items<ExprTree>),
    Elem(Boxed<ExprTree>, Boxed<ExprTree>),
    Unary(Op, Boxed<ExprTree>),
    Binary(Op, Boxed<ExprTree>, Boxed<ExprTree>),
}
